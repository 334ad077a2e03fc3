//! The recordings, and which of them each format has.

ghost use Rattle.std.specs.Prelude.{◌≡◌, IfNone, IfSome};
ghost use Rattle.disk_recordings.specs.Agreement.{Agrees, HasNoId, IsIdPlace};
ghost use Rattle.disk_recordings.specs.Ids.{id_place as id_place_in};
ghost use Rattle.disk_recordings.specs.Members.{as_controllers_read};
ghost use Rattle.disk_recordings.specs.Recordings.{commodore_by, numbered_by, recording_of as recording_in};
ghost use Rattle.ibm_disks.specs.Disks.{rate_of, track_of_disk};
ghost use Rattle.ibm_disks.specs.GapPlans.{density_of};

use crate::disk_id::{DiskId, IdPlace};
use amiga_mfm::AmigaMfm;
use apple_gcr::AppleGcr;
use commodore_gcr::{CommodoreDrive, CommodoreGcr};
use either::{Either, Left, Right};
use flux_base::TrackId;
use ibm_disks::{Density, IbmDisk};
use ibm_fm::IbmFm;
use ibm_mfm::{HeadNumbers, IbmMfm};
use macintosh_gcr::MacintoshGcr;
use sector_images::Format;

/// Where a Commodore 1541's or 1571's disk has its id: in track 18, counted from 1.
const ID_OF_1541: IdPlace = IdPlace {
    track: TrackId {
        cylinder: 17,
        head: 0,
    },
    byte: 0xA2,
};

/// Where an 8050's or 8250's has its id: in track 39.
const ID_OF_8050: IdPlace = IdPlace {
    track: TrackId {
        cylinder: 38,
        head: 0,
    },
    byte: 0x18,
};

/// One of the recordings.
pub type DiskRecording = Either<
    IbmFm,
    Either<IbmMfm, Either<AmigaMfm, Either<CommodoreGcr, Either<AppleGcr, MacintoshGcr>>>>,
>;

/// The recording of the format's tracks, on a disk with this id. Its tracks, sectors, bytes and cells are those
/// that `sector_images` has for the format.
pub fn recording_of(format: Format, id: DiskId) -> DiskRecording
    ensures recording { result ≡ recording_in format id }
    ensures agrees { Agrees format result }
{
    match format {
        Format::Ibm3740 => Left(IbmFm::IBM_3740),
        Format::Ibm360 | Format::Ibm720 => Right(Left(IbmMfm::PC_9)),
        Format::Ibm1440 => Right(Left(IbmMfm::PC_18)),
        Format::C1581 => Right(Left(IbmMfm::C1581)),
        Format::Amiga => Right(Right(Left(AmigaMfm::DoubleDensity))),
        Format::AmigaHd => Right(Right(Left(AmigaMfm::HighDensity))),
        Format::C1541 | Format::C1541Forty | Format::C1571 => commodore(CommodoreDrive::C1541, id),
        Format::C8050 | Format::C8250 => commodore(CommodoreDrive::C8050, id),
        Format::AppleDo | Format::ApplePo => Right(Right(Right(Right(Left(AppleGcr::STRICT))))),
        Format::AppleDos33 | Format::AppleProdos => {
            Right(Right(Right(Right(Left(AppleGcr::CONTROLLER)))))
        }
        Format::Mac400 => Right(Right(Right(Right(Right(MacintoshGcr::SingleSided))))),
        Format::Mac800 => Right(Right(Right(Right(Right(MacintoshGcr::DoubleSided))))),
        Format::Numbered(disk) => numbered(disk),
    }
}

/// That of a disk of one of Commodore's drives.
fn commodore(drive: CommodoreDrive, id: DiskId) -> DiskRecording
    ensures { result ≡ commodore_by drive id }
{
    Right(Right(Right(Left(CommodoreGcr {
        drive,
        id1: id.first,
        id2: id.second,
    }))))
}

/// That of a disk by its numbers.
fn numbered(disk: IbmDisk) -> DiskRecording
    ensures { result ≡ numbered_by (density_of (rate_of disk)) (track_of_disk disk) }
{
    let numbers = disk.track();
    match disk.rate().density() {
        Density::Single => Left(IbmFm { numbers }),
        Density::Double => Right(Left(IbmMfm {
            numbers,
            heads: HeadNumbers::Same,
        })),
    }
}

/// Where an image of the format has its disk's id, if its disks have one. The recording of any other format is one for
/// all ids.
pub fn id_place(format: Format) -> Option<IdPlace>
    ensures place { result ≡ id_place_in format }
    ensures some { IfSome result (IsIdPlace format) }
    ensures none { IfNone result (HasNoId format) }
{
    match format {
        Format::C1541 | Format::C1541Forty | Format::C1571 => Some(ID_OF_1541),
        Format::C8050 | Format::C8250 => Some(ID_OF_8050),
        _ => None,
    }
}

/// The format as which a controller reads the format's disks: by the second rule a byte of an Apple disk begins at the
/// next one.
pub fn controller_format(format: Format) -> Format
    ensures { result ≡ as_controllers_read format }
{
    match format {
        Format::AppleDo => Format::AppleDos33,
        Format::ApplePo => Format::AppleProdos,
        format => format,
    }
}
