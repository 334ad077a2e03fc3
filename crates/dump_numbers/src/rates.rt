//! The disks by whose recording and clock names are read.

ghost use Rattle.std.specs.Prelude.{◌≡◌};
ghost use Rattle.disk_recordings.specs.Recordings.{ANY_ID, recording_of as recording_in};
ghost use Rattle.dump_numbers.specs.Rates.{disk_with_one as disk_with_one_of, format_with_one};

use disk_recordings::{DiskId, DiskRecording, recording_of};
use ibm_disks::{DiskNumbers, IbmDisk, Rate, SectorSize};
use sector_images::Format;

/// A disk of a rate with one track, of one sector of a size.
#[tactic(auto, using(crate::proofs::OneSector::disk_is))]
pub fn disk_with_one(rate: Rate, size: SectorSize) -> IbmDisk
    ensures { result ≡ disk_with_one_of rate size }
{
    match IbmDisk::of_numbers(DiskNumbers {
        rate,
        cylinders: 1,
        heads: 1,
        sectors: 1,
        sector_bytes: size.bytes(),
        first_sector: 1,
    }) {
        Some(disk) => disk,
        // There is one of each rate and size.
        None => unreachable!(),
    }
}

/// The recording of its track.
pub fn recording_with_one(rate: Rate, size: SectorSize) -> DiskRecording
    ensures { result ≡ recording_in (format_with_one rate size) ANY_ID }
{
    recording_of(Format::Numbered(disk_with_one(rate, size)), DiskId::ANY)
}
