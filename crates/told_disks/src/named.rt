//! Which numbers the disks cover that have names.

ghost use Rattle.std.specs.Prelude.{◌≡◌, option_map};
ghost use Rattle.told_disks.specs.Named.{are_within as are_within_of, covers as covers_by, is_1581 as is_1581_of};
ghost use Rattle.told_disks.specs.Named.{is_covered as is_covered_by};
ghost use Rattle.told_disks.specs.declared.heads.NamedHeads.TheVariants.{Own};
ghost use Rattle.told_disks.specs.Named.{numbers_at, rate_if_ibm};
ghost use Rattle.ibm_disks.specs.Disks.{rate_of};
ghost use Rattle.sector_images.specs.declared.format.Format.TheVariants.{Numbered};

use crate::heads::NamedHeads;
use ibm_disks::{DiskNumbers, IbmDisk, Rate};
use sector_images::{Format, all_formats};
use track_shelf::Stepping;

/// Whether a disk that has a name covers the numbers, whose headers name these heads, and of which a drive with these
/// steps reaches all tracks.
pub(crate) fn is_covered(heads: NamedHeads, stepping: Stepping, numbers: &DiskNumbers) -> bool
    ensures { result ≡ is_covered_by heads stepping numbers.now }
{
    match heads {
        NamedHeads::Own => is_covered_by_own(stepping, numbers),
        NamedHeads::First => false,
        NamedHeads::Changed => is_1581(stepping, numbers),
    }
}

/// Whether the Commodore 1581's disk does.
fn is_1581(stepping: Stepping, numbers: &DiskNumbers) -> bool
    ensures { result ≡ is_1581_of stepping numbers.now }
{
    stepping.reaches_all(Format::C1581)
        && are_within(numbers, &numbers_of(Rate::Double, 80, 2, 10, 512))
}

/// Whether a disk does whose headers name the drive's heads.
fn is_covered_by_own(stepping: Stepping, numbers: &DiskNumbers) -> bool
    ensures { result ≡ is_covered_by Own stepping numbers.now }
{
    for format in all_formats() {
        if covers(stepping, numbers, *format) {
            return true;
        }
    }
    false
}

/// Whether a format does.
fn covers(stepping: Stepping, numbers: &DiskNumbers, format: Format) -> bool
    ensures { result ≡ covers_by stepping numbers.now format }
{
    if !stepping.reaches_all(format) {
        return false;
    }
    match numbers_if_ibm(format) {
        Some(of) => are_within(numbers, &of),
        None => false,
    }
}

/// The numbers of a format that has one of IBM's recordings, and headers that name the drive's heads.
fn numbers_if_ibm(format: Format) -> Option<DiskNumbers>
    ensures { result ≡ option_map (numbers_at format) (rate_if_ibm format) }
{
    match format {
        Format::Ibm3740 => Some(numbers_of(Rate::SingleAt360, 77, 1, 26, 128)),
        Format::Ibm360 => Some(numbers_of(Rate::Double, 40, 2, 9, 512)),
        Format::Ibm720 => Some(numbers_of(Rate::Double, 80, 2, 9, 512)),
        Format::Ibm1440 => Some(numbers_of(Rate::High, 80, 2, 18, 512)),
        Format::Numbered(disk) => Some(numbers_of_disk(disk)),
        _ => None,
    }
}

/// Numbers whose first sector is 1.
fn numbers_of(
    rate: Rate,
    cylinders: u16,
    heads: u16,
    sectors: u16,
    sector_bytes: u16,
) -> DiskNumbers
    ensures { result ≡ record {
      rate = rate;
      cylinders = cylinders;
      heads = heads;
      sectors = sectors;
      sector_bytes = sector_bytes;
      first_sector = 1;
    } }
{
    DiskNumbers {
        rate,
        cylinders,
        heads,
        sectors,
        sector_bytes,
        first_sector: 1,
    }
}

/// Those of a disk by its numbers.
fn numbers_of_disk(disk: IbmDisk) -> DiskNumbers
    ensures { result ≡ numbers_at (Numbered disk) (rate_of disk) }
{
    let track = disk.track();
    DiskNumbers {
        rate: disk.rate(),
        cylinders: u16::from(disk.cylinders()),
        heads: u16::from(disk.heads()),
        sectors: u16::from(track.sectors),
        sector_bytes: track.size.bytes(),
        first_sector: u16::from(track.first_sector),
    }
}

/// Whether numbers are those of another disk, which has as many cylinders or more.
fn are_within(numbers: &DiskNumbers, of: &DiskNumbers) -> bool
    ensures { result ≡ are_within_of numbers.now of.now }
{
    let rate = numbers.rate.track_bytes() == of.rate.track_bytes();
    let heads = numbers.heads == of.heads;
    let sectors = numbers.sectors == of.sectors && numbers.sector_bytes == of.sector_bytes;
    let first = numbers.first_sector == of.first_sector;
    rate && heads && sectors && first && numbers.cylinders <= of.cylinders
}
