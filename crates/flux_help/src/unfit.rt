//! Why the numbers that a word writes are no disk's.

ghost use Rattle.std.specs.Prelude.{◌≡◌, ◌+◌, ◌≤◌, ◌++◌, ◌&&◌, ◌∷◌, [], Some, codes, decimal, length, nat_le};
ghost use Rattle.std.specs.Option.{option_map};
ghost use Rattle.arrayvec.specs.ArrayString.{array_string_len};
ghost use Rattle.ibm_disks.specs.Disks.{are_few};
ghost use Rattle.ibm_disks.specs.GapPlans.{IsCountOfSectors};
ghost use Rattle.flux_help.specs.Unfit.{UnfitIsNoDisk, first_of, first_unfit, last_sector_text, size_with, track_text};
ghost use Rattle.flux_help.specs.Unfit.{unfit_text};
ghost use Rattle.flux_help.specs.WrittenNumbers.{written_numbers};
ghost use Rattle.flux_help.specs.WrongWords.{numbers_ending, unfit_ending};
ghost use Rattle.flux_help.specs.declared.unfit.Unfit.TheVariants.{LastSector, Track};

use ibm_disks::{DiskNumbers, SectorSize, TrackNumbers};
use sector_report::{Line, put, put_named, put_u32};

// How the lines begin on a number that does not fit: which ones fit.
const CYLINDERS_ARE: &str = "cylinders are 1 to 99, not ";

const HEADS_ARE: &str = "heads are 1 or 2, not ";

const SECTORS_ARE: &str = "sectors are 1 to 32, not ";

const SECTOR_BYTES_ARE: &str = "bytes of a sector are 128, 256, 512 or 1024, not ";

const LAST_SECTOR_IS: &str = "the last sector is 255 at most, not ";

/// A number of a disk's that does not fit.
#[derive(Clone, Copy, Debug)]
pub(crate) enum Unfit {
    /// Not 1 to 99 cylinders.
    Cylinders,
    /// Not one head or two.
    Heads,
    /// Not 1 to 32 sectors on a track.
    Sectors,
    /// Bytes of a sector that are no size.
    SectorBytes,
    /// The last sector's number has more than 8 bits.
    LastSector,
    /// So many sectors of this size do not fit on a track of the rate.
    Track,
}

/// The end of the line on a word that begins as those do that write a disk's numbers: which of its numbers does not
/// fit. None where each does, or the word writes none.
pub(crate) fn numbers_ending(word: &[u8]) -> Option<Line>
    ensures { option_map (λ line. line.bytes) result ≡ numbers_ending (written_numbers word.now) }
{
    match numbers_of(word) {
        Some(numbers) => unfit_ending(numbers),
        None => None,
    }
}

/// The numbers that a word writes.
fn numbers_of(word: &[u8]) -> Option<DiskNumbers>
    ensures { result ≡ written_numbers word.now }
{
    DiskNumbers::of_word(word)
}

/// The end of the line on a word of these numbers.
fn unfit_ending(numbers: DiskNumbers) -> Option<Line>
    ensures { option_map (λ line. line.bytes) result ≡ unfit_ending numbers (first_unfit numbers) }
{
    match first_unfit(numbers) {
        Some(number) => Some(unfit_line(number, numbers)),
        None => None,
    }
}

/// The first of the numbers that does not fit.
fn first_unfit(numbers: DiskNumbers) -> Option<Unfit>
    ensures { result ≡ first_unfit numbers }
{
    if !are_cylinders(numbers.cylinders) {
        return Some(Unfit::Cylinders);
    }
    if !are_heads(numbers.heads) {
        return Some(Unfit::Heads);
    }
    if !are_sectors(numbers.sectors) {
        return Some(Unfit::Sectors);
    }
    match size_with(numbers.sector_bytes) {
        Some(size) => unfit_track(numbers, size),
        None => Some(Unfit::SectorBytes),
    }
}

/// Whether a disk has so many cylinders.
fn are_cylinders(number: u16) -> bool
    ensures { result ≡ are_few number 1 }
{
    1 <= number && number <= 99
}

/// Whether a disk has so many heads.
fn are_heads(number: u16) -> bool
    ensures { result ≡ are_few 1 number }
{
    1 <= number && number <= 2
}

/// Whether a track has so many sectors.
fn are_sectors(number: u16) -> bool
    ensures { result ≡ (nat_le 1 number && nat_le number 32) }
{
    1 <= number && number <= 32
}

/// The size of so many bytes, if there is one.
fn size_with(bytes: u16) -> Option<SectorSize>
    ensures { result ≡ size_with bytes }
{
    SectorSize::of_bytes(bytes)
}

/// What does not fit of a track's numbers: that of its last sector, or their count.
fn unfit_track(numbers: DiskNumbers, size: SectorSize) -> Option<Unfit>
    requires count { IsCountOfSectors numbers.sectors }
    requires size { size_with numbers.sector_bytes ≡ Some size }
    ensures { result ≡ first_of (LastSector ∷ Track ∷ []) numbers }
{
    if u32::from(numbers.first_sector) + u32::from(numbers.sectors) > 256 {
        return Some(Unfit::LastSector);
    }
    let sectors = numbers.sectors as u8;
    let first_sector = numbers.first_sector as u8;
    match TrackNumbers::of_disk(numbers.rate, sectors, first_sector, size) {
        Some(_) => None,
        None => Some(Unfit::Track),
    }
}

/// What is said of a number that does not fit, behind a word.
fn unfit_line(number: Unfit, numbers: DiskNumbers) -> Line
    ensures { result.bytes ≡ codes "; " ++ (unfit_text number numbers ++ codes "\n") }
{
    let mut line = Line::new();
    put(&mut line, "; ");
    put_unfit(&mut line, number, numbers);
    put(&mut line, "\n");
    line
}

/// Appends what is said of a number that does not fit.
fn put_unfit(line: &mut Line, number: Unfit, numbers: DiskNumbers)
    requires { array_string_len line.old + 100 ≤ 192 }
    ensures bytes { line.new.bytes ≡ line.old.bytes ++ unfit_text number numbers }
    ensures len { array_string_len line.new ≤ array_string_len line.old + 100 }
{
    match number {
        Unfit::Cylinders => put_not(line, CYLINDERS_ARE, numbers.cylinders),
        Unfit::Heads => put_not(line, HEADS_ARE, numbers.heads),
        Unfit::Sectors => put_not(line, SECTORS_ARE, numbers.sectors),
        Unfit::SectorBytes => put_not(line, SECTOR_BYTES_ARE, numbers.sector_bytes),
        Unfit::LastSector => put_last_sector(line, numbers),
        Unfit::Track => put_track(line, numbers),
    }
}

/// Appends which numbers fit, and the one that does not.
fn put_not(line: &mut Line, fitting: &str, number: u16)
    requires room { array_string_len line.old + 100 ≤ 192 }
    requires short { length fitting.now ≤ 60 }
    ensures bytes { line.new.bytes ≡ line.old.bytes ++ (fitting.now ++ decimal number) }
    ensures len { array_string_len line.new ≤ array_string_len line.old + 100 }
{
    put_named(line, fitting, u32::from(number));
}

/// Appends that the number of the last sector is too great.
fn put_last_sector(line: &mut Line, numbers: DiskNumbers)
    requires { array_string_len line.old + 100 ≤ 192 }
    ensures bytes { line.new.bytes ≡ line.old.bytes ++ last_sector_text numbers }
    ensures len { array_string_len line.new ≤ array_string_len line.old + 100 }
{
    let behind = u32::from(numbers.first_sector) + u32::from(numbers.sectors);
    put_named(line, LAST_SECTOR_IS, behind.saturating_sub(1));
}

/// Appends that the sectors do not fit on their track.
fn put_track(line: &mut Line, numbers: DiskNumbers)
    requires { array_string_len line.old + 100 ≤ 192 }
    ensures bytes { line.new.bytes ≡ line.old.bytes ++ track_text numbers }
    ensures len { array_string_len line.new ≤ array_string_len line.old + 100 }
{
    put_u32(line, u32::from(numbers.sectors));
    put_named(line, " sectors of ", u32::from(numbers.sector_bytes));
    put_named(
        line,
        " bytes do not fit on a track of ",
        u32::from(numbers.rate.track_bytes()),
    );
}

/// The numbers that do not fit are just those of no disk.
pub fn unfit_is_no_disk()
    ensures { UnfitIsNoDisk }
{}
