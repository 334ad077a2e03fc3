//! What stands at places of the file: all behind its header, a single byte, and the header of a track. For each the
//! file is opened, read and closed.

ghost use Rattle.std.specs.Prelude.{◌≡◌, ◌≤◌, ◌*◌, ℕ, List, Some, None, take, drop, is_err, length, nat_lt, sum, IfOk};
ghost use Rattle.flux_base.specs.Counts.{Counts, counts_of};
ghost use Rattle.flux_base.specs.World.{source_counts};
ghost use Rattle.scp_files.specs.Files.{HEADER_SIZE};
ghost use Rattle.scp_files.specs.Tracks.{head_size};
ghost use Rattle.scp_tracks.specs.Tracks.{lost};
ghost use Rattle.track_shelf.specs.Files.{File, file_at};
ghost use Rattle.track_shelf.specs.Told.{with_closed, with_failed};
ghost use Rattle.track_shelf.specs.World.{told_at};
ghost use Rattle.scp_notes.specs.Files.{short_sum};
ghost use Rattle.scp_notes.specs.inside.Open.{IsFresh};

use flux_base::{Failed, Source};
use scp_files::TrackHead;
use track_shelf::Shelf;

/// The bytes of a file's header without its table, which are not summed.
const HEADER_SIZE: u64 = 16;

/// The first size behind the header that is too great to be summed: of a file of 4 GiB.
const MOST_SUMMED: u64 = (1 << 32) - HEADER_SIZE;

/// How many bytes are summed together.
const PIECE: usize = 4096;

/// The sum of all bytes behind the header of the file, by 32 bits. None where it has 4 GiB or more, or is not there.
pub(crate) fn read_sum<H: Shelf>(path: &[u8], shelf: &mut H) -> Result<Option<u32>, Failed>
    ensures is { (files : List File) (file : File) → H.files shelf.old ≡ Some files → file_at files path.now ≡ Some file
        → IfOk result (λ it. it ≡ short_sum (drop HEADER_SIZE file.bytes)) }
    ensures told { told_at H.Source H.Shelf.own shelf.new
        ≡ with_failed (lost path.now result) (told_at H.Source H.Shelf.own shelf.old) }
    ensures counts { Counts (is_err result) (source_counts H.Source shelf.old) (source_counts H.Source shelf.new) }
{
    match shelf.open_at(path, HEADER_SIZE) {
        Ok(Some(file)) => take_sum(file, shelf),
        Ok(None) => Ok(None),
        Err(failed) => Err(failed),
    }
}

/// The same of a file that is open behind its header, which is given back.
fn take_sum<H: Shelf>(file: H::File, shelf: &mut H) -> Result<Option<u32>, Failed>
    ensures is { (bytes : List ℕ) → H.File.left file ≡ Some bytes → IfOk result (λ it. it ≡ short_sum bytes) }
    ensures told { IsFresh (counts_of H.File.faults H.File.failed file) (source_counts H.Source shelf.old)
        → told_at H.Source H.Shelf.own shelf.new
        ≡ with_closed (is_err result) (told_at H.Source H.Shelf.own shelf.old) }
    ensures counts { IsFresh (counts_of H.File.faults H.File.failed file) (source_counts H.Source shelf.old)
        → Counts (is_err result) (source_counts H.Source shelf.old) (source_counts H.Source shelf.new) }
{
    let mut file = file;
    let sum = sum_rest(&mut file);
    shelf.close_file(file);
    sum
}

/// The sum of all bytes that are still to come, by 32 bits. None where they are too many.
fn sum_rest<S: Source>(source: &mut S) -> Result<Option<u32>, Failed>
    ensures is { (bytes : List ℕ) → S.left source.old ≡ Some bytes → IfOk result (λ it. it ≡ short_sum bytes) }
    ensures counts { Counts (is_err result) (source_counts S.Source source.old) (source_counts S.Source source.new) }
{
    let mut total = 0;
    let mut count = 0;
    let mut buffer = [0; PIECE];
    while count < MOST_SUMMED {
        match source.read(&mut buffer) {
            Ok(0) => return Ok(Some((total % (1 << 32)) as u32)),
            Ok(read) => {
                total += sum_piece(&buffer[..read]);
                count += read as u64;
            }
            Err(failed) => return Err(failed),
        }
    }
    Ok(None)
}

/// The sum of the bytes of a piece.
fn sum_piece(bytes: &[u8]) -> u64
    requires few { length bytes.now ≤ 4096 }
    ensures value { result ≡ sum bytes.now }
    ensures most { result ≤ 255 * length bytes.now }
{
    let mut total = 0;
    for byte in bytes {
        total += u64::from(*byte);
    }
    total
}

/// Whether the file has a byte at this place.
pub(crate) fn has_byte<H: Shelf>(path: &[u8], place: u64, shelf: &mut H) -> Result<bool, Failed>
    ensures is { (files : List File) (file : File) → H.files shelf.old ≡ Some files → file_at files path.now ≡ Some file
        → IfOk result (λ it. it ≡ nat_lt 0 (length (drop place file.bytes))) }
    ensures told { told_at H.Source H.Shelf.own shelf.new
        ≡ with_failed (lost path.now result) (told_at H.Source H.Shelf.own shelf.old) }
    ensures counts { Counts (is_err result) (source_counts H.Source shelf.old) (source_counts H.Source shelf.new) }
{
    match shelf.open_at(path, place) {
        Ok(Some(file)) => take_byte(file, shelf),
        Ok(None) => Ok(false),
        Err(failed) => Err(failed),
    }
}

/// Whether a byte of the open file is still to come; the file is given back.
fn take_byte<H: Shelf>(file: H::File, shelf: &mut H) -> Result<bool, Failed>
    ensures is { (bytes : List ℕ) → H.File.left file ≡ Some bytes
        → IfOk result (λ it. it ≡ nat_lt 0 (length bytes)) }
    ensures told { IsFresh (counts_of H.File.faults H.File.failed file) (source_counts H.Source shelf.old)
        → told_at H.Source H.Shelf.own shelf.new
        ≡ with_closed (is_err result) (told_at H.Source H.Shelf.own shelf.old) }
    ensures counts { IsFresh (counts_of H.File.faults H.File.failed file) (source_counts H.Source shelf.old)
        → Counts (is_err result) (source_counts H.Source shelf.old) (source_counts H.Source shelf.new) }
{
    let mut file = file;
    let mut buffer = [0; 1];
    let read = file.read(&mut buffer);
    shelf.close_file(file);
    match read {
        Ok(count) => Ok(count > 0),
        Err(failed) => Err(failed),
    }
}

/// The header of the track at this place. None where there is no such file.
pub(crate) fn read_head<H: Shelf>(
    path: &[u8],
    place: u64,
    revolutions: u8,
    shelf: &mut H,
) -> Result<Option<TrackHead>, Failed>
    ensures is { (files : List File) (file : File) → H.files shelf.old ≡ Some files → file_at files path.now ≡ Some file
        → IfOk result (λ head. head ≡ Some (take (head_size revolutions) (drop place file.bytes))) }
    ensures told { told_at H.Source H.Shelf.own shelf.new
        ≡ with_failed (lost path.now result) (told_at H.Source H.Shelf.own shelf.old) }
    ensures counts { Counts (is_err result) (source_counts H.Source shelf.old) (source_counts H.Source shelf.new) }
{
    match shelf.open_at(path, place) {
        Ok(Some(file)) => match take_head(file, revolutions, shelf) {
            Ok(head) => Ok(Some(head)),
            Err(failed) => Err(failed),
        },
        Ok(None) => Ok(None),
        Err(failed) => Err(failed),
    }
}

/// The header of the track at which the file is open, which is given back.
fn take_head<H: Shelf>(file: H::File, revolutions: u8, shelf: &mut H) -> Result<TrackHead, Failed>
    ensures is { (bytes : List ℕ) → H.File.left file ≡ Some bytes
        → IfOk result (λ head. head ≡ take (head_size revolutions) bytes) }
    ensures told { IsFresh (counts_of H.File.faults H.File.failed file) (source_counts H.Source shelf.old)
        → told_at H.Source H.Shelf.own shelf.new
        ≡ with_closed (is_err result) (told_at H.Source H.Shelf.own shelf.old) }
    ensures counts { IsFresh (counts_of H.File.faults H.File.failed file) (source_counts H.Source shelf.old)
        → Counts (is_err result) (source_counts H.Source shelf.old) (source_counts H.Source shelf.new) }
{
    let mut file = file;
    let head = TrackHead::read(revolutions, &mut file);
    shelf.close_file(file);
    head
}
