ghost use Rattle.std.specs.Prelude.{◌≡◌, ℕ, ◌+◌, ◌^◌, ◌<◌, ◌≤◌, [], List, false, length, IfNone, IfSome, IsTrue};
ghost use Rattle.cell_bits.specs.Bytes.{data_byte};
ghost use Rattle.flux_base.specs.Bounds.{MOST_SECTOR_BYTES};
ghost use Rattle.frame_law.specs.Frames.{IsFirstSync, NoSync};
ghost use Rattle.ibm_fields.specs.Fields.{bytes_at};
ghost use Rattle.ibm_mfm.specs.Sectors.{DATA_CELLS, Hold, OpensData, check_of};
ghost use Rattle.ibm_mfm.specs.Syncs.{SyncAt};

use crate::layout::{
    CHECK_START, CONTENT_PLACE, FIRST_BYTE_PLACE, MARK_CELLS, THIRD_MARK_PLACE, content_check_place,
};
use crate::rows::field_check;
use cell_bits::MFM_A1_MARK;
use check_values::crc16;
use frame_law::{CellsFrom, SectorBuffer};
use ibm_fields::{DATA_BYTE, DELETED_DATA_BYTE, check_of_bytes, number_at, take_bytes};
use mfm_coding::CODING;

/// The first three marks at a place from `from` to below `to`.
pub(crate) fn next_sync(frame: &CellsFrom, from: usize, to: usize) -> Option<usize>
    requires order { from ≤ to }
    requires near { to < 2 ^ 31 }
    ensures first { IfSome result (λ sync. IsFirstSync (SyncAt frame.now) from to sync) }
    ensures none { IfNone result (NoSync (SyncAt frame.now) from to) }
{
    let mut start = from;
    while let Some(place) = frame.find_word(start, to, CODING.sync, CODING.sync_cells) {
        if frame.stands_at(place + THIRD_MARK_PLACE, MFM_A1_MARK, MARK_CELLS) {
            return Some(place);
        }
        start = place + 1;
    }
    None
}

/// Whether the byte after the sync opens data, and they hold so many bytes. Then the buffer, which was empty, has them.
pub(crate) fn read_field(
    frame: &CellsFrom,
    sync: usize,
    size: u16,
    buffer: &mut SectorBuffer,
) -> bool
    requires near { sync < 2 ^ 31 }
    requires most { size ≤ MOST_SECTOR_BYTES }
    requires whole { sync + DATA_CELLS size ≤ length frame.now }
    requires empty { buffer.old.items ≡ [] }
    ensures good { IsTrue result → Hold size frame.now sync buffer.new.items }
    ensures bad { result ≡ false → (bytes : List ℕ) → ¬ Hold size frame.now sync bytes }
{
    if !opens_data(frame, sync) {
        return false;
    }
    let first = frame.byte_at(sync + FIRST_BYTE_PLACE);
    take_bytes(frame, sync + CONTENT_PLACE, size, buffer);
    field_check(first, buffer.as_slice()) == number_at(frame, sync + content_check_place(size))
}

/// Whether the byte after the sync opens data, and they hold so many bytes. These are kept nowhere.
pub(crate) fn has_field(frame: &CellsFrom, sync: usize, size: u16) -> bool
    requires near { sync < 2 ^ 31 }
    requires whole { sync + DATA_CELLS size ≤ length frame.now }
    ensures good { IsTrue result → (bytes : List ℕ) × Hold size frame.now sync bytes }
    ensures bad { result ≡ false → (bytes : List ℕ) → ¬ Hold size frame.now sync bytes }
{
    if !opens_data(frame, sync) {
        return false;
    }
    let check = number_at(frame, sync + content_check_place(size));
    content_check(frame, sync, size) == check
}

/// Whether the byte after the sync is one that opens data.
fn opens_data(frame: &CellsFrom, sync: usize) -> bool
    requires near { sync < 2 ^ 31 }
    requires whole { sync + 64 ≤ length frame.now }
    ensures yes { IsTrue result → OpensData (data_byte frame.now (sync + 48)) }
    ensures no { result ≡ false → ¬ OpensData (data_byte frame.now (sync + 48)) }
{
    let first = frame.byte_at(sync + FIRST_BYTE_PLACE);
    first == DATA_BYTE || first == DELETED_DATA_BYTE
}

/// The check value of data whose sync stands at the place: of the marks' bytes, of the byte after these,
/// and of so many bytes after it.
fn content_check(frame: &CellsFrom, sync: usize, size: u16) -> u16
    requires near { sync < 2 ^ 31 }
    requires whole { sync + DATA_CELLS size ≤ length frame.now }
    ensures { result ≡ check_of (data_byte frame.now (sync + 48)) (bytes_at frame.now (sync + 64) size) }
{
    let register = crc16(CHECK_START, &[frame.byte_at(sync + FIRST_BYTE_PLACE)]);
    check_of_bytes(frame, sync + CONTENT_PLACE, size, register)
}
