ghost use Rattle.std.specs.Prelude.{◌≡◌, ℕ, ◌+◌, ◌^◌, ◌<◌, ◌≤◌, [], List, false, length, IfNone, IfSome, IsTrue, ◌↔◌};
ghost use Rattle.cell_bits.specs.Bytes.{data_byte};
ghost use Rattle.cell_bits.specs.Search.{StandsNowhere};
ghost use Rattle.flux_base.specs.Bounds.{MOST_SECTOR_BYTES};
ghost use Rattle.frame_law.specs.Frames.{IsFirstSync, NoSync};
ghost use Rattle.ibm_fields.specs.Fields.{bytes_at};
ghost use Rattle.ibm_fm.specs.Sectors.{DATA_CELLS, DataMarkAt, Hold, IsSync, MarkAt, check_of};

use crate::layout::{CONTENT_PLACE, MARK_CELLS, content_check_place};
use crate::rows::field_check;
use cell_bits::{FM_DATA_MARK, FM_DELETED_DATA_MARK, FM_ID_MARK, FM_INDEX_MARK};
use check_values::crc16;
use frame_law::{CellsFrom, SectorBuffer};
use ibm_fields::{CHECK_START, check_of_bytes, number_at, take_bytes};

/// The first mark at a place from `from` to below `to`.
pub(crate) fn next_sync(frame: &CellsFrom, from: usize, to: usize) -> Option<usize>
    requires order { from ≤ to }
    requires near { to < 2 ^ 32 }
    ensures first { IfSome result (λ sync. IsFirstSync (IsSync frame.now) from to sync) }
    ensures none { IfNone result (NoSync (IsSync frame.now) from to) }
{
    let sync = first_data_mark(frame, from, to);
    let sync = first_mark(frame, from, sync, FM_ID_MARK);
    let sync = first_mark(frame, from, sync, FM_INDEX_MARK);
    if sync == to {
        return None;
    }
    Some(sync)
}

/// The least place from `from` to below `end` at which a mark stands that opens data, or `end` where there is none.
/// What both of them begin with is sought, which no ordinary bytes have.
fn first_data_mark(frame: &CellsFrom, from: usize, end: usize) -> usize
    requires order { from ≤ end }
    requires near { end < 2 ^ 32 }
    ensures behind { from ≤ result }
    ensures before { result ≤ end }
    ensures stands { result < end → DataMarkAt frame.now result }
    ensures first { (place : ℕ) → from ≤ place → place < result → ¬ DataMarkAt frame.now place }
{
    let mut start = from;
    while let Some(place) = frame.find_word(start, end, DATA_MARKS, DATA_MARKS_CELLS) {
        if opens_data(frame, place) {
            return place;
        }
        start = place + 1;
    }
    end
}

/// The first cells of both marks that open data.
const DATA_MARKS: u32 = 0xF56;

const DATA_MARKS_CELLS: u8 = 12;

/// The least place from `from` to below `end` at which the mark stands, or `end` where there is none.
fn first_mark(frame: &CellsFrom, from: usize, end: usize, mark: u32) -> usize
    requires order { from ≤ end }
    requires near { end < 2 ^ 32 }
    ensures behind { from ≤ result }
    ensures before { result ≤ end }
    ensures stands { result < end → MarkAt frame.now mark result }
    ensures first { StandsNowhere frame.now mark 16 from result }
{
    frame.find_word(from, end, mark, MARK_CELLS).unwrap_or(end)
}

/// Whether the mark at the place opens data, and they hold so many bytes. Then the buffer, which was empty, has them.
pub(crate) fn read_field(
    frame: &CellsFrom,
    sync: usize,
    size: u16,
    buffer: &mut SectorBuffer,
) -> bool
    requires near { sync < 2 ^ 31 }
    requires most { size ≤ MOST_SECTOR_BYTES }
    requires whole { sync + DATA_CELLS size ≤ length frame.now }
    requires empty { buffer.old.items ≡ [] }
    ensures good { IsTrue result → Hold size frame.now sync buffer.new.items }
    ensures bad { result ≡ false → (bytes : List ℕ) → ¬ Hold size frame.now sync bytes }
{
    if !opens_data(frame, sync) {
        return false;
    }
    let mark = frame.byte_at(sync);
    take_bytes(frame, sync + CONTENT_PLACE, size, buffer);
    let check = number_at(frame, sync + content_check_place(size));
    field_check(mark, buffer.as_slice()) == check
}

/// Whether the mark at the place opens data, and they hold so many bytes. These are kept nowhere.
pub(crate) fn has_field(frame: &CellsFrom, sync: usize, size: u16) -> bool
    requires near { sync < 2 ^ 31 }
    requires whole { sync + DATA_CELLS size ≤ length frame.now }
    ensures good { IsTrue result → (bytes : List ℕ) × Hold size frame.now sync bytes }
    ensures bad { result ≡ false → (bytes : List ℕ) → ¬ Hold size frame.now sync bytes }
{
    if !opens_data(frame, sync) {
        return false;
    }
    let check = number_at(frame, sync + content_check_place(size));
    content_check(frame, sync, size) == check
}

/// The check value of data whose mark stands at the place: of its byte, and of so many bytes after it.
fn content_check(frame: &CellsFrom, sync: usize, size: u16) -> u16
    requires near { sync < 2 ^ 31 }
    requires whole { sync + DATA_CELLS size ≤ length frame.now }
    ensures { result ≡ check_of (data_byte frame.now sync) (bytes_at frame.now (sync + 16) size) }
{
    let register = crc16(CHECK_START, &[frame.byte_at(sync)]);
    check_of_bytes(frame, sync + CONTENT_PLACE, size, register)
}

/// Whether a mark that opens data stands at the place.
fn opens_data(frame: &CellsFrom, sync: usize) -> bool
    requires { sync < 2 ^ 32 }
    ensures { IsTrue result ↔ DataMarkAt frame.now sync }
{
    frame.stands_at(sync, FM_DATA_MARK, MARK_CELLS)
        || frame.stands_at(sync, FM_DELETED_DATA_MARK, MARK_CELLS)
}
