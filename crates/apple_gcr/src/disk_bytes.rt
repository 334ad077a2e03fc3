//! Disk bytes, read from the cells one after another.

ghost use Rattle.std.specs.Prelude.{◌≡◌, ℕ, ◌+◌, ◌^◌, ◌<◌, ◌≤◌, length, take, IfNone, IfSome, IsTrue};
ghost use Rattle.cell_bits.specs.Word.{word_cells};
ghost use Rattle.apple_gcr.specs.DiskBytes.{BeginAt, byte_place, bytes_end, zeros_first, zeros_passed};
ghost use Rattle.apple_nibbles.specs.Nibbles.{disk_byte};

use apple_nibbles::{BYTE_CELLS, disk_byte_at};
use frame_law::CellsFrom;

/// By which rule disk bytes are read from the cells.
#[derive(Clone, Copy, Debug, PartialEq, Eq)]
pub enum ByteRule {
    /// Each byte begins at the cell after the one before: for what is to be exact to the cell.
    Strict,
    /// As Apple's controller reads: each byte begins at the next one, and the zeros before it are passed over. DOS
    /// 3.3 and ProDOS write one zero more between the mark of a data field and its first nibble.
    Controller,
}

/// Where the byte begins that is read from the offset on.
pub(crate) fn byte_place(rule: ByteRule, frame: &CellsFrom, from: usize) -> usize
    requires near { from < 2 ^ 40 }
    requires within { from + 8 ≤ length frame.now }
    ensures place { result ≡ byte_place (zeros_passed rule) frame.now from }
    ensures near { result ≤ from + 7 }
{
    match rule {
        ByteRule::Strict => from,
        ByteRule::Controller => from + zeros_before_one(disk_byte_at(frame, from)),
    }
}

/// The byte that is read from the offset on, and where it begins. Nearly always it begins there, and is read once.
pub(crate) fn byte_from(rule: ByteRule, frame: &CellsFrom, from: usize) -> (usize, u8)
    requires near { from < 2 ^ 40 }
    requires whole { byte_place (zeros_passed rule) frame.now from + 8 ≤ length frame.now }
    requires within { from + 8 ≤ length frame.now }
    ensures place { result.0 ≡ byte_place (zeros_passed rule) frame.now from }
    ensures near { result.0 ≤ from + 7 }
    ensures byte { result.1 ≡ disk_byte frame.now result.0 }
{
    let first = disk_byte_at(frame, from);
    if zeros_before_one(first) == 0 {
        return (from, first);
    }
    let begin = byte_place(rule, frame, from);
    (begin, disk_byte_at(frame, begin))
}

/// How many zeros stand before the first one of a byte's first seven cells.
fn zeros_before_one(byte: u8) -> usize
    ensures zeros { result ≡ zeros_first (take 7 (word_cells 8 byte)) }
    ensures few { result ≤ 7 }
{
    byte.leading_zeros().min(MOST_ZEROS) as usize
}

/// Where `count` bytes end that are read from the offset on. None where they do not lie in the cells.
pub(crate) fn bytes_end(
    rule: ByteRule,
    frame: &CellsFrom,
    from: usize,
    count: usize,
) -> Option<usize>
    requires near { from < 2 ^ 32 }
    requires few { count < 2 ^ 32 }
    ensures some { IfSome result
        (λ end. (end ≡ bytes_end (zeros_passed rule) frame.now from count) × (end ≤ length frame.now)) }
    ensures none { IfNone result (length frame.now < bytes_end (zeros_passed rule) frame.now from count) }
{
    match rule {
        ByteRule::Strict => frame.end_within(from + BYTE_CELLS * count),
        ByteRule::Controller => controller_end(frame, from, count),
    }
}

/// The same by the controller's rule. Nearly always each byte begins right behind the one before, so four
/// of them are looked at at once.
fn controller_end(frame: &CellsFrom, from: usize, count: usize) -> Option<usize>
    requires near { from < 2 ^ 32 }
    requires few { count < 2 ^ 32 }
    ensures some { IfSome result (λ end. (end ≡ bytes_end 7 frame.now from count) × (end ≤ length frame.now)) }
    ensures none { IfNone result (length frame.now < bytes_end 7 frame.now from count) }
{
    let mut end = from;
    let mut left = count;
    while left > 0 {
        if left >= FOUR && four_begin(frame, end) {
            end += FOUR * BYTE_CELLS;
            left -= FOUR;
        } else {
            if frame.len() < end + BYTE_CELLS {
                return None;
            }
            end = byte_place(ByteRule::Controller, frame, end) + BYTE_CELLS;
            left -= 1;
        }
    }
    frame.end_within(end)
}

/// How many bytes have their cells in one word.
pub(crate) const FOUR: usize = 4;

/// Their cells.
pub(crate) const FOUR_CELLS: u8 = 32;

/// Whether four bytes, each of eight cells, lie in the cells from the offset on that begin with a one.
fn four_begin(frame: &CellsFrom, from: usize) -> bool
    requires near { from < 2 ^ 40 }
    ensures { IsTrue result → (from + 32 ≤ length frame.now) × BeginAt frame.now from 4 }
{
    if frame.len() < from + FOUR * BYTE_CELLS {
        return false;
    }
    frame.word_at(from, FOUR_CELLS) & FIRST_CELLS == FIRST_CELLS
}

/// The first cell of each of four bytes.
const FIRST_CELLS: u32 = 0x8080_8080;

/// The most zeros that an unbroken frame has in a row.
const MOST_ZEROS: u32 = 7;
