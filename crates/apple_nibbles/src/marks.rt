ghost use Rattle.std.specs.Prelude.{ℕ, ◌^◌, ◌<◌, ◌≤◌, IfNone, IfSome};
ghost use Rattle.frame_law.specs.Frames.{IsFirstSync, NoSync};
ghost use Rattle.apple_nibbles.specs.Marks.{IsSync};

use frame_law::{CellsFrom, Coding};

/// The cells of a byte.
pub const BYTE_CELLS: usize = 8;

/// D5 AA 96, which opens an address field.
pub const ADDRESS_MARK: u32 = 0xD5_AA96;

/// D5 AA AD, which opens a data field.
pub const DATA_MARK: u32 = 0xD5_AAAD;

/// A mark is a word of so many cells.
pub const MARK_CELLS: u8 = 24;

/// Bytes of which each has its high bit and no two zeros after one another; headers begin with their mark.
pub const CODING: Coding = Coding {
    shortest: 1,
    longest: 3,
    sync: ADDRESS_MARK,
    sync_cells: MARK_CELLS,
};

/// The third byte of the mark of a data field.
pub const DATA_BYTE: u8 = 0xAD;

/// Where it is read from, in cells from the data sync.
pub const DATA_BYTE_PLACE: usize = 16;

/// D5 AA, with which the mark of a data field begins.
const DATA_SYNC: u32 = 0xD5AA;

const DATA_SYNC_CELLS: u8 = 16;

/// The first data sync at a place from `from` to below `to`.
pub fn next_sync(frame: &CellsFrom, from: usize, to: usize) -> Option<usize>
    requires order { from ≤ to }
    requires near { to < 2 ^ 32 }
    ensures first { IfSome result (λ sync. IsFirstSync (IsSync frame.now) from to sync) }
    ensures none { IfNone result (NoSync (IsSync frame.now) from to) }
{
    frame.find_word(from, to, DATA_SYNC, DATA_SYNC_CELLS)
}
