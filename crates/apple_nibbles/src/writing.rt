ghost use Rattle.std.specs.Prelude.{ℕ, ◌≤◌};
ghost use Rattle.frame_law.specs.Writing.{AppendsCells};
ghost use Rattle.cell_bits.specs.Word.{word_cells};
ghost use Rattle.apple_nibbles.specs.Marks.{self_syncs};

use crate::{BYTE_CELLS, MARK_CELLS};
use cell_bits::Cells;
use flux_base::Memory;

/// A byte FF and two zeros, by their cells: whatever the cell at which a reader begins, after some of them it
/// reads bytes where they begin.
const SELF_SYNC: u32 = 0x3FC;

const SELF_SYNC_CELLS: u8 = 10;

/// Appends so many self-syncs, ten cells each.
pub fn push_self_syncs(cells: &mut Cells, count: u16) -> Result<(), Memory>
    ensures { AppendsCells cells.old cells.new (self_syncs count) result }
{
    for _ in 0..count {
        push_cells(cells, SELF_SYNC, SELF_SYNC_CELLS)?;
    }
    Ok(())
}

/// Appends the three bytes of a mark.
pub fn push_mark(cells: &mut Cells, mark: u32) -> Result<(), Memory>
    ensures { AppendsCells cells.old cells.new (word_cells 24 mark) result }
{
    push_cells(cells, mark, MARK_CELLS)
}

/// Appends a byte, high bit first.
pub fn push_byte(cells: &mut Cells, byte: u8) -> Result<(), Memory>
    ensures { AppendsCells cells.old cells.new (word_cells 8 byte) result }
{
    push_cells(cells, byte as u32, BYTE_CELLS as u8)
}

/// Appends a word of so many cells, 1 to 32.
fn push_cells(cells: &mut Cells, word: u32, count: u8) -> Result<(), Memory>
    requires some { 1 ≤ count }
    requires most { count ≤ 32 }
    ensures { AppendsCells cells.old cells.new (word_cells count word) result }
{
    cells.push_word(word, count)
}
