ghost use Rattle.std.specs.Prelude.{◌≡◌, ℕ, ◌∷◌, [], replicate};
ghost use Rattle.mfm_coding.specs.Coding.{bytes_as_data};
ghost use Rattle.mfm_coding.specs.Writes.{AppendsSymbols};

use crate::Symbol;
use cell_bits::{Cells, MFM_A1_MARK, MFM_C2_MARK};
use flux_base::Memory;

/// A mark is a word of so many cells.
const MARK_CELLS: u8 = 16;

/// Appends the symbol. `Memory` cannot come where there was room for its cells.
pub fn push_symbol(cells: &mut Cells, symbol: Symbol) -> Result<(), Memory>
    ensures { AppendsSymbols cells.old cells.new (symbol ∷ []) result }
{
    match symbol {
        Symbol::Data(byte) => cells.push_mfm(byte),
        Symbol::SyncMark => cells.push_word(MFM_A1_MARK, MARK_CELLS),
        Symbol::IndexMark => cells.push_word(MFM_C2_MARK, MARK_CELLS),
    }
}

/// Appends the symbol so many times. `Memory` cannot come where there was room for all its cells.
pub fn push_run(cells: &mut Cells, count: u16, symbol: Symbol) -> Result<(), Memory>
    ensures { AppendsSymbols cells.old cells.new (replicate count symbol) result }
{
    for _ in 0..count {
        push_symbol(cells, symbol)?;
    }
    Ok(())
}

/// Appends the bytes. `Memory` cannot come where there was room for all their cells.
pub fn push_bytes(cells: &mut Cells, bytes: &[u8]) -> Result<(), Memory>
    ensures { AppendsSymbols cells.old cells.new (bytes_as_data bytes.now) result }
{
    for byte in bytes {
        push_symbol(cells, Symbol::Data(*byte))?;
    }
    Ok(())
}
