ghost use Rattle.std.specs.Prelude.{◌≡◌, ◌*◌, ◌^◌, ◌<◌, ◌≤◌, [], length, get_or, false, OnOk, IsOk};
ghost use Rattle.cell_bits.specs.State.{room};
ghost use Rattle.cell_bits.specs.inside.Window.{IsWindow, IsJoined};

mod copies;
mod places;
mod pushes;
mod reads;
mod search;

use self::places::KeptPlaces;
pub use self::pushes::longest_run;
use flux_base::Memory;
use std::alloc::Global;
use std::marker::Model;

/// The most whole words of a list, so that its length is below 2^63. No machine has memory for as many.
const MOST_WORDS: usize = 0x01FF_FFFF_FFFF_FFFF;

/// A list of bit cells, 64 a `u64`. Contracts see the cells in order of time, and beside them `spare`, the
/// number of further cells that can be appended without memory. No call lowers the sum of length and spare.
#[derive(Debug, Drop)]
pub struct Cells {
    /// The cells, high bit first, but for those after the last whole word.
    words: Vec<u64>,
    /// The cells after the last whole word, in the low bits, high bit first.
    last: u64,
    /// How many cells `last` holds, below 64.
    filled: u32,
    /// Places at which words stand among them.
    kept: KeptPlaces,
}

impl Model for Cells {
    ghost use Rattle.cell_bits.specs.State.{CellsState};

    ghost Value = { CellsState };

    ghost use Rattle.cell_bits.specs.inside.Packed.{packed, IsPacked};

    ghost view = { packed };

    ghost invariant = { IsPacked };
}

impl Cells {
    /// The empty list.
    pub fn new(alloc: Global) -> Cells
        ensures { result.cells ≡ [] }
    {
        Cells {
            words: Vec::new(alloc),
            last: 0,
            filled: 0,
            kept: KeptPlaces::new(alloc),
        }
    }

    /// Makes room for that many further cells, at most 134217728. It takes one bit a cell.
    pub fn reserve(&mut self, cells: usize) -> Result<(), Memory>
        requires { cells ≤ 134217728 }
        ensures cells { self.new.cells ≡ self.old.cells }
        ensures spare { OnOk result (cells ≤ self.new.spare) }
        ensures room { room self.old ≤ room self.new }
        ensures succeeds { cells ≤ self.old.spare → IsOk result }
    {
        let words = (self.filled as usize + cells) / 64;
        if words > MOST_WORDS - self.words.len() {
            return Err(Memory);
        }
        self.words.try_reserve_exact(words)?;
        Ok(())
    }

    /// Takes all cells off the list. The memory stays, as room for as many cells as before.
    pub fn clear(&mut self)
        ensures cells { self.new.cells ≡ [] }
        ensures spare { room self.old ≤ self.new.spare }
    {
        self.words.clear();
        self.last = 0;
        self.filled = 0;
        self.kept.forget();
    }

    /// The number of cells.
    pub fn len(&self) -> usize
        ensures length { result ≡ length self.now.cells }
        ensures bound { result < 2 ^ 63 }
    {
        64 * self.words.len() + self.filled as usize
    }

    /// The cell at a place below the length.
    pub fn cell(&self, place: usize) -> bool
        requires { place < length self.now.cells }
        ensures { result ≡ get_or self.now.cells place false }
    {
        (self.block(place / 64) >> (63 - place % 64)) & 1 == 1
    }

    /// The 64 cells from place 64 * `index` on, high bit first, with zeros past the list's end.
    fn block(&self, index: usize) -> u64
        ensures { IsWindow self.now.cells (64 * index) result }
    {
        match self.words.get(index) {
            Some(word) => *word,
            None if index == self.words.len() && self.filled > 0 => self.last << (64 - self.filled),
            None => 0,
        }
    }

    /// The 64 cells from a place on, high bit first, with zeros past the list's end.
    fn window(&self, place: usize) -> u64
        ensures { IsWindow self.now.cells place result }
    {
        let index = place / 64;
        let shift = (place % 64) as u32;
        // Nearly always both words are whole, which one look tells.
        if index + 1 < self.words.len() {
            return joined(self.words[index], self.words[index + 1], shift);
        }
        joined(self.block(index), self.block(index + 1), shift)
    }
}

/// The 64 cells of two blocks, one after the other, from a place of the first on.
fn joined(high: u64, low: u64, shift: u32) -> u64
    requires { shift < 64 }
    ensures { IsJoined high low shift result }
{
    if shift == 0 {
        high
    } else {
        (high << shift) | (low >> (64 - shift))
    }
}
