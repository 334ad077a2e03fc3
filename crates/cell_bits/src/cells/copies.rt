ghost use Rattle.std.specs.Prelude.{◌≡◌, ◌≤◌, ◌++◌, drop, length, OnOk, IsOk};
ghost use Rattle.cell_bits.specs.State.{room};

use super::Cells;
use flux_base::Memory;

/// How many cells are copied together.
const WORD: usize = 32;

impl Cells {
    /// Appends the cells of another list from a place on. Memory leaves some of them at the list's end.
    pub fn append_from(&mut self, other: &Cells, from: usize) -> Result<(), Memory>
        requires { from ≤ length other.now.cells }
        ensures cells { OnOk result (self.new.cells ≡ self.old.cells ++ drop from other.now.cells) }
        ensures room { room self.old ≤ room self.new }
        ensures succeeds { length (drop from other.now.cells) ≤ self.old.spare → IsOk result }
    {
        let end = other.len();
        let mut place = from;
        while place < end {
            let count = WORD.min(end - place) as u8;
            self.push_word(other.word_at(place, count), count)?;
            place += count as usize;
        }
        Ok(())
    }
}
