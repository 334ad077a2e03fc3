ghost use Rattle.std.specs.Prelude.{◌≡◌, ℕ, ◌+◌, ◌*◌, ◌^◌, ◌<◌, ◌≤◌, List, [], ◌∷◌, Bool, length, drop, IfNone, IfSome};
ghost use Rattle.std.specs.Prelude.{IsTrue, ◌↔◌};
ghost use Rattle.cell_bits.specs.Broken.{Unbroken};
ghost use Rattle.cell_bits.specs.Bytes.{data_byte};
ghost use Rattle.cell_bits.specs.Search.{IsFirstWord};
ghost use Rattle.cell_bits.specs.Word.{Stands, word};

use cell_bits::Cells;
use std::marker::Model;

/// The cells of a list from one place on, seen by contracts as that list: what stands at the place is read
/// from here. An offset is a number of cells after the place.
#[derive(Drop)]
pub struct CellsFrom<'a> {
    cells: &'a Cells,
    /// At most the list's length.
    place: usize,
}

impl<'a> Model for CellsFrom<'a> {
    ghost use Rattle.std.specs.Prelude.{ℕ, ◌^◌, ◌<◌, ◌≤◌, List, Bool, length, drop};

    ghost Value = { List Bool };

    ghost view = { λ a. drop a.place a.cells.now.cells };

    ghost invariant = { λ a. (a.place ≤ length a.cells.now.cells) × (length a.cells.now.cells < 2 ^ 63) };
}

impl<'a> CellsFrom<'a> {
    /// The cells from `place` on, which are none where the list ends before it.
    pub fn new(cells: &'a Cells, place: usize) -> Self
        ensures { result ≡ drop place cells.now.cells }
    {
        let place = place.min(cells.len());
        CellsFrom { cells, place }
    }

    /// How many cells there are.
    pub fn len(&self) -> usize
        ensures { result ≡ length self.now }
    {
        self.cells.len() - self.place
    }

    /// The offset, which is None where the cells end before it.
    pub fn end_within(&self, offset: usize) -> Option<usize>
        ensures some { IfSome result (λ end. (end ≡ offset) × (end ≤ length self.now)) }
        ensures none { IfNone result (length self.now < offset) }
    {
        if self.len() < offset {
            return None;
        }
        Some(offset)
    }

    /// Whether the low `count` bits of the word, 1 to 32, stand whole at the offset, high bit first.
    pub fn stands_at(&self, offset: usize, word: u32, count: u8) -> bool
        requires some { 1 ≤ count }
        requires most { count ≤ 32 }
        requires near { offset < 2 ^ 32 }
        ensures { IsTrue result ↔ Stands self.now word count offset }
    {
        self.find_word(offset, offset + 1, word, count).is_some()
    }

    /// The least offset, at least `from` and below `to`, at which the low `count` bits of the word, 1 to 32,
    /// stand whole. None where there is none.
    pub fn find_word(&self, from: usize, to: usize, word: u32, count: u8) -> Option<usize>
        requires some { 1 ≤ count }
        requires most { count ≤ 32 }
        requires order { from ≤ to }
        requires near { to ≤ 2 ^ 32 }
        ensures { IsFirstWord self.now word count from to result }
    {
        let place = self
            .cells
            .find_word(self.place + from, self.place + to, word, count)?;
        Some(place - self.place)
    }

    /// The `count` cells at the offset, 1 to 32, which lie in the list, as a number, high bit first.
    pub fn word_at(&self, offset: usize, count: u8) -> u32
        requires some { 1 ≤ count }
        requires most { count ≤ 32 }
        requires within { offset + count ≤ length self.now }
        ensures { result ≡ word self.now offset count }
    {
        self.cells.word_at(self.place + offset, count)
    }

    /// The byte in the data cells of the 16 cells at the offset, which lie in the list.
    pub fn byte_at(&self, offset: usize) -> u8
        requires { offset + 16 ≤ length self.now }
        ensures { result ≡ data_byte self.now offset }
    {
        self.cells.data_byte_at(self.place + offset)
    }

    /// The four bytes in the data cells of the 64 cells at the offset, which lie in the list.
    pub fn bytes_at(&self, offset: usize) -> [u8; 4]
        requires { offset + 64 ≤ length self.now }
        ensures { result ≡ data_byte self.now offset ∷ data_byte self.now (offset + 16)
            ∷ data_byte self.now (offset + 32) ∷ data_byte self.now (offset + 48) ∷ [] }
    {
        self.cells.data_bytes_at(self.place + offset)
    }

    /// The cells from the offset on.
    pub fn behind(&self, offset: usize) -> CellsFrom<'a>
        requires { offset < 2 ^ 32 }
        ensures { result ≡ drop offset self.now }
    {
        CellsFrom::new(self.cells, self.place + offset)
    }

    /// Whether no eight zeros in a row lie between the offsets, the second of which lies in the list.
    pub fn unbroken_between(&self, from: usize, to: usize) -> bool
        requires order { from ≤ to }
        requires within { to ≤ length self.now }
        ensures { IsTrue result ↔ Unbroken self.now from to }
    {
        self.cells.unbroken(self.place + from, self.place + to)
    }

    /// Whether no eight zeros in a row lie in the first `count` cells, which lie in the list.
    pub fn unbroken_to(&self, count: usize) -> bool
        requires { count ≤ length self.now }
        ensures { IsTrue result ↔ Unbroken self.now 0 count }
    {
        self.cells.unbroken(self.place, self.place + count)
    }
}
