ghost use Rattle.std.specs.Prelude.{◌≡◌, ℕ, ◌+◌, ◌-◌, ◌<◌, ◌≤◌, length, ◌↔◌, slice_index, true, IsTrue};
ghost use Rattle.cell_bits.specs.Search.{IsFirstWord, IsFirstOne};
ghost use Rattle.cell_bits.specs.Word.{digit};
ghost use Rattle.cell_bits.specs.inside.Window.{AreCandidates, AreCellsOf, BeginsWithOnes, FoursHaveOnes, OnesStandAt};
ghost use Rattle.cell_bits.specs.inside.Window.{StandAt, cell_of_two};
ghost use Rattle.cell_bits.specs.Broken.{Unbroken};

use super::places::Known;
use super::{Cells, joined};

impl Cells {
    /// The least place, at least `from` and below `to`, where the low `count` bits of the word stand whole,
    /// high bit first, for a count of 1 to 32. None where there is none. The bits above are not looked at, and
    /// `from` and `to` may lie past the list's end. Places that are kept are not sought again.
    pub fn find_word(&self, from: usize, to: usize, word: u32, count: u8) -> Option<usize>
        requires some { 1 ≤ count }
        requires most { count ≤ 32 }
        ensures { IsFirstWord self.now.cells word count from to result }
    {
        match self.kept.first(from, word, count) {
            Known::At(place) if place < to => Some(place),
            Known::At(_) => None,
            Known::NowhereBelow(sought) => self.seek_word(from.max(sought), to, word, count),
        }
    }

    /// The same by a look at all cells.
    pub(crate) fn seek_word(&self, from: usize, to: usize, word: u32, count: u8) -> Option<usize>
        requires some { 1 ≤ count }
        requires most { count ≤ 32 }
        ensures { IsFirstWord self.now.cells word count from to result }
    {
        let length = self.len();
        if length < count as usize {
            return None;
        }
        let end = to.min(length - count as usize + 1);
        let rarer = Rarer::of(word, count, end.saturating_sub(from));
        let mut place = from;
        let mut here = self.window(from);
        while place < end {
            let next = self.window(place + 64);
            let places = places_of(here, next, word, count, &rarer);
            if places != 0 {
                let first = place + places.leading_zeros() as usize;
                return if first < end { Some(first) } else { None };
            }
            here = next;
            place += 64;
        }
        None
    }

    /// The least place, at least `from` and below `to`, whose cell is a one. None where there is none. `from` and
    /// `to` may lie past the list's end.
    #[inline]
    pub fn find_one(&self, from: usize, to: usize) -> Option<usize>
        ensures { IsFirstOne self.now.cells from to result }
    {
        let end = to.min(self.len());
        let mut place = from;
        while place < end {
            let ahead = self.block(place / 64) << (place % 64);
            if ahead != 0 {
                let one = place + ahead.leading_zeros() as usize;
                return if one < end { Some(one) } else { None };
            }
            place += 64 - place % 64;
        }
        None
    }

    /// Whether no eight zeros in a row lie at places from `from` to below `to`, for `from` <= `to` <= length. Where a
    /// track is recorded, a look at each word tells.
    pub fn unbroken(&self, from: usize, to: usize) -> bool
        requires order { from ≤ to }
        requires within { to ≤ length self.now.cells }
        ensures { IsTrue result ↔ Unbroken self.now.cells from to }
    {
        if to - from < 8 {
            return true;
        }
        if self.is_dense(from, to) {
            return true;
        }
        self.seek_word(from, to - 7, 0, 8).is_none()
    }

    /// Whether each word that has cells at these places has a one among each four cells. Eight zeros in a row have such
    /// four among them.
    fn is_dense(&self, from: usize, to: usize) -> bool
        requires { to ≤ length self.now.cells }
        ensures { IsTrue result → Unbroken self.now.cells from to }
    {
        for index in from / 64..to / 64 + 1 {
            if !fours_have_ones(self.block(index)) {
                return false;
            }
        }
        true
    }
}

/// The lowest bit of each four.
const LOWEST_OF_FOUR: u64 = 0x1111_1111_1111_1111;

/// Whether none of a block's 16 times four cells are zeros alone.
fn fours_have_ones(block: u64) -> bool
    ensures { IsTrue result → FoursHaveOnes block }
{
    let pairs = block | block >> 1;
    let fours = pairs | pairs >> 2;
    fours & LOWEST_OF_FOUR == LOWEST_OF_FOUR
}

/// Fewer rare cells of a word than these leave some place nearly always, so that a look at them does not pay.
const FEW: u32 = 3;

/// Nor does it where fewer places are looked at, since the cells have to be gathered first.
const SHORT: usize = 128;

/// The cells of a word that it has fewer of, ones or zeros. Recorded cells have fewer of these too, as a rule, so that
/// hardly a place is left where some of them stand.
#[derive(Clone, Copy, Debug, PartialEq, Eq)]
pub struct Rarer {
    /// Whether they are ones.
    pub one: bool,
    /// How far they lie behind the first cell.
    pub offsets: [u8; 32],
    /// How many they are.
    pub many: usize,
    /// Whether the word begins with eight ones, as a sync of group codes does. Recorded cells seldom have so many in a
    /// row.
    pub eight_ones: bool,
}

impl Rarer {
    /// Those of the low `count` bits of a word, 1 to 32, high bit first, for a search at so many places. None
    /// of them where they do not pay.
    fn of(word: u32, count: u8, places: usize) -> Rarer
        requires some { 1 ≤ count }
        requires most { count ≤ 32 }
        ensures many { result.many ≤ 32 }
        ensures cells { AreCellsOf word count result.offsets result.many result.one }
        ensures eight { IsTrue result.eight_ones → BeginsWithOnes word count }
    {
        let eight_ones = begins_with_ones(word, count);
        let above = 32 - count as u32;
        let ones = (word << above).count_ones();
        let zeros = (!word << above).count_ones();
        let one = ones <= zeros;
        let mut offsets = [0; 32];
        let mut many = 0;
        if ones < FEW || zeros < FEW || places < SHORT {
            return Rarer {
                one,
                offsets,
                many,
                eight_ones,
            };
        }
        // From the high bit on: ones for the cells that are not gathered yet.
        let mut left = equal_cells((word as u64) << (64 - count as u32), one);
        for _ in 0..count {
            let offset = left.leading_zeros() as u8;
            if offset >= count {
                break;
            }
            offsets[many] = offset;
            many += 1;
            left &= u64::MAX >> (offset as u32 + 1);
        }
        Rarer {
            one,
            offsets,
            many,
            eight_ones,
        }
    }

    /// Whether they stand from no place of the first of two blocks on.
    fn stand_nowhere(&self, high: u64, low: u64) -> bool
        requires many { self.now.many ≤ 32 }
        requires near { (index : ℕ) → index < self.now.many → slice_index self.now.offsets index < 64 }
        ensures { IsTrue result → (k : ℕ) → k < 64 → ¬ StandAt high low self.now.offsets self.now.many self.now.one k }
    {
        let mut places = u64::MAX;
        for index in 0..self.many {
            let cells = joined(high, low, self.offsets[index] as u32);
            places &= equal_cells(cells, self.one);
            if places == 0 {
                return true;
            }
        }
        false
    }
}

/// Whether the low `count` bits of a word, 1 to 32, begin with eight ones.
fn begins_with_ones(word: u32, count: u8) -> bool
    requires most { count ≤ 32 }
    ensures { IsTrue result → BeginsWithOnes word count }
{
    if count < 8 {
        return false;
    }
    for offset in 0..8 {
        if (word >> (count as u32 - 1 - offset)) & 1 == 0 {
            return false;
        }
    }
    true
}

/// Whether eight ones in a row stand from no place of the first of two blocks on: with each step ones are left where
/// twice as many stand.
fn eight_ones_stand_nowhere(high: u64, low: u64) -> bool
    ensures { IsTrue result → (k : ℕ) → k < 64 → ¬ OnesStandAt high low 8 k }
{
    let (pairs, low_pairs) = ones_apart(high, low, 1);
    let (fours, low_fours) = ones_apart(pairs, low_pairs, 2);
    let (eights, _) = ones_apart(fours, low_fours, 4);
    eights == 0
}

/// Two blocks, with a one at each place where these have one, and another so far behind it.
fn ones_apart(high: u64, low: u64, apart: u32) -> (u64, u64)
    requires { apart < 64 }
    ensures { (j : ℕ) → j + apart < 128 → cell_of_two high low j ≡ true → cell_of_two high low (j + apart) ≡ true
        → cell_of_two result.0 result.1 j ≡ true }
{
    (high & joined(high, low, apart), low & (low << apart))
}

/// The places of the first of two blocks from which the low `count` bits of the word stand, 1 to 32, high bit first: a
/// bit each, high bit first. The rarer cells of the word tell nearly always that there are none.
fn places_of(high: u64, low: u64, word: u32, count: u8, rarer: &Rarer) -> u64
    requires some { 1 ≤ count }
    requires most { count ≤ 32 }
    requires many { rarer.now.many ≤ 32 }
    requires cells { AreCellsOf word count rarer.now.offsets rarer.now.many rarer.now.one }
    requires eight { IsTrue rarer.now.eight_ones → BeginsWithOnes word count }
    ensures { AreCandidates high low word count count result }
{
    if rarer.stand_nowhere(high, low) {
        return 0;
    }
    if rarer.eight_ones && eight_ones_stand_nowhere(high, low) {
        return 0;
    }
    candidates(high, low, word, count)
}

/// The places of the first of two blocks from which the low `count` bits of the word stand, 1 to 32, high bit
/// first: a bit each, high bit first. All 64 places are looked at at once, a cell of the word at a time.
fn candidates(high: u64, low: u64, word: u32, count: u8) -> u64
    requires some { 1 ≤ count }
    requires most { count ≤ 32 }
    ensures { AreCandidates high low word count count result }
{
    let mut places = u64::MAX;
    let mut cells = high;
    let mut behind = low;
    for offset in 0..count as u32 {
        let one = (word >> (count as u32 - 1 - offset)) & 1 == 1;
        places &= equal_cells(cells, one);
        if places == 0 {
            return 0;
        }
        cells = joined(cells, behind, 1);
        behind <<= 1;
    }
    places
}

/// The places at which a block's cells are ones, or those at which they are zeros.
fn equal_cells(cells: u64, one: bool) -> u64
    ensures { (k : ℕ) → k < 64 → (digit result (63 - k) ≡ true) ↔ (digit cells (63 - k) ≡ one) }
{
    if one { cells } else { !cells }
}
