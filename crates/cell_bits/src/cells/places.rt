//! Places at which words stand in a list of cells, kept so that each word is sought once.

ghost use Rattle.std.specs.Prelude.{◌≡◌, ◌≤◌, ◌<◌, ◌^◌, ℕ, List, Bool, Some, get_or, length, IfOk, IfSome};
ghost use Rattle.std.specs.List.Sorted.{IsNonDecreasing};
ghost use Rattle.std.specs.Vec.{vec_capacity};
ghost use Rattle.cell_bits.specs.Search.{IsFirstWord};
ghost use Rattle.cell_bits.specs.inside.Kept.{AreKept, ArePlaces, IsRoomy, Tells};
ghost use Rattle.cell_bits.specs.declared.cells.places.WordPlaces.{WordPlaces as Places};

use super::Cells;
use flux_base::Memory;
use std::alloc::Global;

/// The most places of a word that are kept: those of the headers and data of six revolutions of a track are fewer.
const MOST_PLACES: usize = 1024;

/// The places at which the low `count` bits of a word stand, high bit first.
#[derive(Debug, Drop)]
pub struct WordPlaces {
    pub word: u32,
    pub count: u8,
    /// All places below this one are kept.
    pub sought: usize,
    /// They rise.
    pub places: Vec<usize>,
}

/// The places of several words.
#[derive(Debug, Drop)]
pub struct KeptPlaces {
    pub words: Vec<WordPlaces>,
    /// So many of the first are kept, the others are free.
    pub used: usize,
}

/// What is kept of where a word stands from a place on.
#[derive(Clone, Copy, Debug)]
pub enum Known {
    /// It stands there first.
    At(usize),
    /// It stands at none of the places below this one.
    NowhereBelow(usize),
}

impl Cells {
    /// Makes room to keep the places of so many words in place of those before. It takes 8 KiB a word.
    pub fn reserve_places(&mut self, alloc: Global, words: usize) -> Result<(), Memory>
        ensures cells { self.new ≡ self.old }
    {
        self.kept = KeptPlaces::reserve(alloc, words)?;
        Ok(())
    }

    /// Keeps the first 1024 places at which the low `count` bits of a word stand, for a count of 1 to 32, where there
    /// is room for one word more: until the cells are taken off the list, `find_word` steps from one to the next.
    pub fn keep_places(&mut self, word: u32, count: u8)
        requires some { 1 ≤ count }
        requires most { count ≤ 32 }
        ensures { self.new ≡ self.old }
    {
        if !self.kept.begin(word, count) {
            return;
        }
        for _place in 0..MOST_PLACES {
            if !self.keep_next() {
                return;
            }
        }
    }

    /// Keeps the next place of the word whose places are kept last. False where none is left, or no room.
    fn keep_next(&mut self) -> bool
        ensures { self.new ≡ self.old }
    {
        let Some(last) = self.kept.used.checked_sub(1) else {
            return false;
        };
        let end = self.len();
        let known = &self.kept.words[last];
        let found = self.seek_word(known.sought, end, known.word, known.count);
        self.kept.note(last, found, end)
    }
}

impl KeptPlaces {
    /// No room for any.
    pub fn new(alloc: Global) -> KeptPlaces
        ensures { (cells : List Bool) → AreKept cells result }
    {
        KeptPlaces {
            words: Vec::new(alloc),
            used: 0,
        }
    }

    /// Room for so many words, of which none is kept.
    fn reserve(alloc: Global, words: usize) -> Result<KeptPlaces, Memory>
        ensures { IfOk result (λ kept. (cells : List Bool) → AreKept cells kept) }
    {
        let mut lists = Vec::with_capacity(alloc, words)?;
        for _word in 0..words {
            lists.push_reserved(WordPlaces::reserve(alloc)?);
        }
        Ok(KeptPlaces {
            words: lists,
            used: 0,
        })
    }

    /// Forgets all: the cells are others.
    pub fn forget(&mut self)
        ensures { (before cells : List Bool) → AreKept before self.old → AreKept cells self.new }
    {
        self.used = 0;
    }

    /// What is kept of where a word stands from a place on.
    pub fn first(&self, from: usize, word: u32, count: u8) -> Known
        requires kept { (cells : List Bool) × AreKept cells self.now }
        ensures tells { (cells : List Bool) → AreKept cells self.now → Tells cells word count from result }
    {
        match self.index_of(word, count) {
            Some(index) => self.words[index].first(from),
            None => Known::NowhereBelow(0),
        }
    }

    /// Begins to keep the places of a word. False where they are kept already, or there is no room.
    fn begin(&mut self, word: u32, count: u8) -> bool
        requires some { 1 ≤ count }
        requires most { count ≤ 32 }
        requires few { self.old.used ≤ length self.old.words.items }
        ensures kept { (cells : List Bool) → AreKept cells self.old → AreKept cells self.new }
    {
        if self.used >= self.words.len() || self.index_of(word, count).is_some() {
            return false;
        }
        self.words[self.used].restart(word, count);
        self.used += 1;
        true
    }

    /// Keeps what a search for one of the words found behind its places in cells that end there. False where nothing
    /// more is kept of it.
    fn note(&mut self, index: usize, found: Option<usize>, end: usize) -> bool
        requires used { index < self.old.used }
        requires kept { (cells : List Bool) × AreKept cells self.old }
        requires end { end < 2 ^ 63 }
        requires found { IfSome found (λ place. place < end) }
        ensures kept { (cells : List Bool) (d : Places) → AreKept cells self.old → end ≡ length cells
            → IsFirstWord cells (get_or self.old.words.items index d).word (get_or self.old.words.items index d).count
            (get_or self.old.words.items index d).sought end found
            → AreKept cells self.new }
    {
        self.words[index].note(found, end)
    }

    /// Where the places of a word are, if they are kept.
    fn index_of(&self, word: u32, count: u8) -> Option<usize>
        requires { self.now.used ≤ length self.now.words.items }
        ensures { IfSome result (λ index. (index < self.now.used)
            × ((d : Places) → ((get_or self.now.words.items index d).word ≡ word)
            × ((get_or self.now.words.items index d).count ≡ count))) }
    {
        for index in 0..self.used {
            if self.words[index].word == word && self.words[index].count == count {
                return Some(index);
            }
        }
        None
    }
}

impl WordPlaces {
    /// Takes the memory for those of one word.
    fn reserve(alloc: Global) -> Result<WordPlaces, Memory>
        ensures { IfOk result IsRoomy }
    {
        Ok(WordPlaces {
            word: 0,
            count: 0,
            sought: 0,
            places: Vec::with_capacity(alloc, MOST_PLACES)?,
        })
    }

    /// Forgets all, and is for this word.
    fn restart(&mut self, word: u32, count: u8)
        requires some { 1 ≤ count }
        requires most { count ≤ 32 }
        ensures none { (cells : List Bool) → ArePlaces cells self.new }
        ensures room { vec_capacity self.new.places ≡ vec_capacity self.old.places }
    {
        self.word = word;
        self.count = count;
        self.sought = 0;
        self.places.clear();
    }

    /// What is kept of where the word stands from a place on.
    fn first(&self, from: usize) -> Known
        requires { IsNonDecreasing self.now.places.items }
        ensures { (cells : List Bool) → ArePlaces cells self.now
            → Tells cells self.now.word self.now.count from result }
    {
        let index = self.count_before(from);
        match self.places.get(index) {
            Some(place) => Known::At(*place),
            None => Known::NowhereBelow(self.sought),
        }
    }

    /// How many of the places lie before one.
    fn count_before(&self, from: usize) -> usize
        requires { IsNonDecreasing self.now.places.items }
        ensures before { (k : ℕ) → k < result → get_or self.now.places.items k 0 < from }
        ensures behind { (k : ℕ) → result ≤ k → k < length self.now.places.items
            → from ≤ get_or self.now.places.items k 0 }
    {
        self.places
            .as_slice()
            .partition_point(|place| *place < from)
    }

    /// Keeps what a search found behind the places in cells that end there. False where nothing more is kept.
    fn note(&mut self, found: Option<usize>, end: usize) -> bool
        requires room { IsRoomy self.old }
        requires end { end < 2 ^ 63 }
        requires found { IfSome found (λ place. place < end) }
        ensures kept { (cells : List Bool) → ArePlaces cells self.old → end ≡ length cells
            → IsFirstWord cells self.old.word self.old.count self.old.sought end found → ArePlaces cells self.new }
        ensures room { IsRoomy self.new }
    {
        match found {
            Some(place) => self.add(place),
            None => {
                self.sought = (end + 1).saturating_sub(self.count as usize);
                false
            }
        }
    }

    /// Keeps the next place. False where there is no room.
    fn add(&mut self, place: usize) -> bool
        requires room { IsRoomy self.old }
        requires place { place < 2 ^ 63 }
        ensures kept { (cells : List Bool) (end : ℕ) → ArePlaces cells self.old
            → IsFirstWord cells self.old.word self.old.count self.old.sought end (Some place)
            → ArePlaces cells self.new }
        ensures room { IsRoomy self.new }
    {
        if self.places.len() >= MOST_PLACES {
            return false;
        }
        self.places.push_reserved(place);
        self.sought = place + 1;
        true
    }
}
