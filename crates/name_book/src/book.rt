ghost use Rattle.std.specs.Prelude.{◌≡◌, ◌≤◌, ◌<◌, [], length, IfOk};
ghost use Rattle.std.specs.Option.{option_copied};
ghost use Rattle.name_book.specs.Book.{AppendsData, AppendsHeader, NamesStandFor, kind_of, told_at};

use crate::entry::{Agreed, Entry, MOST_HELD, number_of, part_of, with_data_at};
use crate::name::{NameKind, NamedHeader, SectorName, SectorPlace};
use flux_base::Memory;
use std::alloc::Global;
use std::marker::Model;

/// The most names of a track that are told.
const MOST_NAMES: usize = 255;

/// What is known of the names that headers of a track have. Contracts see what it stands for: a list of headers and a
/// list of data, in the order in which they were noted. Only `new` may answer want of memory.
#[derive(Drop)]
pub struct NameBook {
    /// The names in the order in which they were first met.
    entries: Vec<Entry>,
    /// Whether a name was passed over, for which there was no place.
    more: bool,
    /// For each name the first data.
    held: Vec<u8>,
}

impl Model for NameBook {
    ghost use Rattle.std.specs.Prelude.{◌≡◌, ◌≤◌, ◌*◌, length, vec_capacity};
    ghost use Rattle.name_book.specs.Book.{NamesKnown};
    ghost use Rattle.name_book.specs.inside.Kept.{AreKept, told_from};

    ghost Value = { NamesKnown };

    ghost view = { λ b. record { told = told_from 0 b.entries.items b.held.items; more = b.more } };

    ghost invariant = { λ b. (255 ≤ vec_capacity b.entries) × (length b.entries.items ≤ 255)
        × (length b.held.items ≡ 255 * 1025) × AreKept b.entries.items };
}

impl NameBook {
    /// Without headers.
    pub fn new(alloc: Global) -> Result<NameBook, Memory>
        ensures { IfOk result (λ book. NamesStandFor book [] []) }
    {
        Ok(NameBook {
            entries: Vec::with_capacity(alloc, MOST_NAMES)?,
            more: false,
            held: vec![in alloc; 0u8; MOST_NAMES * MOST_HELD]?,
        })
    }

    /// Forgets all headers and data.
    pub fn clear(&mut self)
        ensures { NamesStandFor self.new [] [] }
    {
        self.entries.clear();
        self.more = false;
    }

    /// Notes a header. Where there are so many names that its own has no place, it is passed over.
    pub fn note_header(&mut self, header: NamedHeader)
        ensures { AppendsHeader self.old self.new header }
    {
        if let Some(number) = number_of(self.entries.as_slice(), header.name) {
            let index = usize::from(number);
            self.entries[index] = self.entries[index].with(&header);
            return;
        }
        if self.entries.len() >= MOST_NAMES {
            self.more = true;
            return;
        }
        self.entries.push_reserved(Entry::first(&header));
    }

    /// Notes whole data behind a header of a name: the byte of their mark, and then their own, 1024 at most. Where the
    /// name is passed over, they are.
    pub fn note_data(&mut self, name: SectorName, held: &[u8])
        requires { length held.now ≤ 1025 }
        ensures { AppendsData self.old self.new (record { name = name; held = held.now }) }
    {
        let Some(number) = number_of(self.entries.as_slice(), name) else {
            return;
        };
        let index = usize::from(number);
        let entry = self.entries[index];
        let agreed = with_data_at(self.held.as_mut_slice(), index, entry.agreed, held);
        self.entries[index] = entry.with_agreed(agreed);
    }

    /// How many names are told, 255 at most.
    pub fn count(&self) -> u8
        ensures { result ≡ length self.now.told }
    {
        self.entries.len() as u8
    }

    /// Whether names were passed over.
    pub fn has_more(&self) -> bool
        ensures { result ≡ self.now.more }
    {
        self.more
    }

    /// The name of this number.
    pub fn name(&self, number: u8) -> SectorName
        requires { number < length self.now.told }
        ensures { result ≡ (told_at self.now number).name }
    {
        self.entries[usize::from(number)].name
    }

    /// Where the sector lies on the track.
    pub fn place(&self, number: u8) -> SectorPlace
        requires { number < length self.now.told }
        ensures { result ≡ (told_at self.now number).place }
    {
        self.entries[usize::from(number)].place
    }

    /// Of which kind the name is.
    pub fn kind(&self, number: u8) -> NameKind
        requires { number < length self.now.told }
        ensures { result ≡ kind_of (told_at self.now number) }
    {
        self.entries[usize::from(number)].kind()
    }

    /// What all whole data of the name hold: the byte of their mark, and then their own. None where there are none, or
    /// two differ.
    pub fn agreed(&self, number: u8) -> Option<&[u8]>
        requires { number < length self.now.told }
        ensures { option_copied result ≡ (told_at self.now number).agreed }
    {
        let index = usize::from(number);
        match self.entries[index].agreed {
            Agreed::One(count) => {
                let part = part_of(&self.held, index);
                Some(&part[..usize::from(count)])
            }
            _ => None,
        }
    }
}
