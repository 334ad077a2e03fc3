//! One sector of a track by its readings.

ghost use Rattle.std.specs.Prelude.{◌≡◌, ◌+◌, ◌<◌, ◌≤◌, List, [], ◌∷◌, length, IfOk};
ghost use Rattle.flux_base.specs.Bounds.{MOST_SECTOR_BYTES};
ghost use Rattle.sector_copies.specs.Notes.{SectorStandsFor};
ghost use Rattle.sector_copies.specs.inside.Notes.{AppendsNotes, IsSameSector};
ghost use Rattle.turn_merge.specs.Book.{MOST_NOTES};
ghost use Rattle.turn_merge.specs.Readings.{NotedReading, bad_reading, good_reading, verdict as verdict_over};

use crate::copies::{Copies, SectorCopy};
use flux_base::Memory;
use std::alloc::Global;
use std::marker::Model;
use turn_merge::{Book, Place, Verdict};

/// What the readings of one sector come to: the verdict over them, and the distinct contents of the good ones.
#[derive(Drop)]
pub(crate) struct SectorNotes {
    sector: u8,
    book: Book,
    copies: Copies,
}

impl Model for SectorNotes {
    ghost use Rattle.sector_copies.specs.Notes.{SectorKnown};
    ghost use Rattle.sector_copies.specs.inside.Notes.{AreOfSector};

    ghost Value = { SectorKnown };

    ghost view = { λ n. record { sector = n.sector; book = n.book; copies = n.copies } };

    ghost invariant = { λ n. AreOfSector n.sector n.book n.copies };
}

impl SectorNotes {
    /// Takes the memory for a sector of so many bytes. Nothing is noted of it.
    pub(crate) fn new(alloc: Global, sector: u8, size: u16) -> Result<SectorNotes, Memory>
        requires { size ≤ MOST_SECTOR_BYTES }
        ensures sector { IfOk result (λ notes. notes.sector ≡ sector) }
        ensures size { IfOk result (λ notes. notes.book.size ≡ size) }
        ensures none { IfOk result (λ notes. SectorStandsFor notes []) }
    {
        let book = Book::new(alloc, sector, 1, size)?;
        let copies = Copies::new(alloc)?;
        Ok(SectorNotes {
            sector,
            book,
            copies,
        })
    }

    /// The sector's number.
    pub(crate) fn sector(&self) -> u8
        ensures { result ≡ self.now.sector }
    {
        self.sector
    }

    /// Notes a reading of the sector whose data match their check value.
    pub(crate) fn note_good(&mut self, place: Place, bytes: &[u8])
        requires whole { length bytes.now ≡ self.old.book.size }
        requires few { self.old.book.notes < MOST_NOTES }
        ensures same { IsSameSector self.old self.new }
        ensures count { self.new.book.notes ≡ self.old.book.notes + 1 }
        ensures noted { AppendsNotes self.old self.new (good_reading self.old.sector place bytes.now ∷ []) }
    {
        self.book.note_good(self.sector, place, bytes);
        self.copies.note(bytes, place);
    }

    /// Notes a reading of which only the header stands.
    pub(crate) fn note_bad(&mut self, place: Place)
        requires { self.old.book.notes < MOST_NOTES }
        ensures same { IsSameSector self.old self.new }
        ensures count { self.new.book.notes ≡ self.old.book.notes + 1 }
        ensures noted { AppendsNotes self.old self.new (bad_reading self.old.sector place ∷ []) }
    {
        self.book.note_bad(self.sector, place);
    }

    /// What the readings say together.
    pub(crate) fn verdict(&self) -> Verdict
        ensures { (readings : List NotedReading) → SectorStandsFor self.now readings
            → result ≡ verdict_over readings self.now.sector }
    {
        self.book.verdict(self.sector)
    }

    /// The distinct contents of the good ones, at most 16, in the order in which they were first met.
    pub(crate) fn copies(&self) -> &[SectorCopy]
        ensures { result.now ≡ self.now.copies }
    {
        self.copies.all()
    }
}
