//! The distinct contents of the good readings of a sector.

ghost use Rattle.std.specs.Prelude.{◌≡◌, ◌+◌, ◌<◌, ◌≤◌, List, ℕ, [], ◌∷◌, ◌++◌, map, length, IfOk};
ghost use Rattle.std.specs.Str.{bytes_eq};
ghost use Rattle.flux_base.specs.Bounds.{MOST_SECTOR_BYTES};
ghost use Rattle.sector_copies.specs.Copies.{copies_over};
ghost use Rattle.sector_copies.specs.inside.Copies.{AreFewer, is_kept, with_reading};
ghost use Rattle.turn_merge.specs.Book.{MOST_NOTES};
ghost use Rattle.turn_merge.specs.Readings.{NotedReading, good_reading};

use arrayvec::ArrayVec;
use flux_base::{MOST_SECTOR_BYTES, Memory};
use std::alloc::Global;
use std::marker::Model;
use turn_merge::Place;

/// The most contents that are kept of a sector.
const MOST_COPIES: usize = 16;

/// One of the contents that good readings of a sector hold. Contracts see its bytes, how many readings hold it and
/// where the first of them stands.
#[derive(Debug, Drop)]
pub struct SectorCopy {
    bytes: ArrayVec<u8, MOST_SECTOR_BYTES>,
    readings: u64,
    first: Place,
}

impl Model for SectorCopy {
    ghost use Rattle.sector_copies.specs.Copies.{Copy};

    ghost Value = { Copy };

    ghost view = { λ c. record { bytes = c.bytes.items; readings = c.readings; first = c.first } };
}

impl SectorCopy {
    /// The content that a reading at this place is the first to hold.
    fn new(bytes: &[u8], place: Place) -> SectorCopy
        requires { length bytes.now ≤ MOST_SECTOR_BYTES }
        ensures { result ≡ record { bytes = bytes.now; readings = 1; first = place } }
    {
        let mut held = ArrayVec::new();
        match held.try_extend_from_slice(bytes) {
            Ok(()) => {}
            Err(_) => unreachable!(),
        }
        SectorCopy {
            bytes: held,
            readings: 1,
            first: place,
        }
    }

    /// Its bytes.
    pub fn bytes(&self) -> &[u8]
        ensures bytes { result.now ≡ self.now.bytes }
        ensures few { length result.now ≤ MOST_SECTOR_BYTES }
    {
        self.bytes.as_slice()
    }

    /// How many good readings hold it.
    pub fn readings(&self) -> u64
        ensures { result ≡ self.now.readings }
    {
        self.readings
    }

    /// Where the first of them stands.
    pub fn first(&self) -> Place
        ensures { result ≡ self.now.first }
    {
        self.first
    }

    /// Whether these are its bytes.
    fn holds(&self, bytes: &[u8]) -> bool
        ensures { result ≡ bytes_eq self.now.bytes bytes.now }
    {
        *self.bytes.as_slice() == *bytes
    }

    /// Counts one more reading.
    fn count(&mut self)
        requires { self.old.readings < MOST_NOTES }
        ensures { self.new
            ≡ record { bytes = self.old.bytes; readings = self.old.readings + 1; first = self.old.first } }
    {
        self.readings += 1;
    }
}

/// The contents of a sector in the order in which they were first met, at most 16. Only
/// `new` may answer want of memory.
#[derive(Debug, Drop)]
pub(crate) struct Copies {
    held: Vec<SectorCopy>,
}

impl Model for Copies {
    ghost use Rattle.std.specs.Prelude.{◌≤◌, List, vec_capacity};
    ghost use Rattle.sector_copies.specs.Copies.{Copy, MOST_COPIES};

    ghost Value = { List Copy };

    ghost view = { λ c. c.held.items };

    ghost invariant = { λ c. MOST_COPIES ≤ vec_capacity c.held };
}

impl Copies {
    /// No content.
    pub(crate) fn new(alloc: Global) -> Result<Copies, Memory>
        ensures { IfOk result (λ copies. copies ≡ []) }
    {
        Ok(Copies {
            held: Vec::with_capacity(alloc, MOST_COPIES)?,
        })
    }

    /// Notes what a good reading holds.
    pub(crate) fn note(&mut self, bytes: &[u8], place: Place)
        requires short { length bytes.now ≤ MOST_SECTOR_BYTES }
        requires few { AreFewer MOST_NOTES self.old }
        ensures noted { (readings : List NotedReading) (sector : ℕ) → self.old ≡ copies_over readings
            → self.new ≡ copies_over (readings ++ good_reading sector place bytes.now ∷ []) }
        ensures fewer { (bound : ℕ) → 1 ≤ bound → AreFewer bound self.old → AreFewer (bound + 1) self.new }
    {
        if count_reading(self.held.as_mut_slice(), bytes) {
            return;
        }
        if self.held.len() >= MOST_COPIES {
            return;
        }
        self.held.push_reserved(SectorCopy::new(bytes, place));
    }

    /// The contents.
    pub(crate) fn all(&self) -> &[SectorCopy]
        ensures { result.now ≡ self.now }
    {
        self.held.as_slice()
    }
}

/// Counts one more reading that holds these bytes where they are among those that are kept, and says whether they are.
fn count_reading(copies: &mut [SectorCopy], bytes: &[u8]) -> bool
    requires few { AreFewer MOST_NOTES copies.old }
    ensures counted { copies.new ≡ map (with_reading bytes.now) copies.old }
    ensures known { result ≡ is_kept bytes.now copies.old }
{
    let mut known = false;
    for copy in copies.iter_mut() {
        if copy.holds(bytes) {
            known = true;
            copy.count();
        }
    }
    known
}
