ghost use Rattle.std.specs.Prelude.{◌≡◌, ◌+◌, ◌*◌, ◌<◌, ◌≤◌, List, [], length, IfOk};
ghost use Rattle.std.specs.Option.{option_copied};
ghost use Rattle.turn_merge.specs.Readings.{NotedReading, good_reading, bad_reading, verdict as verdict_over, agreed};
ghost use Rattle.turn_merge.specs.Book.{IsKnown, StandsFor, AppendsReading, HasShape, SameShape, MOST_NOTES};

use crate::fold::{part_of, with_bad, with_good_at};
use crate::verdict::{Place, Verdict};
use flux_base::Memory;
use std::alloc::Global;
use std::marker::Model;

/// What is known of each sector of a track. Contracts see what it stands for: a list of readings, in the
/// order in which they were noted. Only `new` may answer want of memory.
#[derive(Debug, Drop)]
pub struct Book {
    first_sector: u8,
    /// How many sectors are known, at most as many as `new` made room for.
    sectors: u8,
    size: u16,
    /// Readings noted since `new`, `begin` or the last `clear`.
    notes: u64,
    verdicts: Vec<Verdict>,
    /// `size` bytes for each sector: those of its first good reading, once there is one.
    bytes: Vec<u8>,
}

impl Model for Book {
    ghost use Rattle.std.specs.Prelude.{length};
    ghost use Rattle.turn_merge.specs.Book.{Knowledge, found_from, IsKept};

    ghost Value = { Knowledge };

    ghost view = { λ b. record {
      first_sector = b.first_sector;
      most = length b.verdicts.items;
      size = b.size;
      notes = b.notes;
      found = found_from b.sectors b.size b.verdicts.items b.bytes.items;
    } };

    ghost invariant = { λ b. IsKept b.sectors b.size b.notes b.verdicts.items b.bytes.items };
}

impl Book {
    /// A book without readings. It has room for `sectors` sectors of `size` bytes, the first of which has
    /// the number `first_sector`.
    pub fn new(alloc: Global, first_sector: u8, sectors: u8, size: u16) -> Result<Book, Memory>
        ensures empty { IfOk result (λ book. StandsFor book []) }
        ensures shape { IfOk result (λ book. HasShape book first_sector sectors size sectors) }
    {
        let room = usize::from(sectors) * usize::from(size);
        Ok(Book {
            first_sector,
            sectors,
            size,
            notes: 0,
            verdicts: vec![in alloc; Verdict::Missing; usize::from(sectors)]?,
            bytes: vec![in alloc; 0; room]?,
        })
    }

    /// Forgets all readings. From now on it knows of `sectors` sectors, at most as many as `new` made room
    /// for.
    pub fn clear(&mut self, sectors: u8)
        requires { sectors ≤ self.old.most }
        ensures empty { StandsFor self.new [] }
        ensures shape { HasShape self.new self.old.first_sector self.old.most self.old.size sectors }
    {
        self.verdicts.fill(Verdict::Missing);
        self.sectors = sectors;
        self.notes = 0;
    }

    /// Forgets all readings, and begins anew for sectors of another track: from now on it has room for `sectors` sectors
    /// of `size` bytes, the first of which has the number `first_sector`, and no more. There was room for as many sectors
    /// and as many bytes. No memory is taken.
    pub fn begin(&mut self, first_sector: u8, sectors: u8, size: u16)
        requires sectors { sectors ≤ self.old.most }
        requires bytes { sectors * size ≤ self.old.most * self.old.size }
        ensures empty { StandsFor self.new [] }
        ensures shape { HasShape self.new first_sector sectors size sectors }
    {
        self.verdicts.truncate(usize::from(sectors));
        self.bytes
            .truncate(usize::from(sectors) * usize::from(size));
        self.first_sector = first_sector;
        self.sectors = self.sectors.min(sectors);
        self.size = size;
        self.clear(sectors);
    }

    /// Notes a reading whose data match their check value.
    pub fn note_good(&mut self, sector: u8, place: Place, bytes: &[u8])
        requires known { IsKnown self.old sector }
        requires whole { length bytes.now ≡ self.old.size }
        requires few { self.old.notes < MOST_NOTES }
        ensures shape { SameShape self.old self.new }
        ensures count { self.new.notes ≡ self.old.notes + 1 }
        ensures noted { AppendsReading self.old self.new (good_reading sector place bytes.now) }
    {
        let index = usize::from(sector - self.first_sector);
        let verdict = self.verdicts[index];
        self.verdicts[index] = with_good_at(&mut self.bytes, index, verdict, place, bytes);
        self.notes += 1;
    }

    /// Notes a reading of which only the header stands.
    pub fn note_bad(&mut self, sector: u8, place: Place)
        requires known { IsKnown self.old sector }
        requires few { self.old.notes < MOST_NOTES }
        ensures shape { SameShape self.old self.new }
        ensures count { self.new.notes ≡ self.old.notes + 1 }
        ensures noted { AppendsReading self.old self.new (bad_reading sector place) }
    {
        let index = usize::from(sector - self.first_sector);
        self.verdicts[index] = with_bad(self.verdicts[index], place);
        self.notes += 1;
    }

    /// What the readings of a sector say together.
    pub fn verdict(&self, sector: u8) -> Verdict
        requires { IsKnown self.now sector }
        ensures { (readings : List NotedReading) → StandsFor self.now readings
            → result ≡ verdict_over readings sector }
    {
        self.verdicts[usize::from(sector - self.first_sector)]
    }

    /// The data of a sector, where its verdict is `Good`.
    pub fn bytes(&self, sector: u8) -> Option<&[u8]>
        requires { IsKnown self.now sector }
        ensures { (readings : List NotedReading) → StandsFor self.now readings
            → option_copied result ≡ agreed readings sector }
    {
        let index = usize::from(sector - self.first_sector);
        match self.verdicts[index] {
            Verdict::Good { .. } => Some(part_of(&self.bytes, index, usize::from(self.size))),
            _ => None,
        }
    }
}
