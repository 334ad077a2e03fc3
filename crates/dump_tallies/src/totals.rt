//! What a disk comes to, by what each file of a dump does.

ghost use Rattle.std.specs.Prelude.{◌≡◌, ◌<◌, ◌++◌, ◌+◌, [], ◌∷◌, ℕ, true, List, Option, cond, length};
ghost use Rattle.flux_base.specs.declared.track.TrackId.{TrackId as Id};
ghost use Rattle.sector_images.specs.Places.{tracks};
ghost use Rattle.track_shelf.specs.Files.{File};
ghost use Rattle.track_shelf.specs.Stepping.{file_track, reaches_all};
ghost use Rattle.flux_engine.specs.Names.{passed_beside};
ghost use Rattle.flux_engine.specs.Plans.{Seen, is_failed as has_failed};
ghost use Rattle.dump_reading.specs.Beside.{beside_tracks};
ghost use Rattle.dump_reading.specs.DumpStreams.{AreOfDumps};
ghost use Rattle.dump_reading.specs.declared.totals.DumpTotals.{DumpTotals as DumpNumbers};
ghost use Rattle.dump_tallies.specs.Files.{file_of, of_files};
ghost use Rattle.dump_tallies.specs.Numbers.{AreNumbersOf, passed_of};
ghost use Rattle.dump_tallies.specs.Tallies.{AreTallied};
ghost use Rattle.dump_tallies.specs.inside.Sums.{AreFewNumbers, beside_among, own_numbers, with_beside};

use crate::disk_tally::DiskTally;
use crate::files::file_number;
use dump_reading::{DumpTotals, Looks, has_track, most_cylinders};
use flux_base::TrackId;
use flux_engine::{add_totals, no_totals};
use sector_images::{sectors_lie_in_images, track_count, track_id, tracks_keep_bounds};
use sector_report::Passed;

impl DiskTally {
    /// What the disk comes to where all files came, and why each of them is passed over, if it is: the numbers of
    /// reading the dump as the disk, by the clock that follows the drive alone, and with the files beside its tracks
    /// where a sector is good.
    pub fn totals(&self, passed: &[Option<Passed>]) -> DumpTotals
        requires all { length self.now.tallies ≡ 200 }
        requires passed { length passed.now ≡ 200 }
        ensures { (dump : List ℕ) (told : Option (List File)) (came : List Seen) → AreTallied self.now came
            → passed.now ≡ passed_of came → AreOfDumps (of_files dump) told came
            → AreNumbersOf dump told came self.now.stepping self.now.format result }
    {
        tracks_keep_bounds();
        sectors_lie_in_images();
        let mut totals = self.own_totals(passed);
        if !Looks::WhereGood.wants(&totals.sectors) {
            return totals;
        }
        self.add_beside(passed, &mut totals);
        totals
    }

    /// The numbers of the format's tracks.
    fn own_totals(&self, passed: &[Option<Passed>]) -> DumpTotals
        requires all { length self.now.tallies ≡ 200 }
        requires passed { length passed.now ≡ 200 }
        ensures own { result ≡ own_numbers self.now passed.now (tracks self.now.format) }
        ensures few { AreFewNumbers 1000 result }
        ensures reached { reaches_all self.now.stepping self.now.format ≡ true }
    {
        tracks_keep_bounds();
        let mut totals = DumpTotals {
            sectors: no_totals(),
            unread: 0,
            lost: 0,
            others: 0,
            whole: 0,
        };
        for number in 0..track_count(self.format) {
            self.add_own(track_id(self.format, number), passed, &mut totals);
        }
        totals
    }

    /// Adds those of one more.
    fn add_own(&self, track: TrackId, passed: &[Option<Passed>], totals: &mut DumpTotals)
        requires all { length self.now.tallies ≡ 200 }
        requires passed { length passed.now ≡ 200 }
        requires cylinder { (file_track self.now.stepping track).cylinder < 100 }
        requires head { track.head < 2 }
        requires few { AreFewNumbers 1000 totals.old }
        ensures own { (before : List Id) → totals.old ≡ own_numbers self.now passed.now before
            → totals.new ≡ own_numbers self.now passed.now (before ++ track ∷ []) }
        ensures few { (n : ℕ) → AreFewNumbers n totals.old → AreFewNumbers (n + 1) totals.new }
    {
        let file = self.file_of(track);
        let tally = self.tallies[file];
        add_totals(&mut totals.sectors, tally.sectors);
        totals.unread += u32::from(passed[file].is_some());
        totals.lost += u32::from(is_failed(&passed[file]));
        totals.others += tally.others;
        totals.whole += tally.whole;
    }

    /// Adds the numbers of the tracks beside the format's.
    fn add_beside(&self, passed: &[Option<Passed>], totals: &mut DumpTotals)
        requires all { length self.now.tallies ≡ 200 }
        requires passed { length passed.now ≡ 200 }
        requires few { AreFewNumbers 1000 totals.old }
        ensures { totals.new
            ≡ with_beside self.now passed.now (beside_tracks self.now.stepping self.now.format) totals.old }
    {
        for number in 0..2 * most_cylinders(self.stepping) {
            let track = TrackId {
                cylinder: number / 2,
                head: number % 2,
            };
            self.add_if_beside(track, passed, totals);
        }
    }

    /// Adds those of one more, if it is none of the format's.
    fn add_if_beside(&self, track: TrackId, passed: &[Option<Passed>], totals: &mut DumpTotals)
        requires all { length self.now.tallies ≡ 200 }
        requires passed { length passed.now ≡ 200 }
        requires cylinder { (file_track self.now.stepping track).cylinder < 100 }
        requires head { track.head < 2 }
        requires few { AreFewNumbers 2000 totals.old }
        ensures beside { (before : List Id) (own : DumpNumbers)
            → totals.old ≡ with_beside self.now passed.now (beside_among self.now.format before) own
            → totals.new
            ≡ with_beside self.now passed.now (beside_among self.now.format (before ++ track ∷ [])) own }
        ensures few { (n : ℕ) → AreFewNumbers n totals.old → AreFewNumbers (n + 1) totals.new }
    {
        if !has_track(self.format, track) {
            self.add_one_beside(track, passed, totals);
        }
    }

    /// Adds those of one more.
    fn add_one_beside(&self, track: TrackId, passed: &[Option<Passed>], totals: &mut DumpTotals)
        requires all { length self.now.tallies ≡ 200 }
        requires passed { length passed.now ≡ 200 }
        requires cylinder { (file_track self.now.stepping track).cylinder < 100 }
        requires head { track.head < 2 }
        requires few { AreFewNumbers 2000 totals.old }
        ensures beside { (before : List Id) (own : DumpNumbers)
            → totals.old ≡ with_beside self.now passed.now before own
            → totals.new ≡ with_beside self.now passed.now (before ++ track ∷ []) own }
        ensures few { (n : ℕ) → AreFewNumbers n totals.old → AreFewNumbers (n + 1) totals.new }
    {
        let file = self.file_of(track);
        let tally = self.tallies[file];
        totals.unread += u32::from(is_told(&passed[file]));
        totals.lost += u32::from(is_failed(&passed[file]));
        totals.others += tally.others;
        totals.whole += tally.whole;
    }

    /// The number of the file in which a track lies.
    fn file_of(&self, track: TrackId) -> usize
        requires cylinder { (file_track self.now.stepping track).cylinder < 100 }
        requires head { track.head < 2 }
        ensures is { result ≡ file_of self.now.stepping track }
        ensures few { result < 200 }
    {
        usize::from(file_number(self.stepping.file_track(track)))
    }
}

/// Whether a file failed.
fn is_failed(passed: &Option<Passed>) -> bool
    ensures { result ≡ has_failed passed.now }
{
    matches!(passed, Some(Passed::Failed))
}

/// Whether a line tells that a file beside the disk's tracks is passed over: not where there is none.
fn is_told(passed: &Option<Passed>) -> bool
    ensures { cond result 1 0 ≡ length (passed_beside 0 passed.now) }
{
    match passed {
        None => false,
        Some(Passed::Absent) => false,
        Some(Passed::Failed) => true,
        Some(Passed::Refused { .. }) => true,
        Some(Passed::RefusedScp(_)) => true,
    }
}
