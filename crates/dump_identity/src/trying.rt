//! A dump is read as each disk that it may be of.

ghost use Rattle.std.specs.Prelude.{◌≡◌, ◌||◌, length};
ghost use Rattle.std.specs.List.{list_any};
ghost use Rattle.flux_engine.specs.Plans.{is_failed};
ghost use Rattle.dump_reading.specs.Files.{shelf_at};
ghost use Rattle.dump_identity.specs.Candidates.{by_reading, candidates};
ghost use Rattle.dump_identity.specs.inside.Outcomes.{HaveTried};

use crate::reading::{find_files, read_again, read_files};
use crate::room::{IdentityRoom, push_numbered};
use dump_numbers::{ForeignDisk, find_disks};
use dump_tallies::DiskTally;
use flux_base::Word;
use sector_report::Passed;
use track_shelf::Shelf;

/// A dump that was read as each of some disks: first as those that have names, then as those by numbers.
#[derive(Drop)]
pub(crate) struct Tried {
    /// How many have names.
    pub named: usize,
    /// Why each file is passed over, if it is, as it was read first.
    pub passed: Vec<Option<Passed>>,
    /// And as it was read once more.
    pub again: Vec<Option<Passed>>,
    pub disks: Vec<DiskTally>,
    /// Whether the dump has the file of one of the tracks of each.
    pub held: Vec<bool>,
    /// Disks whose headers name other heads than the drive's.
    pub foreign: Vec<ForeignDisk>,
}

impl Tried {
    /// Why each file is passed over, if it is, in the reading of the disk of this number.
    pub fn passed_for(&self, number: usize) -> &[Option<Passed>]
        requires { self.now.named ≡ length candidates }
        ensures { result.now ≡ by_reading self.now.passed.items self.now.again.items number }
    {
        if number < self.named {
            &self.passed
        } else {
            &self.again
        }
    }

    /// Whether a file failed.
    pub fn has_failed(&self) -> bool
        ensures { result ≡ (list_any is_failed self.now.passed.items || list_any is_failed self.now.again.items) }
    {
        have_failed(&self.passed) | have_failed(&self.again)
    }
}

/// Whether one of these files failed.
fn have_failed(passed: &[Option<Passed>]) -> bool
    ensures { result ≡ list_any is_failed passed.now }
{
    passed.iter().any(|why| matches!(why, Some(Passed::Failed)))
}

/// Reads a dump's files as tracks of all disks that have names, and where they tell disks by numbers, once more as
/// tracks of these.
pub(crate) fn try_disks<H: Shelf>(dump: &Word, room: IdentityRoom, shelf: &mut H) -> Tried
    ensures named { result.named ≡ length candidates }
    ensures tried { HaveTried dump.now (shelf_at H.Source H.Shelf.own shelf.old)
        (shelf_at H.Source H.Shelf.own shelf.new)
        result.passed.items result.again.items result.disks.items result.held.items result.foreign.items }
{
    let mut room = room;
    let named = room.disks.len();
    read_files(
        dump,
        &mut room.stream,
        &mut room.numbers,
        &mut room.passed,
        &mut room.disks,
        shelf,
    );
    let found = find_disks(room.numbers);
    push_numbered(&found.disks, &mut room.spare, &mut room.disks);
    find_files(dump, &room.disks, &mut room.held, shelf);
    read_again(
        dump,
        named,
        &mut room.stream,
        &mut room.again,
        &mut room.disks,
        shelf,
    );
    Tried {
        named,
        passed: room.passed,
        again: room.again,
        disks: room.disks,
        held: room.held,
        foreign: found.foreign,
    }
}
