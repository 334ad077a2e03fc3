//! The disks by numbers that the files of a dump tell.

ghost use Rattle.std.specs.Prelude.{◌≡◌, ◌≤◌, ◌+◌, ◌++◌, [], All, length, List, true};
ghost use Rattle.std.specs.Vec.{vec_capacity};
ghost use Rattle.flux_engine.specs.Plans.{Seen};
ghost use Rattle.sector_images.specs.declared.format.Format.TheVariants.{Numbered};
ghost use Rattle.told_disks.specs.Disks.{AreToldDisks};
ghost use Rattle.told_disks.specs.declared.heads.NamedHeads.{NamedHeads};
ghost use Rattle.track_shelf.specs.Stepping.{reaches_all};
ghost use Rattle.dump_numbers.specs.Found.{FindsDisks};
ghost use Rattle.dump_numbers.specs.Sets.{AreNotedTo, FILES};
ghost use Rattle.dump_numbers.specs.inside.Noted.{AreEven, AreForeignOf, AreForeignTold, AreTold, IsFew, sets_at};

use crate::room::NumbersRoom;
use crate::sets::{DumpSets, HeadSets, RateSets};
use ibm_disks::Rate;
use sector_images::sectors_lie_in_images;
use told_disks::{ForeignDisk, NumberedDisk, TrackSets, push_disks, push_foreign};

/// The disks by numbers that a dump may be of.
#[derive(Drop)]
pub struct NumbersFound {
    pub disks: Vec<NumberedDisk>,
    /// Those whose headers name other heads than the drive's.
    pub foreign: Vec<ForeignDisk>,
}

/// The disks by numbers that a dump may be of whose files were noted, those of cylinders 0 to 98 and heads 0 and 1: at
/// most 40, in the order of their rates (`mfm-dd`, `mfm-hd`, `mfm-hd360`, `fm-sd`, `fm-sd8`), their sizes, and the
/// steps of the drive, which reaches all tracks of each; and at most as many whose headers name other heads than the
/// drive's. None of these disks is one that a disk with a name covers. No memory is taken.
pub fn find_disks(room: NumbersRoom) -> NumbersFound
    ensures finds { (came : List Seen) → FILES ≤ length came → AreNotedTo came room → FindsDisks came result }
    ensures reached { All (λ d. reaches_all d.stepping (Numbered d.disk) ≡ true) result.disks.items }
    ensures few { length result.disks.items ≤ 40 }
    ensures few_foreign { length result.foreign.items ≤ 40 }
{
    let mut room = room;
    push_all(&room.sets, &mut room.disks);
    push_all_foreign(&room.sets, &mut room.foreign);
    NumbersFound {
        disks: room.disks,
        foreign: room.foreign,
    }
}

/// Appends the disks that the sets of each rate tell.
fn push_all(sets: &DumpSets, disks: &mut Vec<NumberedDisk>)
    requires even { AreEven sets.now }
    requires none { disks.old.items ≡ [] }
    requires room { 40 ≤ vec_capacity disks.old }
    ensures told { AreTold sets.now disks.new.items }
    ensures reached { All (λ d. reaches_all d.stepping (Numbered d.disk) ≡ true) disks.new.items }
    ensures few { length disks.new.items ≤ 40 }
{
    sectors_lie_in_images();
    push_rate(Rate::Double, &sets.dd.own, disks);
    push_rate(Rate::High, &sets.hd.own, disks);
    push_rate(Rate::HighAt360, &sets.hd360.own, disks);
    push_rate(Rate::Single, &sets.sd.own, disks);
    push_rate(Rate::SingleAt360, &sets.sd8.own, disks);
}

/// Appends those of a rate.
fn push_rate(rate: Rate, sets: &RateSets, disks: &mut Vec<NumberedDisk>)
    requires sets { IsFew sets.now }
    requires room { length disks.old.items + 8 ≤ vec_capacity disks.old }
    ensures told { (more : List NumberedDisk) × AreToldDisks rate sets.now.one.items sets.now.two.items more
        × (disks.new.items ≡ disks.old.items ++ more) }
    ensures few { length disks.new.items ≤ length disks.old.items + 8 }
    ensures capacity { vec_capacity disks.new ≡ vec_capacity disks.old }
{
    push_disks(rate, &sets.one, &sets.two, disks);
}

/// Appends the disks whose headers name other heads than the drive's, as the sets of each rate tell them.
fn push_all_foreign(sets: &DumpSets, disks: &mut Vec<ForeignDisk>)
    requires even { AreEven sets.now }
    requires none { disks.old.items ≡ [] }
    requires room { 40 ≤ vec_capacity disks.old }
    ensures told { AreForeignTold sets.now disks.new.items }
    ensures few { length disks.new.items ≤ 40 }
{
    push_foreign_rate(Rate::Double, &sets.dd, disks);
    push_foreign_rate(Rate::High, &sets.hd, disks);
    push_foreign_rate(Rate::HighAt360, &sets.hd360, disks);
    push_foreign_rate(Rate::Single, &sets.sd, disks);
    push_foreign_rate(Rate::SingleAt360, &sets.sd8, disks);
}

/// Appends those of a rate.
fn push_foreign_rate(rate: Rate, sets: &HeadSets, disks: &mut Vec<ForeignDisk>)
    requires sets { (heads : NamedHeads) → IsFew (sets_at sets.now heads) }
    requires room { length disks.old.items + 8 ≤ vec_capacity disks.old }
    ensures told { (more : List ForeignDisk) × AreForeignOf rate sets.now more
        × (disks.new.items ≡ disks.old.items ++ more) }
    ensures few { length disks.new.items ≤ length disks.old.items + 8 }
    ensures capacity { vec_capacity disks.new ≡ vec_capacity disks.old }
{
    let first = TrackSets {
        one: &sets.first.one,
        two: &sets.first.two,
    };
    let changed = TrackSets {
        one: &sets.changed.one,
        two: &sets.changed.two,
    };
    push_foreign(rate, first, changed, disks);
}
