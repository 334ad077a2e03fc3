//! The memory for finding disks by numbers.

ghost use Rattle.std.specs.Prelude.{IfOk};
ghost use Rattle.told_disks.specs.declared.heads.NamedHeads.{NamedHeads};
ghost use Rattle.dump_numbers.specs.inside.Noted.{HoldAll, HoldsFiles, sets_at};

use crate::sets::{DumpSets, HeadSets, RateSets, note_sets};
use flux_base::{Memory, TrackId};
use flux_engine::SharedStream;
use std::alloc::Global;
use std::marker::Model;
use told_disks::{ForeignDisk, NumberedDisk};

/// The most files, of 99 cylinders and two heads, and of 42 cylinders.
const MOST_FILES: usize = 198;

const MOST_DOUBLE_TRACKS: usize = 84;

/// The most disks: of five rates, each with four sizes by two steps.
const MOST_DISKS: usize = 40;

/// All memory that finding the disks by numbers takes that a dump may be of, less than 5 MiB, and the sets of sector
/// numbers of the files that were noted. It serves once.
#[derive(Drop)]
pub struct NumbersRoom {
    pub(crate) sets: DumpSets,
    pub(crate) disks: Vec<NumberedDisk>,
    pub(crate) foreign: Vec<ForeignDisk>,
}

impl Model for NumbersRoom {
    ghost use Rattle.std.specs.Prelude.{◌≡◌, ◌≤◌, []};
    ghost use Rattle.std.specs.Vec.{vec_capacity};
    ghost use Rattle.dump_numbers.specs.Sets.{NotedSets};
    ghost use Rattle.dump_numbers.specs.inside.Noted.{AreEven, kept_in};

    ghost Value = { NotedSets };

    ghost view = { λ room. kept_in room.sets };

    ghost invariant = { λ room. AreEven room.sets
        × ((room.disks.items ≡ []) × (40 ≤ vec_capacity room.disks))
        × ((room.foreign.items ≡ []) × (40 ≤ vec_capacity room.foreign)) };
}

impl NumbersRoom {
    ghost use Rattle.std.specs.Prelude.{◌≡◌, [], ◌∷◌, ◌++◌, List};
    ghost use Rattle.flux_engine.specs.Plans.{Seen};
    ghost use Rattle.dump_numbers.specs.Sets.{AreNotedTo};

    /// Takes it. No file is noted.
    pub fn reserve(alloc: Global) -> Result<NumbersRoom, Memory>
        ensures { IfOk result (λ room. AreNotedTo [] room) }
    {
        Ok(NumbersRoom {
            sets: DumpSets::reserve(alloc)?,
            disks: Vec::with_capacity(alloc, MOST_DISKS)?,
            foreign: Vec::with_capacity(alloc, MOST_DISKS)?,
        })
    }

    /// Notes the stream of the next file: cylinder by cylinder, head by head. One that is passed over tells nothing,
    /// nor does any behind the 198th. No memory is taken.
    pub fn note_file(&mut self, stream: &mut SharedStream)
        ensures noted { (came : List Seen) → AreNotedTo came self.old
            → AreNotedTo (came ++ stream.old ∷ []) self.new }
        ensures stream { stream.new ≡ stream.old }
    {
        let number = self.sets.dd.own.one.len();
        if number >= MOST_FILES {
            return;
        }
        let file = TrackId {
            cylinder: (number / 2) as u8,
            head: (number % 2) as u8,
        };
        note_sets(file, stream, &mut self.sets);
    }
}

impl DumpSets {
    /// Takes the memory for the sets of all files.
    fn reserve(alloc: Global) -> Result<DumpSets, Memory>
        ensures { IfOk result (HoldAll 0) }
    {
        Ok(DumpSets {
            dd: HeadSets::reserve(alloc)?,
            hd: HeadSets::reserve(alloc)?,
            hd360: HeadSets::reserve(alloc)?,
            sd: HeadSets::reserve(alloc)?,
            sd8: HeadSets::reserve(alloc)?,
        })
    }
}

impl HeadSets {
    /// Takes the memory for those by a rate.
    fn reserve(alloc: Global) -> Result<HeadSets, Memory>
        ensures { IfOk result (λ sets. (heads : NamedHeads) → HoldsFiles 0 (sets_at sets heads)) }
    {
        Ok(HeadSets {
            own: RateSets::reserve(alloc)?,
            first: RateSets::reserve(alloc)?,
            changed: RateSets::reserve(alloc)?,
        })
    }
}

impl RateSets {
    /// Takes the memory for those by what headers name.
    fn reserve(alloc: Global) -> Result<RateSets, Memory>
        ensures { IfOk result (HoldsFiles 0) }
    {
        Ok(RateSets {
            one: Vec::with_capacity(alloc, MOST_FILES)?,
            two: Vec::with_capacity(alloc, MOST_DOUBLE_TRACKS)?,
        })
    }
}
