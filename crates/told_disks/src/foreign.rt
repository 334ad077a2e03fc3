//! The disks that the sets of a rate tell whose headers name other heads than the drive's.

ghost use Rattle.std.specs.Prelude.{◌≡◌, ◌≤◌, ◌+◌, ◌++◌, List, Option, false, length, option_to_list, IsTrue};
ghost use Rattle.std.specs.Vec.{vec_capacity};
ghost use Rattle.told_disks.specs.Foreign.{AreForeignDisks, IsDiskIf, IsForeignIf, NamesSecond};
ghost use Rattle.told_disks.specs.declared.heads.NamedHeads.TheVariants.{Changed, First};
ghost use Rattle.track_shelf.specs.declared.stepping.Stepping.TheVariants.{Single, Double};

use crate::disks::{NumberedDisk, push_if, sets_of, told_disk};
use crate::heads::NamedHeads;
use crate::name_set::NameSet;
use crate::told::has_any;
use ibm_disks::{Rate, SectorSize};
use track_shelf::Stepping;

/// A disk by its numbers whose headers name other heads than the drive's.
#[derive(Clone, Copy, Debug, PartialEq, Eq)]
pub struct ForeignDisk {
    /// `First` or `Changed`.
    pub heads: NamedHeads,
    pub disk: NumberedDisk,
}

/// The sets of the tracks of a drive by what their headers name: with one step of the drive for each cylinder, and with
/// two. Set number 2 C + H is that of cylinder C and head H.
#[derive(Clone, Copy)]
pub struct TrackSets<'a> {
    pub one: &'a [NameSet],
    pub two: &'a [NameSet],
}

/// Appends the disks that the sets of a rate tell whose headers name other heads: for each size by each step at most
/// one. `first` are the sets of what names the first head on both of the drive's, `changed` of what names the other
/// head on each, of at most 198 tracks. There is room for 8 disks, and no memory is taken.
pub fn push_foreign(rate: Rate, first: TrackSets, changed: TrackSets, disks: &mut Vec<ForeignDisk>)
    requires few_first { (length first.one.now ≤ 198) × (length first.two.now ≤ 198) }
    requires few_changed { (length changed.one.now ≤ 198) × (length changed.two.now ≤ 198) }
    requires room { length disks.old.items + 8 ≤ vec_capacity disks.old }
    ensures told { (more : List ForeignDisk)
        × AreForeignDisks rate first.entry.one.now first.entry.two.now changed.entry.one.now changed.entry.two.now more
        × (disks.new.items ≡ disks.old.items ++ more) }
    ensures few { length disks.new.items ≤ length disks.old.items + 8 }
    ensures capacity { vec_capacity disks.new ≡ vec_capacity disks.old }
{
    push_of_size(rate, SectorSize::Bytes128, first, changed, disks);
    push_of_size(rate, SectorSize::Bytes256, first, changed, disks);
    push_of_size(rate, SectorSize::Bytes512, first, changed, disks);
    push_of_size(rate, SectorSize::Bytes1024, first, changed, disks);
}

/// Appends those of a size.
fn push_of_size(
    rate: Rate,
    size: SectorSize,
    first: TrackSets,
    changed: TrackSets,
    disks: &mut Vec<ForeignDisk>,
)
    requires few_first { (length first.one.now ≤ 198) × (length first.two.now ≤ 198) }
    requires few_changed { (length changed.one.now ≤ 198) × (length changed.two.now ≤ 198) }
    requires room { length disks.old.items + 2 ≤ vec_capacity disks.old }
    ensures told { (a b : Option ForeignDisk)
        × IsForeignIf rate first.entry.one.now first.entry.two.now changed.entry.one.now changed.entry.two.now size Single a
        × IsForeignIf rate first.entry.one.now first.entry.two.now changed.entry.one.now changed.entry.two.now size Double b
        × (disks.new.items ≡ disks.old.items ++ option_to_list a ++ option_to_list b) }
    ensures few { length disks.new.items ≤ length disks.old.items + 2 }
    ensures capacity { vec_capacity disks.new ≡ vec_capacity disks.old }
{
    push_if(
        foreign_disk(rate, size, Stepping::Single, first, changed),
        disks,
    );
    push_if(
        foreign_disk(rate, size, Stepping::Double, first, changed),
        disks,
    );
}

/// The disk of a size by a step, if one is told.
fn foreign_disk(
    rate: Rate,
    size: SectorSize,
    stepping: Stepping,
    first: TrackSets,
    changed: TrackSets,
) -> Option<ForeignDisk>
    requires few_first { (length first.one.now ≤ 198) × (length first.two.now ≤ 198) }
    requires few_changed { (length changed.one.now ≤ 198) × (length changed.two.now ≤ 198) }
    ensures { IsForeignIf rate first.entry.one.now first.entry.two.now changed.entry.one.now changed.entry.two.now size stepping result }
{
    if names_second(sets_of(stepping, changed.one, changed.two), size) {
        changed_disk(rate, size, stepping, changed)
    } else {
        first_disk(rate, size, stepping, first)
    }
}

/// The disk whose headers name on each head the other one.
fn changed_disk(
    rate: Rate,
    size: SectorSize,
    stepping: Stepping,
    changed: TrackSets,
) -> Option<ForeignDisk>
    requires few { (length changed.one.now ≤ 198) × (length changed.two.now ≤ 198) }
    ensures { IsDiskIf Changed rate size stepping changed.entry.one.now changed.entry.two.now result }
{
    match told_disk(
        NamedHeads::Changed,
        rate,
        size,
        stepping,
        changed.one,
        changed.two,
    ) {
        Some(disk) => Some(ForeignDisk {
            heads: NamedHeads::Changed,
            disk,
        }),
        None => None,
    }
}

/// The disk of two heads whose headers name the first on both.
fn first_disk(
    rate: Rate,
    size: SectorSize,
    stepping: Stepping,
    first: TrackSets,
) -> Option<ForeignDisk>
    requires few { (length first.one.now ≤ 198) × (length first.two.now ≤ 198) }
    ensures { IsDiskIf First rate size stepping first.entry.one.now first.entry.two.now result }
{
    let Some(disk) = told_disk(
        NamedHeads::First,
        rate,
        size,
        stepping,
        first.one,
        first.two,
    ) else {
        return None;
    };
    if disk.disk.heads() < 2 {
        return None;
    }
    Some(ForeignDisk {
        heads: NamedHeads::First,
        disk,
    })
}

/// Whether a track of the first head has a number of a size.
fn names_second(sets: &[NameSet], size: SectorSize) -> bool
    ensures yes { IsTrue result → NamesSecond sets.now size }
    ensures no { result ≡ false → NamesSecond sets.now size → ⊥ }
{
    for track in 0..sets.len() {
        if track % 2 == 0 && has_any(&sets[track], size) {
            return true;
        }
    }
    false
}
