//! The disks that the sets of a rate tell.

ghost use Rattle.std.specs.Prelude.{◌≡◌, ◌≤◌, ◌+◌, ◌++◌, List, Option, false, length, option_to_list, IsTrue};
ghost use Rattle.std.specs.Vec.{vec_capacity};
ghost use Rattle.told_disks.specs.Disks.{AreToldDisks, IsToldIf, numbers_of as numbers_by};
ghost use Rattle.told_disks.specs.Told.{IsLookedAt, sets_by};
ghost use Rattle.told_disks.specs.declared.heads.NamedHeads.TheVariants.{Own};
ghost use Rattle.track_shelf.specs.declared.stepping.Stepping.TheVariants.{Single, Double};

use crate::heads::NamedHeads;
use crate::name_set::NameSet;
use crate::named::is_covered;
use crate::told::{Told, reaches, tell};
use ibm_disks::{DiskNumbers, IbmDisk, Rate, SectorSize};
use track_shelf::Stepping;

/// A disk by its numbers, captured with these steps.
#[derive(Clone, Copy, Debug, PartialEq, Eq)]
pub struct NumberedDisk {
    pub stepping: Stepping,
    pub disk: IbmDisk,
}

/// Appends the disks that the sets of a rate tell, for each size by each step at most one: by the sets of at most 198
/// tracks with one step of the drive for each cylinder, and by those with two. Set number 2 C + H is that of cylinder C
/// and head H. There is room for 8 disks, and no memory is taken.
pub fn push_disks(rate: Rate, one: &[NameSet], two: &[NameSet], disks: &mut Vec<NumberedDisk>)
    requires one { length one.now ≤ 198 }
    requires two { length two.now ≤ 198 }
    requires room { length disks.old.items + 8 ≤ vec_capacity disks.old }
    ensures told { (more : List NumberedDisk) × AreToldDisks rate one.now two.now more
        × (disks.new.items ≡ disks.old.items ++ more) }
    ensures few { length disks.new.items ≤ length disks.old.items + 8 }
    ensures capacity { vec_capacity disks.new ≡ vec_capacity disks.old }
{
    push_told(rate, SectorSize::Bytes128, one, two, disks);
    push_told(rate, SectorSize::Bytes256, one, two, disks);
    push_told(rate, SectorSize::Bytes512, one, two, disks);
    push_told(rate, SectorSize::Bytes1024, one, two, disks);
}

/// Appends those of a size.
fn push_told(
    rate: Rate,
    size: SectorSize,
    one: &[NameSet],
    two: &[NameSet],
    disks: &mut Vec<NumberedDisk>,
)
    requires one { length one.now ≤ 198 }
    requires two { length two.now ≤ 198 }
    requires room { length disks.old.items + 2 ≤ vec_capacity disks.old }
    ensures told { (first second : Option NumberedDisk) × IsToldIf Own rate size Single one.now two.now first
        × IsToldIf Own rate size Double one.now two.now second
        × (disks.new.items ≡ disks.old.items ++ option_to_list first ++ option_to_list second) }
    ensures few { length disks.new.items ≤ length disks.old.items + 2 }
    ensures capacity { vec_capacity disks.new ≡ vec_capacity disks.old }
{
    push_if(
        told_disk(NamedHeads::Own, rate, size, Stepping::Single, one, two),
        disks,
    );
    push_if(
        told_disk(NamedHeads::Own, rate, size, Stepping::Double, one, two),
        disks,
    );
}

/// Appends a disk, if there is one.
pub(crate) fn push_if<D: Copy>(disk: Option<D>, disks: &mut Vec<D>)
    requires { length disks.old.items + 1 ≤ vec_capacity disks.old }
    ensures items { disks.new.items ≡ disks.old.items ++ option_to_list disk }
    ensures few { length disks.new.items ≤ length disks.old.items + 1 }
    ensures capacity { vec_capacity disks.new ≡ vec_capacity disks.old }
{
    match disk {
        Some(disk) => disks.push_reserved(disk),
        None => {}
    }
}

/// The disk of a size by a step, if the sets tell one whose headers name these heads.
pub(crate) fn told_disk(
    heads: NamedHeads,
    rate: Rate,
    size: SectorSize,
    stepping: Stepping,
    one: &[NameSet],
    two: &[NameSet],
) -> Option<NumberedDisk>
    requires one { length one.now ≤ 198 }
    requires two { length two.now ≤ 198 }
    ensures { IsToldIf heads rate size stepping one.now two.now result }
{
    if !is_looked_at(stepping, size, one, two) {
        return None;
    }
    let Some(told) = tell(sets_of(stepping, one, two), size) else {
        return None;
    };
    let numbers = numbers_of(rate, size, told);
    if is_covered(heads, stepping, &numbers) {
        return None;
    }
    match IbmDisk::of_numbers(numbers) {
        Some(disk) => Some(NumberedDisk { stepping, disk }),
        None => None,
    }
}

/// The sets by a step.
pub(crate) fn sets_of<'a>(
    stepping: Stepping,
    one: &'a [NameSet],
    two: &'a [NameSet],
) -> &'a [NameSet]
    ensures { result.now ≡ sets_by stepping one.now two.now }
{
    match stepping {
        Stepping::Single => one,
        Stepping::Double => two,
    }
}

/// Whether a step is looked at.
fn is_looked_at(stepping: Stepping, size: SectorSize, one: &[NameSet], two: &[NameSet]) -> bool
    ensures yes { IsTrue result → IsLookedAt stepping one.now two.now size }
    ensures no { result ≡ false → IsLookedAt stepping one.now two.now size → ⊥ }
{
    match stepping {
        Stepping::Single => reaches(one, size) || !reaches(two, size),
        Stepping::Double => reaches(two, size),
    }
}

/// The numbers of a disk of which these are told.
fn numbers_of(rate: Rate, size: SectorSize, told: Told) -> DiskNumbers
    requires { told.first ≤ told.last }
    ensures { result ≡ numbers_by rate size told }
{
    DiskNumbers {
        rate,
        cylinders: u16::from(told.cylinders),
        heads: u16::from(told.heads),
        sectors: u16::from(told.last) + 1 - u16::from(told.first),
        sector_bytes: size.bytes(),
        first_sector: u16::from(told.first),
    }
}
