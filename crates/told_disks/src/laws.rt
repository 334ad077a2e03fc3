//! What the sets of a rate come to.

ghost use Rattle.told_disks.specs.Laws.{ForeignDisksAreOne, ToldDisksAreOne};

/// They tell one list of disks.
pub fn told_disks_are_one()
    ensures { ToldDisksAreOne }
{}

/// And one list of those whose headers name other heads.
pub fn foreign_disks_are_one()
    ensures { ForeignDisksAreOne }
{}
