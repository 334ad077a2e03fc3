//! What the files of a dump come to.

ghost use Rattle.dump_numbers.specs.Laws.{NumbersAreOne};

use told_disks::{foreign_disks_are_one, told_disks_are_one};

/// Of the same files the same disks are found, where the same of them failed.
pub fn numbers_are_one()
    ensures { NumbersAreOne }
{
    told_disks_are_one();
    foreign_disks_are_one();
}
