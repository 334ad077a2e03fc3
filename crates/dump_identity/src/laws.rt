//! What the definition of what is said of a dump comes to.

ghost use Rattle.dump_identity.specs.Laws.{CompleteIsReadWhole, IdentitiesAreOne, LinesAreOfAllFiles};
ghost use Rattle.dump_identity.specs.Laws.{NoFilesAreNoIdentity};

use dump_numbers::numbers_are_one;
use law_read_dumps::dumps_are_one;

/// The line of a disk has the numbers that reading the dump with its words comes to, by the clock that follows the
/// drive alone: where a sector is good, none of the dump's files is left out.
pub fn lines_are_of_all_files()
    ensures { LinesAreOfAllFiles }
{}

/// Where the best of all disks is complete, reading the dump with its words, by the clock that follows the drive alone,
/// calls every sector good, and no other name has data in any of the dump's files.
pub fn complete_is_read_whole()
    ensures { CompleteIsReadWhole }
{}

/// The files on the shelf decide what is said of a dump, or that it is refused.
pub fn identities_are_one()
    ensures one { IdentitiesAreOne }
    ensures refused { NoFilesAreNoIdentity }
{
    dumps_are_one();
    numbers_are_one();
}
