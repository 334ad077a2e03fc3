//! What the definition of what is found of dumps comes to.

ghost use Rattle.law_imd_one.specs.Headline.{FoundFilesAreOne, NoFilesAreNotFound, RefusedDumpsAreOne};

use disk_recordings::{headers_have_names, rewritten_tracks_are_read};

/// The files on the shelf, and which of them failed, decide all that is found of dumps, and with it the file, the
/// report and the totals; or which dump is refused.
pub fn found_files_are_one()
    ensures one { FoundFilesAreOne }
    ensures refused { NoFilesAreNotFound }
    ensures first { RefusedDumpsAreOne }
{
    headers_have_names();
    rewritten_tracks_are_read()
}
