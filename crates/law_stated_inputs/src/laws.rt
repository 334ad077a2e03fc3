//! Folders, paths and numbers of trials in plain numbers.

ghost use Rattle.law_stated_inputs.specs.Laws.{FoldersAreStated, PathsAreStated, SeedsAreStated, SeedsWithoutHoles};

use track_shelf::files_name_dumps;

/// A folder lacks none of a format's files, and joined they are these bytes, exactly where each track's file is the
/// first that has its path, and the bytes are those of all these files, each right behind the one before.
pub fn folders_are_as_stated()
    ensures { FoldersAreStated }
{}

/// The paths of a track's file, byte by byte: in a folder, in a dump that is named by one of its files, in one that is an
/// SCP file, and in a dump of any other name.
pub fn paths_are_as_stated()
    ensures { PathsAreStated }
{
    files_name_dumps()
}

/// A trial has no hole exactly where its number has three zeros before its last three
/// digits, whatever stands before them.
pub fn seeds_are_as_stated()
    ensures stated { SeedsAreStated }
    ensures some { SeedsWithoutHoles }
{}
