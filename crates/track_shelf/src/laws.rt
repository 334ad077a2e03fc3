//! What the names of the files come to.

ghost use Rattle.track_shelf.specs.Names.{FilesNameDumps, FolderPathsTell, NamesAreFiles, ScpDumpsAreFiles};

/// A dump is named as well by any of its files, and what names it so is one of its files. An SCP file has no others.
pub fn files_name_dumps()
    ensures files { FilesNameDumps }
    ensures names { NamesAreFiles }
    ensures scp { ScpDumpsAreFiles }
{}

/// A path in a folder tells the folder and the track: no two files of dumps have one path.
pub fn folder_paths_tell()
    ensures { FolderPathsTell }
{}
