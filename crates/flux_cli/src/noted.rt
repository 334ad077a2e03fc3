//! What is noted first of dumps that are SCP files.

ghost use Rattle.std.specs.Prelude.{◌≡◌, ℕ, List, Some, map};
ghost use Rattle.dump_reading.specs.Files.{ShelfNow};
ghost use Rattle.flux_cli.specs.NotedWork.{noted_status};
ghost use Rattle.scp_notes.specs.Dumps.{AllNoted, DumpNoted, has_failed};
ghost use Rattle.track_shelf.specs.Files.{File};

use flux_base::Status;

/// The status of a command behind the notes of its dumps: a file that failed as it was looked at is told by it, as each
/// file that fails; no other note is.
pub(crate) fn noted_status(failed: bool, status: Status) -> Status
    ensures { result ≡ noted_status failed status }
{
    match status {
        Status::AllGood | Status::NotAllGood | Status::Refused if failed => Status::ShelfFault,
        other => other,
    }
}

/// The dumps, the files on the shelf, and which of them failed as they were looked at, decide what is noted of them.
pub fn notes_are_one()
    ensures { (dumps : List (List ℕ)) (files : List File) (start now start' now' : ShelfNow)
        → start.told.files ≡ Some files → start'.told.files ≡ Some files
        → (a b : List DumpNoted) → AllNoted dumps start now a → AllNoted dumps start' now' b
        → map has_failed a ≡ map has_failed b → a ≡ b }
{}
