//! What the definition of an outcome of `imd` comes to.

ghost use Rattle.std.specs.Prelude.{◌≡◌, List, Some};
ghost use Rattle.dump_reading.specs.Files.{ShelfNow};
ghost use Rattle.flux_cli.specs.ImdLaw.{FailedAsFound};
ghost use Rattle.flux_cli.specs.ImdRuns.{IsOutcomeOfImd};
ghost use Rattle.flux_cli.specs.NotedWork.{OneBehindNotes};
ghost use Rattle.flux_cli.specs.Work.{Outcome};
ghost use Rattle.imd_image.specs.Outcomes.{DumpsAsked};
ghost use Rattle.track_shelf.specs.Files.{File};

/// The dumps, the drive's steps, the files on the shelf, and which of them failed, decide the outcome of `imd`: there
/// is one at most, of its own and behind what is noted of SCP files.
pub fn imd_outcomes_are_one()
    ensures own { (asked : DumpsAsked) (files : List File) (start now start' now' : ShelfNow)
        → start.told.files ≡ Some files → start'.told.files ≡ Some files
        → (a b : Outcome) (p : IsOutcomeOfImd asked start now a) (q : IsOutcomeOfImd asked start' now' b)
        → FailedAsFound asked start now start' now' a b p q → a ≡ b }
    ensures noted { (asked : DumpsAsked) (files : List File)
        → OneBehindNotes asked.names (IsOutcomeOfImd asked) (FailedAsFound asked) files }
{
    law_imd_one::found_files_are_one()
}
