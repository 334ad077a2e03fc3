//! What the definition of an outcome comes to.

ghost use Rattle.std.specs.Prelude.{◌≡◌, ℕ, List, [], ◌∷◌, Some};
ghost use Rattle.dump_reading.specs.Files.{ShelfNow};
ghost use Rattle.dump_reading.specs.Outcomes.{DumpDisk};
ghost use Rattle.flux_cli.specs.ReadRuns.{FailedAsRead, IsOutcomeOfDumps};
ghost use Rattle.flux_cli.specs.IdentityRuns.{FailedAsIdentified, IsOutcomeOfDump};
ghost use Rattle.flux_cli.specs.InfoRuns.{FailedAsTold, IsOutcomeOfInfo};
ghost use Rattle.flux_cli.specs.NotedWork.{OneBehindNotes};
ghost use Rattle.flux_cli.specs.SectorRuns.{FailedAsShown, IsOutcomeOfSector, ReadingsOfShown};
ghost use Rattle.flux_cli.specs.Work.{Outcome};
ghost use Rattle.flux_cli.specs.Works.{IsOutcome};
ghost use Rattle.flux_words.specs.declared.options.Shown.{Shown};
ghost use Rattle.sector_copies.specs.Shown.{SectorAsked};
ghost use Rattle.track_shelf.specs.Files.{File};
ghost use Rattle.turn_merge.specs.Readings.{NotedReading};

use flux_words::words_ask_once;

/// The words and the input decide the outcome: there is one at most.
pub fn outcomes_are_one()
    ensures { (words : List (List ℕ)) (x : List ℕ) (a b : Outcome) → IsOutcome words x a → IsOutcome words x b → a ≡ b }
{
    words_ask_once();
    g64_image::file_disks_are_one();
    flux_engine::plans_are_right()
}

/// What is shown, the dumps, the files on the shelf, and which of them failed, decide the outcome of `read`: there is
/// one at most, of its own and behind what is noted of SCP files.
pub fn read_outcomes_are_one()
    ensures own { (shown : Shown) (disk : DumpDisk) (files : List File) (start now start' now' : ShelfNow)
        → start.told.files ≡ Some files → start'.told.files ≡ Some files
        → (a b : Outcome) (p : IsOutcomeOfDumps shown disk start now a) (q : IsOutcomeOfDumps shown disk start' now' b)
        → FailedAsRead shown disk start now start' now' a b p q → a ≡ b }
    ensures noted { (shown : Shown) (disk : DumpDisk) (files : List File)
        → OneBehindNotes disk.dumps (IsOutcomeOfDumps shown disk) (FailedAsRead shown disk) files }
{
    law_read_dumps::all_of_dumps_is_one()
}

/// A dump, the files on the shelf, and which of them failed each time, decide the outcome of
/// `identify`: there is one at most.
pub fn identity_outcomes_are_one()
    ensures { (dump : List ℕ) (files : List File) (start now start' now' : ShelfNow) → start.told.files ≡ Some files
        → start'.told.files ≡ Some files
        → (a b : Outcome) (p : IsOutcomeOfDump dump start now a) (q : IsOutcomeOfDump dump start' now' b)
        → FailedAsIdentified dump start now start' now' a b p q → a ≡ b }
{
    dump_identity::identities_are_one()
}

/// A dump, the files on the shelf, and which of them failed, decide the outcome of `info`: there is one at most, of its
/// own and behind what is noted of an SCP file.
pub fn info_outcomes_are_one()
    ensures own { (dump : List ℕ) (files : List File) (start now start' now' : ShelfNow)
        → start.told.files ≡ Some files → start'.told.files ≡ Some files
        → (a b : Outcome) (p : IsOutcomeOfInfo dump start now a) (q : IsOutcomeOfInfo dump start' now' b)
        → FailedAsTold dump start now start' now' a b p q → a ≡ b }
    ensures noted { (dump : List ℕ) (files : List File)
        → OneBehindNotes (dump ∷ []) (IsOutcomeOfInfo dump) (FailedAsTold dump) files }
{
    dump_turns::turns_are_one()
}

/// Where the streams of a sector's track have lists of all that can be read in them, which reading them makes, what is
/// asked, the files on the shelf, and which of them failed, decide the outcome of `show`: there is one at most.
pub fn sector_outcomes_are_one()
    ensures { (asked : SectorAsked) (files : List File) (captures : List (List NotedReading))
        (start now start' now' : ShelfNow)
        → start.told.files ≡ Some files → start'.told.files ≡ Some files
        → (a b : Outcome) (p : IsOutcomeOfSector asked start now a) (q : IsOutcomeOfSector asked start' now' b)
        → ReadingsOfShown asked start now a p captures
        → FailedAsShown asked start now start' now' a b p q → a ≡ b }
{
    sector_copies::shown_sectors_are_one()
}
