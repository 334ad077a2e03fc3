ghost use Rattle.std.specs.Prelude.{◌≡◌, ℕ, ◌<◌, ◌≤◌, List, None, Some, Option, length, is_err, option_map};
ghost use Rattle.std.specs.Prelude.{IfOk, IfSome, OnErr};
ghost use Rattle.flux_base.specs.Outside.{IsCounted, Rose};
ghost use Rattle.sector_images.specs.Places.{tracks};
ghost use Rattle.track_shelf.specs.Files.{CountsFromNone, File, LeavesWanted, NamesMissing, NoneFailed, Opens, OpensAt};
ghost use Rattle.track_shelf.specs.Files.{has_track, taken_over};
ghost use Rattle.track_shelf.specs.Handled.{CountsToo, Handled, handled_close, handled_open, has_failed};
ghost use Rattle.track_shelf.specs.DumpKinds.{IsKindOf};
ghost use Rattle.track_shelf.specs.Names.{path_text};

use crate::kind::DumpKind;
use flux_base::{Failed, Source, TrackId};
use sector_images::Format;

/// A source whose bytes lie in files, one for each track of a dump. All wanted files of a folder are read as one
/// source, by `begin`. Single files are opened by `open_file`, and read apart from the shelf.
pub trait Shelf: Source {
    /// An open file.
    type File: Source + Drop;

    /// The files that lie on the shelf, where the object tells them.
    ghost files: { Self → Option (List File) } = { λ _. None };

    /// Which of them are open, and which have failed, where the object tells it.
    ghost handled: { Self → Option Handled } = { λ _. None };

    /// Looks for the file of each of the format's tracks in a folder. Where all are there, the bytes still to come
    /// are from now on those of these files, in the order of the tracks' numbers. Else the answer is the number of
    /// the first track whose file is missing. No memory is taken.
    fn begin(&mut self, folder: &[u8], format: Format) -> Result<Option<u32>, Failed>
        // A track whose file is missing is one of the format's, and no earlier one's file is.
        ensures bound { IfOk result (λ missing. IfSome missing (λ number. number < length (tracks format))) }
        ensures missing { NamesMissing (files self.old) folder.now format result }

        // Where a file is missing, and after `Failed`, the bytes still to come are as they were.
        ensures left { LeavesWanted (files self.old) folder.now format result (Self.left self.old)
            (Self.left self.new) }
        ensures kept { files self.new ≡ files self.old }
        ensures unhandled { handled self.new ≡ handled self.old }
        ensures unread { Self.given self.new ≡ Self.given self.old }
        ensures later { Self.faults self.old ≤ Self.faults self.new }
        ensures cause { OnErr result (Rose (Self.faults self.old) (Self.faults self.new)) }
        ensures counted { IsCounted (is_err result) (Self.failed self.old) (Self.failed self.new) };

    /// Whether a track of a dump is there: its file, or in an SCP file its entry. Nothing fails: in a file that cannot
    /// be looked at the track is there, and fails as it is opened.
    fn holds(&self, dump: &[u8], track: TrackId) -> bool
        ensures { (told : List File) → files self.now ≡ Some told → result ≡ has_track told dump.now track };

    /// What lies under a dump's name, of which none of the wanted files is there. Nothing fails: what
    /// cannot be looked at is `Unknown`.
    fn kind_of(&self, dump: &[u8]) -> DumpKind
        ensures { IsKindOf (files self.now) dump.now result };

    /// Opens the file of a track of a dump, which is a folder, or is named by one of its files, or is an SCP file, in
    /// which all tracks lie. None where there is no such file. What is done with the file touches nothing of the shelf.
    /// No memory is taken.
    fn open_file(&mut self, dump: &[u8], track: TrackId) -> Result<Option<Self::File>, Failed>
        ensures opened { Opens Self.File.left (files self.old) (path_text dump.now track) result }
        ensures handles { handled self.new
            ≡ option_map (handled_open (path_text dump.now track) result) (handled self.old) }
        ensures sound { NoneFailed Self.File.faults result }
        ensures fresh { CountsFromNone Self.File.failed (Self.failed self.old) result }
        ensures left { Self.left self.new ≡ Self.left self.old }
        ensures kept { files self.new ≡ files self.old }
        ensures unread { Self.given self.new ≡ Self.given self.old }
        ensures later { Self.faults self.old ≤ Self.faults self.new }
        ensures cause { OnErr result (Rose (Self.faults self.old) (Self.faults self.new)) }
        ensures counted { IsCounted (is_err result) (Self.failed self.old) (Self.failed self.new) };

    /// Opens the file of a path, of which the bytes from `offset` on are still to come; none are where it is shorter.
    /// None where there is no such file. What is done with the file touches nothing of the shelf. No memory is taken.
    fn open_at(&mut self, path: &[u8], offset: u64) -> Result<Option<Self::File>, Failed>
        ensures opened { OpensAt Self.File.left (files self.old) path.now offset result }
        ensures handles { handled self.new ≡ option_map (handled_open path.now result) (handled self.old) }
        ensures sound { NoneFailed Self.File.faults result }
        ensures fresh { CountsFromNone Self.File.failed (Self.failed self.old) result }
        ensures left { Self.left self.new ≡ Self.left self.old }
        ensures kept { files self.new ≡ files self.old }
        ensures unread { Self.given self.new ≡ Self.given self.old }
        ensures later { Self.faults self.old ≤ Self.faults self.new }
        ensures cause { OnErr result (Rose (Self.faults self.old) (Self.faults self.new)) }
        ensures counted { IsCounted (is_err result) (Self.failed self.old) (Self.failed self.new) };

    /// Takes the file back that was opened last. How often it failed is counted with the shelf's own faults.
    fn close_file(&mut self, file: Self::File)
        ensures handles { handled self.new
            ≡ option_map (handled_close (has_failed (Self.File.failed file))) (handled self.old) }
        ensures cause { Rose 0 (Self.File.faults file) → Rose (Self.faults self.old) (Self.faults self.new) }
        ensures left { Self.left self.new ≡ Self.left self.old }
        ensures kept { files self.new ≡ files self.old }
        ensures unread { Self.given self.new ≡ Self.given self.old }
        ensures later { Self.faults self.old ≤ Self.faults self.new }
        ensures counted { Self.failed self.new ≡ taken_over (Self.File.failed file) (Self.failed self.old) };

    /// Where it tells which files failed, it tells how many calls did.
    ghost tells: { (shelf : Self) → CountsToo (handled shelf) (Self.failed shelf) };
}
