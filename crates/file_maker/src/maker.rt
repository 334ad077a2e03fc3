ghost use Rattle.std.specs.Prelude.{◌≡◌, ℕ, [], Option, Some, None, is_err, option_map, unwrap_or, IfOk};
ghost use Rattle.std.specs.Option.{is_some};
ghost use Rattle.flux_base.specs.Counts.{Counts, counts_of};
ghost use Rattle.track_shelf.specs.Files.{file_at};
ghost use Rattle.file_maker.specs.Made.{IsNew, Made, TakesOver, has_folder, made_close, made_folder, made_open, no_faults};
ghost use Rattle.file_maker.specs.Made.{path_in};

use flux_base::{Failed, Sink};

/// What makes folders and files. A file is a sink until it is closed. Nothing that was there is ever written to.
pub trait FileMaker {
    /// A file that is open.
    type File: Sink + Drop;

    /// What lies there and what is open, where the object tells it.
    ghost made: { Self → Option Made } = { λ _. None };

    /// How often the object has failed.
    ghost faults: { Self → ℕ };

    /// How many calls have failed, where the object tells it.
    ghost failed: { Self → Option ℕ } = { λ _. None };

    /// Makes a folder where it is not there. Those in which it is to lie are not made.
    fn make_folder(&mut self, folder: &[u8]) -> Result<(), Failed>
        ensures made { made self.new ≡ option_map (made_folder folder.now result) (made self.old) }
        ensures counts { Counts (is_err result) (counts_of faults failed self.old) (counts_of faults failed self.new) };

    /// Whether this folder is there, or whatever else lies at its path. Nothing fails: what cannot be looked at is not
    /// there, and fails as it is made.
    fn has_folder(&self, folder: &[u8]) -> bool
        ensures { (told : Made) → made self.now ≡ Some told → result ≡ has_folder folder.now told.folders };

    /// Whether a file of this name is in the folder. Nothing fails: what cannot be looked at is not
    /// there, and fails as it is made.
    fn has_file(&self, folder: &[u8], name: &str) -> bool
        ensures { (told : Made) → made self.now ≡ Some told
            → result ≡ is_some (file_at told.files (path_in folder.now name.now)) };

    /// Makes a new file of this name in the folder. It fails where one is there.
    fn make_file(&mut self, folder: &[u8], name: &str) -> Result<Self::File, Failed>
        ensures new { IsNew Self.File.written (made self.old) (path_in folder.now name.now) result }
        ensures made { made self.new ≡ option_map (made_open (path_in folder.now name.now) result) (made self.old) }
        ensures fresh { IfOk result
            (λ file. counts_of Self.File.faults Self.File.failed file ≡ no_faults (counts_of faults failed self.old)) }
        ensures counts { Counts (is_err result) (counts_of faults failed self.old) (counts_of faults failed self.new) };

    /// Closes the file that was made last. How often it failed is counted with the maker's own faults.
    fn close_file(&mut self, file: Self::File)
        ensures made { made self.new ≡ option_map (made_close (unwrap_or (Self.File.written file) [])) (made self.old) }
        ensures counts { TakesOver (counts_of Self.File.faults Self.File.failed file) (counts_of faults failed self.old)
            (counts_of faults failed self.new) };
}
