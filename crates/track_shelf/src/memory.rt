//! A shelf whose files lie in memory.

ghost use Rattle.std.specs.Prelude.{◌≡◌, ◌<◌, ◌≤◌, [], false, true, Some, length, is_err, map, IfOk, IfSome, OnErr};
ghost use Rattle.std.specs.Prelude.{OnOk, None};
ghost use Rattle.std.specs.Io.{ReadsAtMost};
ghost use Rattle.std.specs.Io.KnownBytes.{ReadConsumes};
ghost use Rattle.std.specs.List.{concat};
ghost use Rattle.flux_base.specs.Memory.{is_failing};
ghost use Rattle.flux_base.specs.Outside.{GivesPiece, IsCounted, Rose, risen};
ghost use Rattle.sector_images.specs.Places.{tracks};
ghost use Rattle.track_shelf.specs.Files.{CountsFromNone, LeavesWanted, NamesMissing, NoneFailed, Opens, OpensAt};
ghost use Rattle.track_shelf.specs.Files.{taken_over};
ghost use Rattle.track_shelf.specs.Memory.{ShelfState, after_begin, after_close, after_fault, after_open, after_read};
ghost use Rattle.track_shelf.specs.Memory.{begin_of, bytes_at, cut_first, open_of, read_of, with_bytes};
ghost use Rattle.track_shelf.specs.Names.{path_text};

mod ahead;
mod files;

use self::ahead::{Next, Places, find_file, find_wanted, give};
pub use self::files::ShelfFile;
use self::files::kind_in;
pub(crate) use self::files::place_of;
use crate::kind::DumpKind;
use crate::path::TrackPath;
use crate::scp::has_track;
use crate::shelf::Shelf;
use flux_base::{Failed, Source, TrackId};
use sector_images::Format;
use std::marker::Model;

/// A shelf whose files lie in memory. A read gives the least of the chunk, the buffer's length and the bytes left of
/// the file at hand, which is the first one that is asked for whose bytes are not all taken. The calls of `begin`,
/// `open_file`, `open_at` and `read` whose numbers, from 0, are on a list answer `Failed` and are counted as faults;
/// the reads of an open file are counted among them.
#[derive(Debug, Drop)]
pub struct MemoryShelf<'a> {
    files: &'a [ShelfFile],
    /// Where the files lie that are read, in their order.
    places: Places,
    next: Next,
    chunk: u32,
    failing: &'a [u64],
    calls: u64,
    faults: u64,
}

impl<'a> Model for MemoryShelf<'a> {
    ghost use Rattle.std.specs.Prelude.{◌<◌};
    ghost use Rattle.track_shelf.specs.DumpKinds.{kind_in, kind_of_folder, name_in, names_in};
    ghost use Rattle.track_shelf.specs.Memory.{ShelfState, ahead_from};

    ghost Value = { ShelfState };

    ghost view = { λ s.
        record {
          files = s.files.now;
          ahead = ahead_from s.files.now s.places.items s.next.number s.next.start;
          chunk = s.chunk;
          failing = s.failing.now;
          calls = s.calls;
          faults = s.faults;
        } };

    ghost invariant = { λ s. 0 < s.chunk };
}

impl<'a> MemoryShelf<'a> {
    /// A shelf with these files, from which nothing is to be read before `begin`. Of two files of one path the first
    /// counts. The chunk is at least 1.
    pub fn new(files: &'a [ShelfFile], chunk: u32, failing: &'a [u64]) -> MemoryShelf<'a>
        requires { 0 < chunk }
        ensures { result
            ≡ record { files = files.now; ahead = []; chunk = chunk; failing = failing.now; calls = 0; faults = 0 } }
    {
        MemoryShelf {
            files,
            places: Places::new(),
            next: Next {
                number: 0,
                start: 0,
            },
            chunk,
            failing,
            calls: 0,
            faults: 0,
        }
    }

    /// Counts a call. One whose number is on the list fails, and is counted as a fault.
    fn count_call(&mut self) -> Result<(), Failed>
        ensures ok { OnOk result
            ((is_failing self.old.failing self.old.calls ≡ false)
            × (self.new ≡ record self.old { calls = risen self.old.calls })) }
        ensures err { OnErr result
            ((is_failing self.old.failing self.old.calls ≡ true) × (self.new ≡ after_fault self.old)) }
        ensures later { self.old.faults ≤ self.new.faults }
    {
        let failing = self.failing.contains(&self.calls);
        self.calls = self.calls.saturating_add(1);
        if failing {
            self.faults = self.faults.saturating_add(1);
            return Err(Failed);
        }
        Ok(())
    }

    /// Reads from now on the files at these places.
    fn read_at(&mut self, places: Places)
        ensures { self.new ≡ record self.old { ahead = with_bytes (map (bytes_at self.old.files) places.items) } }
    {
        self.places = places;
        self.next = Next {
            number: 0,
            start: 0,
        };
    }

    /// The same files, from which those at these places are to be read, the first from `start` on.
    fn opened(&self, places: Places, start: usize) -> MemoryShelf<'a>
        ensures { result ≡ record self.now {
          ahead = with_bytes (cut_first start (map (bytes_at self.now.files) places.items));
          faults = 0;
        } }
    {
        MemoryShelf {
            files: self.files,
            places,
            next: Next { number: 0, start },
            chunk: self.chunk,
            failing: self.failing,
            calls: self.calls,
            faults: 0,
        }
    }

    /// Opens the file of a path, to be read from `offset` on.
    fn open(&mut self, path: &TrackPath, offset: u64) -> Result<Option<MemoryShelf<'a>>, Failed>
        ensures opened { OpensAt (λ (file : ShelfState). Some (concat file.ahead)) (Some self.old.files) path.now offset
            result }
        ensures sound { NoneFailed (λ (file : ShelfState). file.faults) result }
        ensures fresh { CountsFromNone (λ (file : ShelfState). Some file.faults) (Some self.old.faults) result }
        ensures left { self.new.ahead ≡ self.old.ahead }
        ensures kept { self.new.files ≡ self.old.files }
        ensures later { self.old.faults ≤ self.new.faults }
        ensures cause { OnErr result (Rose self.old.faults self.new.faults) }
        ensures counted { IsCounted (is_err result) (Some self.old.faults) (Some self.new.faults) }
        ensures answer { result ≡ open_of self.old path.now offset }
        ensures after { self.new ≡ after_open self.old }
    {
        self.count_call()?;
        let places = find_file(self.files, path);
        if places.is_empty() {
            return Ok(None);
        }
        Ok(Some(self.opened(places, offset as usize)))
    }
}

impl<'a> Source for MemoryShelf<'a> {
    ghost left = { λ s. Some (concat s.ahead) };

    ghost faults = { λ s. s.faults };

    ghost failed = { λ s. Some s.faults };

    fn read(&mut self, buffer: &mut [u8]) -> Result<usize, Failed>
        ensures bound { ReadsAtMost result buffer.new }
        ensures bytes { ReadConsumes (Some (concat self.old.ahead)) (Some (concat self.new.ahead)) result buffer.new }
        ensures piece { GivesPiece None None result buffer.new }
        ensures later { self.old.faults ≤ self.new.faults }
        ensures cause { OnErr result (Rose self.old.faults self.new.faults) }
        ensures counted { IsCounted (is_err result) (Some self.old.faults) (Some self.new.faults) }
        ensures answer { result ≡ read_of self.old (length buffer.old) }
        ensures after { self.new ≡ after_read self.old (length buffer.old) }
    {
        self.count_call()?;
        let (next, given) = give(self.files, &self.places, self.next, self.chunk, buffer);
        self.next = next;
        Ok(given)
    }
}

impl<'a> Shelf for MemoryShelf<'a> {
    type File = MemoryShelf<'a>;

    ghost files = { λ s. Some s.files };

    fn begin(&mut self, folder: &[u8], format: Format) -> Result<Option<u32>, Failed>
        ensures bound { IfOk result (λ missing. IfSome missing (λ number. number < length (tracks format))) }
        ensures missing { NamesMissing (Some self.old.files) folder.now format result }
        ensures left { LeavesWanted (Some self.old.files) folder.now format result (Some (concat self.old.ahead))
            (Some (concat self.new.ahead)) }
        ensures kept { self.new.files ≡ self.old.files }
        ensures later { self.old.faults ≤ self.new.faults }
        ensures cause { OnErr result (Rose self.old.faults self.new.faults) }
        ensures counted { IsCounted (is_err result) (Some self.old.faults) (Some self.new.faults) }
        ensures answer { result ≡ begin_of self.old folder.now format }
        ensures after { self.new ≡ after_begin self.old folder.now format }
    {
        self.count_call()?;
        match find_wanted(self.files, folder, format) {
            Ok(places) => {
                self.read_at(places);
                Ok(None)
            }
            Err(number) => Ok(Some(number)),
        }
    }

    fn holds(&self, dump: &[u8], track: TrackId) -> bool {
        has_track(self.files, dump, track)
    }

    fn kind_of(&self, dump: &[u8]) -> DumpKind {
        kind_in(self.files, dump)
    }

    fn open_file(&mut self, dump: &[u8], track: TrackId) -> Result<Option<MemoryShelf<'a>>, Failed>
        ensures opened { Opens (λ (file : ShelfState). Some (concat file.ahead)) (Some self.old.files)
            (path_text dump.now track) result }
        ensures sound { NoneFailed (λ (file : ShelfState). file.faults) result }
        ensures fresh { CountsFromNone (λ (file : ShelfState). Some file.faults) (Some self.old.faults) result }
        ensures left { Some (concat self.new.ahead) ≡ Some (concat self.old.ahead) }
        ensures kept { Some self.new.files ≡ Some self.old.files }
        ensures later { self.old.faults ≤ self.new.faults }
        ensures cause { OnErr result (Rose self.old.faults self.new.faults) }
        ensures counted { IsCounted (is_err result) (Some self.old.faults) (Some self.new.faults) }
        ensures answer { result ≡ open_of self.old (path_text dump.now track) 0 }
        ensures after { self.new ≡ after_open self.old }
    {
        self.open(&TrackPath::of_dump(dump, track), 0)
    }

    fn open_at(&mut self, path: &[u8], offset: u64) -> Result<Option<MemoryShelf<'a>>, Failed>
        ensures opened { OpensAt (λ (file : ShelfState). Some (concat file.ahead)) (Some self.old.files) path.now offset
            result }
        ensures sound { NoneFailed (λ (file : ShelfState). file.faults) result }
        ensures fresh { CountsFromNone (λ (file : ShelfState). Some file.faults) (Some self.old.faults) result }
        ensures left { Some (concat self.new.ahead) ≡ Some (concat self.old.ahead) }
        ensures kept { Some self.new.files ≡ Some self.old.files }
        ensures later { self.old.faults ≤ self.new.faults }
        ensures cause { OnErr result (Rose self.old.faults self.new.faults) }
        ensures counted { IsCounted (is_err result) (Some self.old.faults) (Some self.new.faults) }
        ensures answer { result ≡ open_of self.old path.now offset }
        ensures after { self.new ≡ after_open self.old }
    {
        self.open(&TrackPath::whole(path), offset)
    }

    fn close_file(&mut self, file: MemoryShelf<'a>)
        ensures cause { Rose 0 file.entry.faults → Rose self.old.faults self.new.faults }
        ensures left { Some (concat self.new.ahead) ≡ Some (concat self.old.ahead) }
        ensures kept { Some self.new.files ≡ Some self.old.files }
        ensures later { self.old.faults ≤ self.new.faults }
        ensures counted { Some self.new.faults ≡ taken_over (Some file.entry.faults) (Some self.old.faults) }
        ensures after { self.new ≡ after_close self.old file.entry }
    {
        self.calls = self.calls.max(file.calls);
        self.faults = self.faults.saturating_add(file.faults);
    }

    ghost tells = { λ _. tt };
}
