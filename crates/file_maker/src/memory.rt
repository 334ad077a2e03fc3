ghost use Rattle.std.specs.Prelude.{◌≡◌, ◌++◌, [], Some, IfOk};
ghost use Rattle.std.specs.Bool.{Decides};
ghost use Rattle.std.specs.List.{list_any};
ghost use Rattle.std.specs.Str.{bytes_eq};
ghost use Rattle.flux_base.specs.Counts.{Counts};
ghost use Rattle.flux_base.specs.Outside.{risen};
ghost use Rattle.track_shelf.specs.Files.{has_path};
ghost use Rattle.file_maker.specs.Made.{IsNew, has_folder, made_folder, made_open, path_in};
ghost use Rattle.file_maker.specs.Memory.{FileState, told_counts};

use crate::maker::FileMaker;
use crate::path::{file_path, folder_path};
use flux_base::{Failed, Memory, Sink};
use std::alloc::Global;
use std::marker::Model;
use track_shelf::Path;

/// A file that lies in memory.
#[derive(Debug, Drop)]
pub struct MadeFile {
    path: Path,
    bytes: Vec<u8>,
}

impl Model for MadeFile {
    ghost use Rattle.track_shelf.specs.Files.{File};

    ghost Value = { File };

    ghost view = { λ file. record { path = file.path.bytes; bytes = file.bytes.items } };
}

impl MadeFile {
    pub fn path(&self) -> &str
        ensures { result.now ≡ self.now.path }
    {
        self.path.as_str()
    }

    pub fn bytes(&self) -> &[u8]
        ensures { result.now ≡ self.now.bytes }
    {
        &self.bytes
    }

    /// Whether it is the file of this name in the folder.
    fn is_at(&self, folder: &[u8], name: &str) -> bool
        ensures { result ≡ has_path (path_in folder.now name.now) self.now }
    {
        is_path(self.path.as_str().as_bytes(), folder, name.as_bytes())
    }

    fn is_named(&self, path: &[u8]) -> bool
        ensures { result ≡ has_path path.now self.now }
    {
        self.path.as_str().as_bytes() == path
    }
}

/// Whether it is the path of this name in the folder.
fn is_path(path: &[u8], folder: &[u8], name: &[u8]) -> bool
    ensures { Decides result (path.now ≡ path_in folder.now name.now) }
{
    match path.strip_prefix(folder) {
        Some(rest) => is_joined(rest, b"/", name),
        None => false,
    }
}

/// Whether the bytes are these two parts.
fn is_joined(bytes: &[u8], front: &[u8], back: &[u8]) -> bool
    ensures { Decides result (bytes.now ≡ front.now ++ back.now) }
{
    match bytes.strip_prefix(front) {
        Some(rest) => rest == back,
        None => false,
    }
}

/// Whether a file of this name is among these in the folder.
fn is_among(files: &[MadeFile], folder: &[u8], name: &str) -> bool
    ensures { result ≡ list_any (has_path (path_in folder.now name.now)) files.now }
{
    files.iter().any(|file| file.is_at(folder, name))
}

/// Whether a folder is among these.
fn is_folder(folders: &[Path], folder: &[u8]) -> bool
    ensures { result ≡ list_any (λ path. bytes_eq folder.now path.bytes) folders.now }
{
    folders
        .iter()
        .any(|path| folder == path.as_str().as_bytes())
}

/// A file in memory that is written. It takes as much as fits in the room that was taken for it. The calls whose
/// numbers, counted on from its maker's, are on the maker's list, and those with a piece that is not empty for which no
/// room is left, answer `Failed` and are counted as faults.
#[derive(Debug, Drop)]
pub struct MemoryFile<'a> {
    bytes: Vec<u8>,
    failing: &'a [u64],
    calls: u64,
    faults: u64,
}

impl<'a> Model for MemoryFile<'a> {
    ghost use Rattle.file_maker.specs.Memory.{FileState};

    ghost Value = { FileState };

    ghost view = { λ f. record { written = f.bytes.items; calls = f.calls; faults = f.faults } };
}

impl<'a> Sink for MemoryFile<'a> {
    ghost written = { λ f. Some f.written };

    ghost faults = { λ f. f.faults };

    ghost failed = { λ f. Some f.faults };

    fn write(&mut self, piece: &[u8]) -> Result<usize, Failed> {
        let failing = self.failing.contains(&self.calls);
        self.calls = self.calls.saturating_add(1);
        let left = self.bytes.capacity() - self.bytes.len();
        if failing || (!piece.is_empty() && left == 0) {
            self.faults = self.faults.saturating_add(1);
            return Err(Failed);
        }
        let taken = piece.len().min(left);
        match self.bytes.extend_from_slice(&piece[..taken]) {
            Ok(()) => Ok(taken),
            Err(_) => unreachable!(),
        }
    }
}

/// A maker whose folders and files lie in memory, in a room that is taken at the start. At first nothing lies there. A
/// folder is not made where a file is, nor a file in a folder that is not there, nor two files at once. The calls of
/// `make_folder`, `make_file` and of `write` of its files whose numbers, from 0, are on a list, and those for which no
/// room is left, answer `Failed` and are counted as faults.
#[derive(Debug, Drop)]
pub struct MemoryMaker<'a> {
    folders: Vec<Path>,
    files: Vec<MadeFile>,
    /// The path of the file that is open.
    opened: Option<Path>,
    /// To these the next files are written.
    spare: Vec<Vec<u8>>,
    failing: &'a [u64],
    calls: u64,
    faults: u64,
}

impl<'a> Model for MemoryMaker<'a> {
    ghost use Rattle.std.specs.Prelude.{◌+◌, ◌≤◌, [], List, length, map, option_map, vec_capacity, vec_len};
    ghost use Rattle.std.specs.List.{cons_option};
    ghost use Rattle.file_maker.specs.Memory.{MakerState};

    ghost Value = { MakerState };

    ghost view = { λ m. record {
      made = record {
        folders = map (λ path. path.bytes) m.folders.items;
        files = m.files.items;
        opened = cons_option (option_map (λ path. path.bytes) m.opened) [];
      };
      calls = m.calls;
      faults = m.faults;
    } };

    ghost invariant = { λ m.
        vec_len m.files + length (cons_option (option_map (λ path. path.bytes) m.opened) []) + vec_len m.spare
        ≤ vec_capacity m.files };
}

impl<'a> MemoryMaker<'a> {
    /// Room for so many files, each of so many bytes, and for as many folders.
    pub fn new(
        alloc: Global,
        count: usize,
        size: usize,
        failing: &'a [u64],
    ) -> Result<MemoryMaker<'a>, Memory>
        ensures { IfOk result
            (λ maker.
            maker ≡ record { made = record { folders = []; files = []; opened = [] }; calls = 0; faults = 0 }) }
    {
        let mut spare = Vec::with_capacity(alloc, count)?;
        for _ in 0..count {
            spare.push(Vec::with_capacity(alloc, size)?)?;
        }
        Ok(MemoryMaker {
            folders: Vec::with_capacity(alloc, count)?,
            files: Vec::with_capacity(alloc, count)?,
            opened: None,
            spare,
            failing,
            calls: 0,
            faults: 0,
        })
    }

    /// The files that were made and closed, in their order.
    pub fn files(&self) -> &[MadeFile]
        ensures { result.now ≡ self.now.made.files }
    {
        &self.files
    }

    /// Whether a folder is there.
    pub fn has_folder(&self, folder: &[u8]) -> bool
        ensures { result ≡ has_folder folder.now self.now.made.folders }
    {
        is_folder(&self.folders, folder)
    }

    /// Counts a call. Says whether it is to fail.
    fn counts_call(&mut self) -> bool
        ensures { self.new ≡ record self.old { calls = risen self.old.calls } }
    {
        let failing = self.failing.contains(&self.calls);
        self.calls = self.calls.saturating_add(1);
        failing
    }

    /// Counts a call that failed as a fault.
    fn count_if(&mut self, failed: bool)
        ensures made { self.new.made ≡ self.old.made }
        ensures counts { Counts failed (told_counts self.old.faults) (told_counts self.new.faults) }
    {
        if failed {
            self.faults = self.faults.saturating_add(1);
        }
    }

    /// Puts a folder there, where it is not.
    #[tactic(auto, unfolding(crate::specs::Made::with_folder))]
    fn put_folder(&mut self, folder: &[u8]) -> Result<(), Failed>
        ensures made { self.new.made ≡ made_folder folder.now result self.old.made }
        ensures faults { self.new.faults ≡ self.old.faults }
    {
        if self.has_folder(folder) {
            return Ok(());
        }
        if self.files.iter().any(|file| file.is_named(folder)) {
            return Err(Failed);
        }
        let Some(path) = folder_path(folder) else {
            return Err(Failed);
        };
        match self.folders.push(path) {
            Ok(()) => Ok(()),
            Err(_) => Err(Failed),
        }
    }

    /// Opens a new file of this name.
    fn open_new(&mut self, folder: &[u8], name: &str) -> Result<MemoryFile<'a>, Failed>
        ensures new { IsNew (λ (file : FileState). Some file.written) (Some self.old.made) (path_in folder.now name.now)
            result }
        ensures made { self.new.made ≡ made_open (path_in folder.now name.now) result self.old.made }
        ensures fresh { IfOk result (λ file. file.faults ≡ 0) }
        ensures faults { self.new.faults ≡ self.old.faults }
    {
        if self.opened.is_some() || !self.has_folder(folder) || self.has_file(folder, name) {
            return Err(Failed);
        }
        let Some(path) = file_path(folder, name) else {
            return Err(Failed);
        };
        let Some(spare) = self.spare.pop() else {
            return Err(Failed);
        };
        let mut bytes = spare;
        bytes.clear();
        self.opened = Some(path);
        Ok(MemoryFile {
            bytes,
            failing: self.failing,
            calls: self.calls,
            faults: 0,
        })
    }
}

impl<'a> FileMaker for MemoryMaker<'a> {
    type File = MemoryFile<'a>;

    ghost made = { λ m. Some m.made };

    ghost faults = { λ m. m.faults };

    ghost failed = { λ m. Some m.faults };

    fn make_folder(&mut self, folder: &[u8]) -> Result<(), Failed> {
        let answer = if self.counts_call() {
            Err(Failed)
        } else {
            self.put_folder(folder)
        };
        self.count_if(answer.is_err());
        answer
    }

    fn has_folder(&self, folder: &[u8]) -> bool {
        is_folder(&self.folders, folder)
    }

    fn has_file(&self, folder: &[u8], name: &str) -> bool {
        is_among(&self.files, folder, name)
    }

    fn make_file(&mut self, folder: &[u8], name: &str) -> Result<MemoryFile<'a>, Failed> {
        let answer = if self.counts_call() {
            Err(Failed)
        } else {
            self.open_new(folder, name)
        };
        self.count_if(answer.is_err());
        answer
    }

    fn close_file(&mut self, file: MemoryFile<'a>) {
        self.calls = self.calls.max(file.calls);
        self.faults = self.faults.saturating_add(file.faults);
        let Some(path) = self.opened.take() else {
            return;
        };
        match self.files.push(MadeFile {
            path,
            bytes: file.bytes,
        }) {
            Ok(()) => {}
            Err(_) => unreachable!(),
        }
    }
}
