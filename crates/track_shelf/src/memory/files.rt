//! Files in memory, and what lies under a dump's name among them.

ghost use Rattle.std.specs.Prelude.{◌≡◌, ℕ, List, ◌≤◌, ◌++◌, [], length, option_map, drop, take};
ghost use Rattle.std.specs.List.{cons_option, position_from};
ghost use Rattle.std.specs.Bool.{Decides};
ghost use Rattle.std.specs.Option.{is_some};
ghost use Rattle.track_shelf.specs.Files.{file_at, has_path};
ghost use Rattle.track_shelf.specs.DumpKinds.{kind_in, kind_of_folder, name_in, names_in};
ghost use Rattle.track_shelf.specs.Names.{folder_path};

use crate::kind::{DumpKind, Prefix};
use crate::path::{TrackPath, folder_end, is_scp, names_file};
use crate::scp::kind_of_scp;
use flux_base::TrackId;
use sector_report::Line;
use std::marker::Model;

/// A file of a dump. Its path is kept in two parts, so that no memory is taken to join them.
#[derive(Debug, Drop)]
pub struct ShelfFile {
    front: Vec<u8>,
    back: Line,
    bytes: Vec<u8>,
}

impl Model for ShelfFile {
    ghost use Rattle.std.specs.Prelude.{◌++◌};
    ghost use Rattle.track_shelf.specs.Files.{File};

    ghost Value = { File };

    ghost view = { λ file. record { path = file.front.items ++ file.back.bytes; bytes = file.bytes.items } };
}

impl ShelfFile {
    /// The file of a track, in a folder of this name.
    #[tactic(auto, unfolding(crate::specs::Names::folder_path))]
    pub fn new(folder: Vec<u8>, track: TrackId, bytes: Vec<u8>) -> ShelfFile
        ensures { result ≡ record { path = folder_path folder.items track; bytes = bytes.items } }
    {
        ShelfFile {
            front: folder,
            back: folder_end(track),
            bytes,
        }
    }

    /// The file of this path.
    pub fn at(path: Vec<u8>, bytes: Vec<u8>) -> ShelfFile
        ensures { result ≡ record { path = path.items; bytes = bytes.items } }
    {
        ShelfFile {
            front: path,
            back: Line::new(),
            bytes,
        }
    }

    /// Whether it is the file of this path.
    fn is_at(&self, path: &TrackPath) -> bool
        ensures { result ≡ has_path path.now self.now }
    {
        let (front, back) = path.parts();
        are_same(&self.front, self.back.as_str().as_bytes(), front, back)
    }

    /// Whether this is its path.
    pub(crate) fn is_named(&self, path: &[u8]) -> bool
        ensures { result ≡ has_path path.now self.now }
    {
        are_same(&self.front, self.back.as_str().as_bytes(), path, &[])
    }

    /// What stands in its path behind a folder and a slash, in two parts. None where it does not lie in the folder.
    fn name_in(&self, folder: &[u8]) -> Option<(&[u8], &[u8])>
        ensures { option_map (λ parts. parts.0.now ++ parts.1.now) result ≡ name_in folder.now self.now.path }
    {
        let (front, after) = cut(&self.front, folder.len() + 1);
        let (back, behind) = cut(
            self.back.as_str().as_bytes(),
            folder.len() + 1 - front.len(),
        );
        if are_same(front, back, folder, b"/") {
            Some((after, behind))
        } else {
            None
        }
    }

    pub(crate) fn bytes(&self) -> &[u8]
        ensures { result.now ≡ self.now.bytes }
    {
        &self.bytes
    }
}

/// The first bytes, so many or all of them, and the rest.
fn cut(bytes: &[u8], count: usize) -> (&[u8], &[u8])
    ensures front { result.0.now ≡ take count bytes.now }
    ensures back { result.1.now ≡ drop count bytes.now }
{
    bytes.split_at(bytes.len().min(count))
}

/// Whether two texts are the same, each of which comes in two parts.
fn are_same(front: &[u8], back: &[u8], other_front: &[u8], other_back: &[u8]) -> bool
    ensures { Decides result (front.now ++ back.now ≡ other_front.now ++ other_back.now) }
{
    if front.len() <= other_front.len() {
        goes_on(front, back, other_front, other_back)
    } else {
        goes_on(other_front, other_back, front, back)
    }
}

/// The same where the first front is not the longer one.
fn goes_on(short: &[u8], after_short: &[u8], long: &[u8], after_long: &[u8]) -> bool
    requires { length short.now ≤ length long.now }
    ensures { Decides result (short.now ++ after_short.now ≡ long.now ++ after_long.now) }
{
    let (same, rest) = long.split_at(short.len());
    if short != same {
        return false;
    }
    if after_short.len() < rest.len() {
        return false;
    }
    let (middle, end) = after_short.split_at(rest.len());
    if middle != rest {
        return false;
    }
    end == after_long
}

/// Where the file of a path lies among the files.
pub(crate) fn place_of(files: &[ShelfFile], path: &TrackPath) -> Option<usize>
    ensures { result ≡ position_from (has_path path.now) 0 files.now }
{
    files.iter().position(|file| file.is_at(path))
}

/// Where the file of this path lies among the files.
fn place_at(files: &[ShelfFile], path: &[u8]) -> Option<usize>
    ensures { result ≡ position_from (has_path path.now) 0 files.now }
{
    files.iter().position(|file| file.is_named(path))
}

/// Whether a file has this path.
fn is_there(files: &[ShelfFile], path: &[u8]) -> bool
    ensures { result ≡ is_some (file_at files.now path.now) }
{
    place_at(files, path).is_some()
}

/// What lies under a dump's name.
#[tactic(auto, unfolding(crate::specs::DumpKinds::kind_in))]
pub(super) fn kind_in(files: &[ShelfFile], dump: &[u8]) -> DumpKind
    ensures { result ≡ kind_in files.now dump.now }
{
    let is_there = is_there(files, dump);
    if names_file(dump) {
        if is_there {
            DumpKind::OtherTracks
        } else {
            DumpKind::NotThere
        }
    } else if is_scp(dump) {
        kind_of_scp(files, dump)
    } else if is_there {
        DumpKind::AFile
    } else {
        kind_of_folder(files, dump)
    }
}

/// What a folder is by the files that lie in it.
fn kind_of_folder(files: &[ShelfFile], folder: &[u8]) -> DumpKind
    ensures { result ≡ kind_of_folder (names_in files.now folder.now) }
{
    let mut kind = DumpKind::NotThere;
    for file in files {
        kind = with_file(kind, file, folder);
    }
    kind
}

/// The same with one file more.
fn with_file(kind: DumpKind, file: &ShelfFile, folder: &[u8]) -> DumpKind
    ensures { (names : List (List ℕ)) → kind ≡ kind_of_folder names
        → result ≡ kind_of_folder (names ++ cons_option (name_in folder.now file.now.path) []) }
{
    match file.name_in(folder) {
        Some((front, back)) => kind.with_prefix(Prefix::of_parts(front, back)),
        None => kind,
    }
}
