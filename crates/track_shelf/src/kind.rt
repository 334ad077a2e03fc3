//! What lies under the name of a dump that has none of the files that are asked for.

ghost use Rattle.std.specs.Prelude.{◌≡◌, ◌++◌, ◌∷◌, if◌then◌else◌, [], List, ℕ, Some, None, codes};
ghost use Rattle.std.specs.List.{list_all};
ghost use Rattle.std.specs.Str.{bytes_eq};
ghost use Rattle.track_shelf.specs.DumpKinds.{is_plain, is_prefix, kind_of_folder, prefix_of};

use crate::path::{ENDING_SIZE, names_file};
use arrayvec::{ArrayString, ArrayVec};
use scp_files::ScpFault;
use std::marker::Model;

/// The most bytes of a prefix: a system's names have at most 255.
const MOST_PREFIX: usize = 247;

/// The most bytes of a name that has a prefix.
const MOST_NAME: usize = 255;

/// What stands before `CC.H.raw` in the names of a dump's files: a text of 1 to 247 bytes, with no slash and no control
/// character. Contracts see it as its bytes.
#[derive(Debug, Drop)]
pub struct Prefix {
    text: ArrayString<MOST_PREFIX>,
}

impl Model for Prefix {
    ghost use Rattle.std.specs.Prelude.{ℕ, List};

    ghost Value = { List ℕ };

    ghost view = { λ prefix. prefix.text.bytes };
}

impl Prefix {
    /// The prefix in a file's name. None where the name does not end as that of a track's file (two digits, a point, 0
    /// or 1, `.raw`, and something before them), and where what stands before is no such text.
    #[tactic(auto, unfolding(crate::specs::DumpKinds::prefix_of))]
    pub fn of_name(name: &[u8]) -> Option<Prefix>
        ensures { result ≡ prefix_of name.now }
    {
        if !names_file(name) {
            return None;
        }
        Prefix::of_text(&name[..name.len() - ENDING_SIZE])
    }

    /// The prefix in a file's name that comes in two parts.
    pub(crate) fn of_parts(front: &[u8], back: &[u8]) -> Option<Prefix>
        ensures { result ≡ prefix_of (front.now ++ back.now) }
    {
        let mut name = ArrayVec::<u8, MOST_NAME>::new();
        let Ok(()) = name.try_extend_from_slice(front) else {
            return None;
        };
        match name.try_extend_from_slice(back) {
            Ok(()) => Prefix::of_name(&name),
            Err(_) => None,
        }
    }

    /// The text, if it is one that stands before an ending.
    fn of_text(bytes: &[u8]) -> Option<Prefix>
        ensures { result ≡ (if is_prefix bytes.now then Some bytes.now else None) }
    {
        if !are_plain(bytes) {
            return None;
        }
        let Ok(text) = str::from_utf8(bytes) else {
            return None;
        };
        let mut prefix = ArrayString::new();
        match prefix.try_push_str(text) {
            Ok(()) => Some(Prefix { text: prefix }),
            Err(_) => None,
        }
    }

    /// Whether files `trackCC.H.raw` have it.
    fn is_track(&self) -> bool
        ensures { result ≡ bytes_eq (codes "track") self.now }
    {
        "track" == self.as_str()
    }

    /// The text.
    pub fn as_str(&self) -> &str
        ensures { result.now ≡ self.now }
    {
        self.text.as_str()
    }
}

/// Whether no byte is a control character or a slash.
fn are_plain(bytes: &[u8]) -> bool
    ensures { result ≡ list_all is_plain bytes.now }
{
    bytes.iter().all(|byte| is_plain(*byte))
}

/// Whether it is no control character, and no slash.
fn is_plain(byte: u8) -> bool
    ensures { result ≡ is_plain byte }
{
    byte >= 32 && byte != 127 && byte != b'/'
}

/// What lies under a dump's name.
#[derive(Debug, Drop)]
pub enum DumpKind {
    /// Nothing.
    NotThere,
    /// A file, which is no track's by its name.
    AFile,
    /// A folder without files `trackCC.H.raw`, and without files of a dump of another name.
    NoFiles,
    /// Files of tracks: the dump is named by one, or it is a folder in which are files `trackCC.H.raw`. Or an SCP file.
    OtherTracks,
    /// A folder without files `trackCC.H.raw`, but with files `PREFIXCC.H.raw`.
    Named(Prefix),
    /// An SCP file that has no tracks, for this fault.
    RefusedScp(ScpFault),
    /// It cannot be looked at.
    Unknown,
}

impl DumpKind {
    /// What a folder is that holds one file more, of this name.
    pub fn with_name(self, name: &[u8]) -> DumpKind
        ensures { (names : List (List ℕ)) → self ≡ kind_of_folder names
            → result ≡ kind_of_folder (names ++ name.now ∷ []) }
    {
        self.with_prefix(Prefix::of_name(name))
    }

    /// The same, by the prefix in that name.
    pub(crate) fn with_prefix(self, prefix: Option<Prefix>) -> DumpKind
        ensures { (name : List ℕ) (names : List (List ℕ)) → prefix ≡ prefix_of name → self ≡ kind_of_folder names
            → result ≡ kind_of_folder (names ++ name ∷ []) }
    {
        let Some(prefix) = prefix else {
            return match self {
                DumpKind::NotThere => DumpKind::NoFiles,
                DumpKind::AFile => DumpKind::AFile,
                DumpKind::NoFiles => DumpKind::NoFiles,
                DumpKind::OtherTracks => DumpKind::OtherTracks,
                DumpKind::Named(first) => DumpKind::Named(first),
                DumpKind::RefusedScp(fault) => DumpKind::RefusedScp(fault),
                DumpKind::Unknown => DumpKind::Unknown,
            };
        };
        if prefix.is_track() {
            return DumpKind::OtherTracks;
        }
        match self {
            DumpKind::OtherTracks => DumpKind::OtherTracks,
            DumpKind::Named(earlier) => DumpKind::Named(earlier),
            DumpKind::NotThere | DumpKind::AFile | DumpKind::NoFiles | DumpKind::Unknown => {
                DumpKind::Named(prefix)
            }
            DumpKind::RefusedScp(_) => DumpKind::Named(prefix),
        }
    }
}
