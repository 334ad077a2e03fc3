ghost use Rattle.std.specs.Prelude.{◌≡◌, ◌⊎◌, ◌<◌, [], ◌++◌, length, IfNone, IfSome};
ghost use Rattle.std.specs.Str.{IsUtf8};
ghost use Rattle.track_shelf.specs.Names.{folder_path, is_digit, is_ending, is_scp, names_file, path_text};

use crate::names::{put_ending, put_file_name};
use arrayvec::ArrayString;
use flux_base::TrackId;
use sector_report::{Line, put};
use std::marker::Model;

/// A path of at most 4096 bytes.
pub type Path = ArrayString<4096>;

/// How many bytes the ending of a file's name has, `CC.H.raw`.
pub(crate) const ENDING_SIZE: usize = 8;

/// How the name of an SCP file ends.
const SCP_ENDING: &[u8] = b".scp";

/// The path of a track's file, which takes no memory of its own: a part of the dump's name,
/// and what the track adds to it. Or any path, to which nothing is added.
#[derive(Debug, Drop)]
pub struct TrackPath<'a> {
    front: &'a [u8],
    back: Line,
}

impl<'a> Model for TrackPath<'a> {
    ghost use Rattle.std.specs.Prelude.{ℕ, List, ◌++◌};
    ghost use Rattle.std.specs.Str.{IsUtf8};

    ghost Value = { List ℕ };

    ghost view = { λ path. path.front.now ++ path.back.bytes };

    ghost invariant = { λ path. IsUtf8 path.back.bytes };
}

impl<'a> TrackPath<'a> {
    /// In a folder: `FOLDER/trackCC.H.raw`.
    #[tactic(auto, unfolding(crate::specs::Names::folder_path))]
    pub fn in_folder(folder: &'a [u8], track: TrackId) -> TrackPath<'a>
        ensures { result ≡ folder_path folder.now track }
    {
        TrackPath {
            front: folder,
            back: folder_end(track),
        }
    }

    /// In a dump. A dump whose name ends like that of a track's file (two digits, a point, 0 or 1, `.raw`, and
    /// something before them) has all its files beside this one, `PREFIXCC.H.raw`. One whose name ends with `.scp` is
    /// one file. Any other is a folder.
    #[tactic(auto, unfolding(crate::specs::Names::path_text))]
    pub fn of_dump(dump: &'a [u8], track: TrackId) -> TrackPath<'a>
        ensures { result ≡ path_text dump.now track }
    {
        if names_file(dump) {
            let mut back = Line::new();
            put_ending(&mut back, track);
            TrackPath {
                front: &dump[..dump.len() - ENDING_SIZE],
                back,
            }
        } else if is_scp(dump) {
            TrackPath::whole(dump)
        } else {
            TrackPath::in_folder(dump, track)
        }
    }

    /// This path, as it is.
    pub fn whole(path: &'a [u8]) -> TrackPath<'a>
        ensures { result ≡ path.now }
    {
        TrackPath {
            front: path,
            back: Line::new(),
        }
    }

    /// The path as one text. None where it is longer than 4096 bytes, or the dump's name is no text.
    pub fn text(&self) -> Option<Path>
        ensures whole { IfSome result (λ text. text.bytes ≡ self.now) }
        ensures none { IfNone result ((4096 < length self.now) ⊎ (¬ (IsUtf8 self.now))) }
    {
        let Ok(front) = str::from_utf8(self.front) else {
            return None;
        };
        let mut path = Path::new();
        if path.try_push_str(front).is_err() {
            return None;
        }
        match path.try_push_str(self.back.as_str()) {
            Ok(()) => Some(path),
            Err(_) => None,
        }
    }

    /// The path in its two parts.
    pub(crate) fn parts(&self) -> (&[u8], &[u8])
        ensures { self.now ≡ result.0.now ++ result.1.now }
    {
        (self.front, self.back.as_str().as_bytes())
    }
}

/// What a track's path has behind its folder, `/trackCC.H.raw`.
#[tactic(auto, unfolding(crate::specs::Names::folder_path))]
pub(crate) fn folder_end(track: TrackId) -> Line
    ensures { result.bytes ≡ folder_path [] track }
{
    let mut end = Line::new();
    put(&mut end, "/");
    put_file_name(&mut end, track);
    end
}

/// Whether a dump is named by one of its files: whether its name ends like that of a track's
/// file, with something before that.
#[tactic(auto, unfolding(crate::specs::Names::names_file))]
pub fn names_file(dump: &[u8]) -> bool
    ensures { result ≡ names_file dump.now }
{
    if dump.len() <= ENDING_SIZE {
        return false;
    }
    is_ending(&dump[dump.len() - ENDING_SIZE..])
}

/// Whether a dump is an SCP file: whether its name ends with `.scp`, in letters of any case, with something before
/// that.
#[tactic(auto, unfolding(crate::specs::Names::is_scp))]
pub fn is_scp(dump: &[u8]) -> bool
    ensures { result ≡ is_scp dump.now }
{
    if dump.len() <= SCP_ENDING.len() {
        return false;
    }
    dump[dump.len() - SCP_ENDING.len()..].eq_ignore_ascii_case(SCP_ENDING)
}

/// Whether it is `CC.H.raw` for a cylinder and a head.
#[tactic(auto, unfolding(crate::specs::Names::is_ending))]
fn is_ending(bytes: &[u8]) -> bool
    ensures { result ≡ is_ending bytes.now }
{
    match bytes {
        [tens, ones, point, head, rest @ ..] => {
            is_digit(*tens)
                && is_digit(*ones)
                && *point == b'.'
                && (*head == b'0' || *head == b'1')
                && rest == b".raw".as_slice()
        }
        _ => false,
    }
}

fn is_digit(byte: u8) -> bool
    ensures { result ≡ is_digit byte }
{
    (b'0'..=b'9').contains(&byte)
}
