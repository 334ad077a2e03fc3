//! The words that ask to show a sector of dumps.

ghost use Rattle.std.specs.Prelude.{◌≡◌, ◌≢◌, ◌<◌, ◌≤◌, ◌-◌, ◌++◌, ℕ, IfSome, List, MatchOption, length};
ghost use Rattle.std.specs.Bool.{Decides};
ghost use Rattle.std.specs.Option.{option_map};
ghost use Rattle.flux_words.specs.Names.{Names};
ghost use Rattle.flux_words.specs.inside.OptionWords.{FollowOptions};
ghost use Rattle.flux_words.specs.SectorWords.{AreDigitsOf, ArePlaceWords, AreSectorWords, IsSectorWord, IsTrackWord};
ghost use Rattle.flux_words.specs.SectorWords.{NamesSector, NamesTrack, ReportsNameThem, asked_sector, sector_options};
ghost use Rattle.disk_recordings.specs.TrackSectors.{sectors_of as sectors_in, track_at};
ghost use Rattle.sector_images.specs.Places.{tracks};

use crate::dump_words::are_readable;
use crate::options::{Options, Shown, options_in};
use crate::seed::number_of;
use disk_recordings::sectors_of;
use flux_base::{TrackId, Word};
use sector_images::{Format, track_count, track_id, tracks_keep_bounds, words_name_formats};
use sector_report::{Line, put, put_u32};
use track_shelf::Stepping;

/// The most digits of a cylinder.
const CYLINDER_DIGITS: usize = 2;

/// The most digits of a sector.
const SECTOR_DIGITS: usize = 3;

/// What is asked of one sector of dumps.
#[derive(Clone, Copy)]
pub struct ShowAsked<'a> {
    pub stepping: Stepping,
    /// The content that is asked for alone, by its number from 0.
    pub alone: Option<u32>,
    pub format: Format,
    /// The number of the track among the format's.
    pub number: u32,
    pub sector: u8,
    /// The dumps by their names, 1 to 8 of them, each a folder or one of its files.
    pub dumps: &'a [Word],
}

/// What the words behind the verb's ask for: `[--double-step] [--copy N] FORMAT TRACK SECTOR DUMP...`, with the options
/// in either order, and the track and the sector as people write them: `5.1` or `05.1`, and `4`, `04` or `004`.
pub(crate) fn asked_behind(words: &[Word]) -> Option<ShowAsked<'_>>
    ensures { Names (AreSectorWords words.now) (option_map asked_sector result) }
{
    words_name_formats();
    let (options, rest) = options_in(words);
    asked_with(options, rest)
}

/// What the words from the format's on ask for. A picture is shown of whole disks only.
fn asked_with(options: Options, words: &[Word]) -> Option<ShowAsked<'_>>
    ensures { Names (FollowOptions sector_options ArePlaceWords options words.now) (option_map asked_sector result) }
{
    words_name_formats();
    let Shown::Image = options.shown else {
        return None;
    };
    let [word, track, sector, dumps @ ..] = words else {
        return None;
    };
    let Some(format) = Format::of_word(word.bytes()) else {
        return None;
    };
    let Some(number) = track_number(format, track.bytes()) else {
        return None;
    };
    let Some(sector) = sector_number(format, number, sector.bytes()) else {
        return None;
    };
    are_readable(dumps, options.stepping, format).then_some(ShowAsked {
        stepping: options.stepping,
        alone: options.alone,
        format,
        number,
        sector,
        dumps,
    })
}

/// The number of the track that a word names.
fn track_number(format: Format, word: &[u8]) -> Option<u32>
    ensures { NamesTrack format word.now result }
{
    tracks_keep_bounds();
    for number in 0..track_count(format) {
        if is_track_word(track_id(format, number), word) {
            return Some(number);
        }
    }
    None
}

/// Whether a word names a track: one or two digits of its cylinder, a dot, and its head.
fn is_track_word(track: TrackId, word: &[u8]) -> bool
    ensures { Decides result (IsTrackWord track word.now) }
{
    let mut head = Line::new();
    put(&mut head, ".");
    put_u32(&mut head, u32::from(track.head));
    match before(head.as_str().as_bytes(), word) {
        Some(cylinder) => are_digits_of(u32::from(track.cylinder), CYLINDER_DIGITS, cylinder),
        None => false,
    }
}

/// What stands before an ending, where a word has it.
fn before<'a>(ending: &[u8], word: &'a [u8]) -> Option<&'a [u8]>
    ensures { MatchOption result ((front : List ℕ) → word.now ≢ front ++ ending.now)
        (λ front. word.now ≡ front.now ++ ending.now) }
{
    word.strip_suffix(ending)
}

/// The sector of a track that a word names.
fn sector_number(format: Format, number: u32, word: &[u8]) -> Option<u8>
    requires { number < length (tracks format) }
    ensures names { NamesSector format number word.now
        (option_map (λ sector. sector - (sectors_in format (track_at format number)).first) result) }
    ensures least { IfSome result (λ sector. (sectors_in format (track_at format number)).first ≤ sector) }
{
    tracks_keep_bounds();
    let sectors = sectors_of(format, track_id(format, number));
    for index in 0..sectors.count {
        if is_sector_word(sectors.first + index, word) {
            return Some(sectors.first + index);
        }
    }
    None
}

/// Whether a word names a sector: one to three digits.
fn is_sector_word(sector: u8, word: &[u8]) -> bool
    ensures { Decides result (IsSectorWord sector word.now) }
{
    are_digits_of(u32::from(sector), SECTOR_DIGITS, word)
}

/// Whether digits, at most so many, write a number.
fn are_digits_of(number: u32, most: usize, word: &[u8]) -> bool
    ensures { Decides result (AreDigitsOf number most word.now) }
{
    match number_of(word) {
        Some(written) => written == number && word.len() <= most,
        None => false,
    }
}

/// What reports print of tracks and sectors is taken.
pub fn reports_name_them()
    ensures { ReportsNameThem }
{}
