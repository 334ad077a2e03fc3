//! The words that ask to read dumps of a disk.

ghost use Rattle.std.specs.Prelude.{◌≡◌};
ghost use Rattle.std.specs.Bool.{Decides};
ghost use Rattle.std.specs.List.{list_any};
ghost use Rattle.std.specs.Option.{option_map};
ghost use Rattle.flux_words.specs.DumpWords.{AreDiskWords, AreDumpWords, AreReadable, asked_dumps, dump_options};
ghost use Rattle.flux_words.specs.DumpWords.{is_nameless};
ghost use Rattle.flux_words.specs.Names.{Names};
ghost use Rattle.flux_words.specs.inside.OptionWords.{FollowOptions};

use crate::options::{Options, Shown, options_in};
use flux_base::Word;
use sector_images::{Format, words_name_formats};
use track_shelf::Stepping;

/// How many dumps are read at most.
pub(crate) const MOST_DUMPS: usize = 8;

/// What is asked of dumps.
#[derive(Clone, Copy)]
pub struct DumpsAsked<'a> {
    pub stepping: Stepping,
    pub shown: Shown,
    /// The dumps by their names, 1 to 8 of them, each a folder or one of its files.
    pub dumps: &'a [Word],
    pub format: Format,
}

/// What the words behind the verb's ask for: `[--picture] [--double-step] FORMAT DUMP...`,
/// with the options in either order.
pub(crate) fn asked_behind(words: &[Word]) -> Option<DumpsAsked<'_>>
    ensures { Names (AreDumpWords words.now) (option_map asked_dumps result) }
{
    words_name_formats();
    let (options, rest) = options_in(words);
    asked_with(options, rest)
}

/// What the words from the format's on ask for. A content is asked for alone of sectors only.
fn asked_with(options: Options, words: &[Word]) -> Option<DumpsAsked<'_>>
    ensures { Names (FollowOptions dump_options AreDiskWords options words.now) (option_map asked_dumps result) }
{
    words_name_formats();
    let None = options.alone else {
        return None;
    };
    let Some((word, dumps)) = words.split_first() else {
        return None;
    };
    let Some(format) = Format::of_word(word.bytes()) else {
        return None;
    };
    are_readable(dumps, options.stepping, format).then_some(DumpsAsked {
        stepping: options.stepping,
        shown: options.shown,
        dumps,
        format,
    })
}

/// Whether there are 1 to 8 dumps, each with a name, and the drive that captured them reaches all tracks of the format.
pub(crate) fn are_readable(dumps: &[Word], stepping: Stepping, format: Format) -> bool
    ensures { Decides result (AreReadable dumps.now stepping format) }
{
    !dumps.is_empty()
        && dumps.len() <= MOST_DUMPS
        && !has_nameless(dumps)
        && stepping.reaches_all(format)
}

/// Whether a dump has no name.
pub(crate) fn has_nameless(dumps: &[Word]) -> bool
    ensures { result ≡ list_any is_nameless dumps.now }
{
    dumps.iter().any(|dump| dump.bytes().is_empty())
}
