//! The options before a format: each at most once, in any order.

ghost use Rattle.std.specs.Prelude.{◌≡◌, ◌<◌, decimal};
ghost use Rattle.std.specs.Bool.{Decides};
ghost use Rattle.std.specs.Option.{option_map};
ghost use Rattle.flux_words.specs.Names.{Names};
ghost use Rattle.flux_words.specs.OptionWords.{Adds, IsChoice, StandBefore, plain};
ghost use Rattle.flux_words.specs.inside.OptionWords.{AreAllOf, Behind, HasNumber, IsNext};

use flux_base::Word;
use sector_report::{Line, put_u32};
use track_shelf::Stepping;

/// How many contents are kept of a sector at most.
const MOST_COPIES: u32 = 16;

/// What is shown of the verdicts on a disk's sectors.
#[derive(Clone, Copy, Debug, PartialEq, Eq)]
pub enum Shown {
    /// The image, and the report in the notes.
    Image,
    /// A picture of the disk, in the image's place.
    Picture,
}

/// What options choose.
#[derive(Clone, Copy)]
pub(crate) struct Options {
    pub(crate) stepping: Stepping,
    pub(crate) shown: Shown,
    /// The content of a sector that is asked for alone, by its number from 0.
    pub(crate) alone: Option<u32>,
}

/// One option.
#[derive(Clone, Copy)]
pub(crate) enum Choice {
    DoubleStep,
    Picture,
    Copy(u32),
}

impl Options {
    /// Without any option.
    fn plain() -> Options
        ensures { result ≡ plain }
    {
        Options {
            stepping: Stepping::Single,
            shown: Shown::Image,
            alone: None,
        }
    }

    /// One option more, if it was not chosen yet.
    fn with(self, choice: Choice) -> Option<Options>
        ensures { Names (Adds choice self) result }
    {
        match choice {
            Choice::DoubleStep => match self.stepping {
                Stepping::Single => Some(Options {
                    stepping: Stepping::Double,
                    shown: self.shown,
                    alone: self.alone,
                }),
                Stepping::Double => None,
            },
            Choice::Picture => match self.shown {
                Shown::Image => Some(Options {
                    stepping: self.stepping,
                    shown: Shown::Picture,
                    alone: self.alone,
                }),
                Shown::Picture => None,
            },
            Choice::Copy(number) => match self.alone {
                None => Some(Options {
                    stepping: self.stepping,
                    shown: self.shown,
                    alone: Some(number),
                }),
                Some(_) => None,
            },
        }
    }
}

/// All options that stand first, and the words behind them.
pub(crate) fn options_in(words: &[Word]) -> (Options, &[Word])
    ensures there { StandBefore plain result.0 words.now result.1.now }
    ensures all { AreAllOf result.0 words.now result.1.now }
{
    let mut options = Options::plain();
    let mut rest = words;
    while let Some((more, behind)) = one_more(options, rest) {
        options = more;
        rest = behind;
    }
    (options, rest)
}

/// The options with the one that stands first, and the words behind it.
fn one_more(options: Options, words: &[Word]) -> Option<(Options, &[Word])>
    ensures { Names (Behind (IsNext options) words.now)
        (option_map (λ next. (next.0, next.1.now)) result) }
{
    let Some((choice, rest)) = choice_in(words) else {
        return None;
    };
    match options.with(choice) {
        Some(more) => Some((more, rest)),
        None => None,
    }
}

/// The option that stands first, and the words behind it.
fn choice_in(words: &[Word]) -> Option<(Choice, &[Word])>
    ensures { Names (Behind IsChoice words.now)
        (option_map (λ found. (found.0, found.1.now)) result) }
{
    let Some((word, rest)) = words.split_first() else {
        return None;
    };
    let word = word.bytes();
    if word == b"--double-step".as_slice() {
        Some((Choice::DoubleStep, rest))
    } else if word == b"--picture".as_slice() {
        Some((Choice::Picture, rest))
    } else if word == b"--copy".as_slice() {
        numbered(rest)
    } else {
        None
    }
}

/// The content alone whose number the first word is, and the words behind it.
fn numbered(words: &[Word]) -> Option<(Choice, &[Word])>
    ensures { Names (Behind HasNumber words.now)
        (option_map (λ found. (found.0, found.1.now)) result) }
{
    let Some((word, rest)) = words.split_first() else {
        return None;
    };
    match copy_number(word.bytes()) {
        Some(number) => Some((Choice::Copy(number), rest)),
        None => None,
    }
}

/// The number of a content that a word is.
fn copy_number(word: &[u8]) -> Option<u32>
    ensures { Names (λ number. (number < 16) × (decimal number ≡ word.now)) result }
{
    for number in 0..MOST_COPIES {
        if is_decimal(number, word) {
            return Some(number);
        }
    }
    None
}

/// Whether a word is a number.
fn is_decimal(number: u32, word: &[u8]) -> bool
    ensures { Decides result (decimal number ≡ word.now) }
{
    let mut line = Line::new();
    put_u32(&mut line, number);
    line.as_str().as_bytes() == word
}
