//! The words that ask for any IBM disk of its dumps.

ghost use Rattle.std.specs.Prelude.{◌≡◌};
ghost use Rattle.std.specs.Bool.{Decides};
ghost use Rattle.std.specs.Option.{option_map};
ghost use Rattle.flux_words.specs.ImdWords.{AreImdWords, AreNamed, asked_imd, asked_in};
ghost use Rattle.flux_words.specs.Names.{Names};

use crate::dump_words::{MOST_DUMPS, has_nameless};
use flux_base::Word;
use track_shelf::Stepping;

/// What is asked of dumps without a format.
#[derive(Clone, Copy)]
pub struct ImdAsked<'a> {
    pub stepping: Stepping,
    /// The dumps by their names, 1 to 8 of them, each a folder or one of its files.
    pub dumps: &'a [Word],
}

/// What the words behind the verb's ask for: `[--double-step] DUMP...`.
pub(crate) fn imd_asked(others: &[Word]) -> Option<ImdAsked<'_>>
    ensures { Names (AreImdWords others.now) (option_map asked_imd result) }
{
    let asked = steps_in(others);
    if are_named(asked.dumps) {
        Some(asked)
    } else {
        None
    }
}

/// The steps of the drive, and the words behind the option.
pub(crate) fn steps_in(others: &[Word]) -> ImdAsked<'_>
    ensures { asked_imd result ≡ asked_in others.now }
{
    match others {
        [first, dumps @ ..] if first.bytes() == b"--double-step".as_slice() => ImdAsked {
            stepping: Stepping::Double,
            dumps,
        },
        dumps => ImdAsked {
            stepping: Stepping::Single,
            dumps,
        },
    }
}

/// Whether there are 1 to 8 dumps, each with a name.
pub(crate) fn are_named(dumps: &[Word]) -> bool
    ensures { Decides result (AreNamed dumps.now) }
{
    !dumps.is_empty() && dumps.len() <= MOST_DUMPS && !has_nameless(dumps)
}
