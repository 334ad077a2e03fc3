//! The words that ask for all that is kept of a disk of its dumps.

ghost use Rattle.std.specs.Prelude.{◌≡◌, ℕ, List, Option};
ghost use Rattle.std.specs.Option.{option_map};
ghost use Rattle.flux_words.specs.ArchiveWords.{AreArchiveWords, IsNamedDisk, NamesDisk, asked_archive};
ghost use Rattle.flux_words.specs.Names.{Names};
ghost use Rattle.flux_words.specs.declared.archive_words.DiskAsked.{DiskAsked as Disk};

use crate::imd_words::{are_named, steps_in};
use flux_base::Word;
use sector_images::{Format, words_name_formats};
use track_shelf::Stepping;

/// What is asked of dumps of which all is to be kept.
#[derive(Clone, Copy)]
pub struct ArchiveAsked<'a> {
    /// The disk, if it is named.
    pub disk: Option<DiskAsked>,
    /// The folder that is made.
    pub folder: &'a Word,
    /// The dumps by their names, 1 to 8 of them, each a folder or one of its files.
    pub dumps: &'a [Word],
}

/// A disk by its format, and how its cylinders lie in a dump's files.
#[derive(Clone, Copy, Debug, PartialEq, Eq)]
pub struct DiskAsked {
    pub format: Format,
    pub stepping: Stepping,
}

/// What the words behind the verb's ask for: `[--format FORMAT [--double-step]] FOLDER DUMP...`.
pub(crate) fn archive_asked(others: &[Word]) -> Option<ArchiveAsked<'_>>
    ensures { Names (AreArchiveWords others.now) (option_map asked_archive result) }
{
    words_name_formats();
    let Some((disk, behind)) = disk_before(others) else {
        return None;
    };
    let Some((folder, dumps)) = behind.split_first() else {
        return None;
    };
    if are_named(dumps) {
        Some(ArchiveAsked {
            disk,
            folder,
            dumps,
        })
    } else {
        None
    }
}

/// Which disk is asked for, and the words behind.
fn disk_before(others: &[Word]) -> Option<(Option<DiskAsked>, &[Word])>
    ensures { Names {A = Option Disk × List (List ℕ)} (λ found. NamesDisk others.now found.0 found.1)
        (option_map (λ found. (found.0, found.1.now)) result) }
{
    match others {
        [option, word, rest @ ..] if option.bytes() == b"--format".as_slice() => match named_disk(
            word.bytes(),
            rest,
        ) {
            Some((disk, behind)) => Some((Some(disk), behind)),
            None => None,
        },
        words => Some((None, words)),
    }
}

/// The disk of this word, with the word of two steps behind it or not, and the words behind both.
fn named_disk<'a>(word: &[u8], rest: &'a [Word]) -> Option<(DiskAsked, &'a [Word])>
    ensures { Names {A = Disk × List (List ℕ)} (λ found. IsNamedDisk word.now rest.now found.0 found.1)
        (option_map (λ found. (found.0, found.1.now)) result) }
{
    words_name_formats();
    let Some(format) = Format::of_word(word) else {
        return None;
    };
    let asked = steps_in(rest);
    let stepping = asked.stepping;
    if stepping.reaches_all(format) {
        Some((DiskAsked { format, stepping }, asked.dumps))
    } else {
        None
    }
}
