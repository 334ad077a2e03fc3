//! What the words behind each verb's ask for.

ghost use Rattle.std.specs.Prelude.{◌≡◌, ◌⊎◌, ◌↔◌, IsTrue, ℕ, List, IfNone, IfSome};
ghost use Rattle.std.specs.Option.{option_map};
ghost use Rattle.flux_help.specs.declared.verb.Verb.TheVariants.{Archive, DecodeFolder, DecodeSet, FromG64, Help};
ghost use Rattle.flux_help.specs.declared.verb.Verb.TheVariants.{Identify, Imd, Info, Read, Show, Split, ToG64};
ghost use Rattle.flux_help.specs.declared.verb.Verb.TheVariants.{Trial, Turns, Unpack, Write};
ghost use Rattle.flux_words.specs.Asked.{asked_of};
ghost use Rattle.flux_words.specs.CommandWords.{AreFilesWords, AreStreams, CanBeMade, IsDump, IsFormat};
ghost use Rattle.flux_words.specs.CommandWords.{IsFormatInFolder, IsFormatWith, IsOfHeads};
ghost use Rattle.flux_words.specs.inside.CommandWords.{AskBehind};
ghost use Rattle.flux_words.specs.G64Disks.{format_of};
ghost use Rattle.flux_words.specs.Names.{Names};
ghost use Rattle.flux_words.specs.declared.g64_disk.G64Disk.{G64Disk as Disk};
ghost use Rattle.sector_images.specs.declared.format.Format.{Format as Kind};

use crate::archive_words::archive_asked;
use crate::commands::{Command, Output, StreamsAsked, Way};
use crate::count::count_of;
use crate::g64_disk::G64Disk;
use crate::imd_words::imd_asked;
use crate::seed::seed_of;
use crate::{dump_words, sector_words};
use flux_base::Word;
use flux_help::{Page, Verb};
use sector_images::{Format, words_name_formats};
use stream_files::Heads;
use track_shelf::{is_scp, names_file};

/// A format alone.
fn format_in(others: &[Word]) -> Option<Format>
    ensures some { IfSome result (λ format. IsFormat format others.now) }
    ensures none { IfNone result ((format : Kind) → ¬ IsFormat format others.now) }
{
    match others {
        [word] => Format::of_word(word.bytes()),
        _ => None,
    }
}

/// A format and a last word.
fn format_with(others: &[Word]) -> Option<(Format, &Word)>
    ensures some { IfSome result (λ named. IsFormatWith named.0 named.1.now others.now) }
    ensures none { IfNone result ((format : Kind) (last : List ℕ) → ¬ IsFormatWith format last others.now) }
{
    match others {
        [word, last] => match Format::of_word(word.bytes()) {
            Some(format) => Some((format, last)),
            None => None,
        },
        _ => None,
    }
}

/// A folder, behind the option's word, and a format.
fn format_in_folder(others: &[Word]) -> Option<(Format, &Word)>
    ensures some { IfSome result (λ named. IsFormatInFolder named.0 named.1.now others.now) }
    ensures none { IfNone result ((format : Kind) (folder : List ℕ) → ¬ IsFormatInFolder format folder others.now) }
{
    match others {
        [option, folder, word] => {
            if option.bytes() == b"--folder".as_slice() {
                match Format::of_word(word.bytes()) {
                    Some(format) => Some((format, folder)),
                    None => None,
                }
            } else {
                None
            }
        }
        _ => None,
    }
}

/// A format alone, of a disk that there are G64 files of.
fn disk_in(others: &[Word]) -> Option<G64Disk>
    ensures some { IfSome result (λ disk. IsFormat (format_of disk) others.now) }
    ensures none { IfNone result ((disk : Disk) → ¬ IsFormat (format_of disk) others.now) }
{
    words_name_formats();
    match format_in(others) {
        Some(format) => G64Disk::of_format(format),
        None => None,
    }
}

pub(crate) fn turns_behind(others: &[Word]) -> Option<Command<'_>>
    ensures { AskBehind Turns others.now (option_map asked_of result) }
{
    if others.is_empty() {
        Some(Command::Turns)
    } else {
        None
    }
}

/// Streams that are read in this way, to this output.
pub(crate) fn streams_behind(way: Way, output: Output, others: &[Word]) -> Option<Command<'_>>
    ensures { Names (AreStreams way output others.now) (option_map asked_of result) }
{
    match format_in(others) {
        Some(format) => Some(Command::Streams(StreamsAsked {
            format,
            way,
            output,
        })),
        None => None,
    }
}

pub(crate) fn set_behind(others: &[Word]) -> Option<Command<'_>>
    ensures { AskBehind DecodeSet others.now (option_map asked_of result) }
{
    words_name_formats();
    let Some((format, number)) = format_with(others) else {
        return None;
    };
    match count_of(number.bytes()) {
        Some(count) => Some(Command::Streams(StreamsAsked {
            format,
            way: Way::Often(count),
            output: Output::ImageAndReport,
        })),
        None => None,
    }
}

pub(crate) fn folder_behind(others: &[Word]) -> Option<Command<'_>>
    ensures { AskBehind DecodeFolder others.now (option_map asked_of result) }
{
    words_name_formats();
    let Some((format, folder)) = format_with(others) else {
        return None;
    };
    if folder.bytes().is_empty() {
        None
    } else {
        Some(Command::Folder(format, folder))
    }
}

pub(crate) fn dumps_behind(others: &[Word]) -> Option<Command<'_>>
    ensures { AskBehind Read others.now (option_map asked_of result) }
{
    match dump_words::asked_behind(others) {
        Some(asked) => Some(Command::Dumps(asked)),
        None => None,
    }
}

pub(crate) fn sector_behind(others: &[Word]) -> Option<Command<'_>>
    ensures { AskBehind Show others.now (option_map asked_of result) }
{
    match sector_words::asked_behind(others) {
        Some(asked) => Some(Command::Sector(asked)),
        None => None,
    }
}

/// A dump alone.
fn dump_in(others: &[Word]) -> Option<&Word>
    ensures { Names (IsDump others.now) (option_map (λ dump. dump.now) result) }
{
    match others {
        [dump] => {
            if dump.bytes().is_empty() {
                None
            } else {
                Some(dump)
            }
        }
        _ => None,
    }
}

pub(crate) fn dump_behind(others: &[Word]) -> Option<Command<'_>>
    ensures { AskBehind Identify others.now (option_map asked_of result) }
{
    match dump_in(others) {
        Some(dump) => Some(Command::Identify(dump)),
        None => None,
    }
}

pub(crate) fn info_behind(others: &[Word]) -> Option<Command<'_>>
    ensures { AskBehind Info others.now (option_map asked_of result) }
{
    match dump_in(others) {
        Some(dump) => Some(Command::Info(dump)),
        None => None,
    }
}

pub(crate) fn imd_behind(others: &[Word]) -> Option<Command<'_>>
    ensures { AskBehind Imd others.now (option_map asked_of result) }
{
    match imd_asked(others) {
        Some(asked) => Some(Command::Imd(asked)),
        None => None,
    }
}

pub(crate) fn write_behind(others: &[Word]) -> Option<Command<'_>>
    ensures { AskBehind Write others.now (option_map asked_of result) }
{
    match format_in(others) {
        Some(format) => Some(Command::Write(format)),
        None => files_behind(others),
    }
}

/// The streams of an image's tracks as files of a folder.
fn files_behind(others: &[Word]) -> Option<Command<'_>>
    ensures { Names (AreFilesWords others.now) (option_map asked_of result) }
{
    words_name_formats();
    let Some((format, folder)) = format_in_folder(others) else {
        return None;
    };
    if can_be_made(folder) {
        Some(Command::WriteFiles(format, folder))
    } else {
        None
    }
}

/// Whether files can be made in a folder of this name.
fn can_be_made(folder: &Word) -> bool
    ensures yes { IsTrue result → CanBeMade folder.now }
    ensures no { CanBeMade folder.now → IsTrue result }
{
    let name = folder.bytes();
    if name.is_empty() {
        false
    } else {
        !(names_file(name) || is_scp(name))
    }
}

/// Joined streams as files of a folder.
pub(crate) fn split_behind(others: &[Word]) -> Option<Command<'_>>
    ensures { AskBehind Split others.now (option_map asked_of result) }
{
    let [folder, number] = others else {
        return None;
    };
    let Some(heads) = heads_of(number.bytes()) else {
        return None;
    };
    if can_be_made(folder) {
        Some(Command::Split(folder, heads))
    } else {
        None
    }
}

/// So many heads, if the word says how many.
fn heads_of(word: &[u8]) -> Option<Heads>
    ensures { Names (λ heads. IsOfHeads heads word.now) result }
{
    if word == b"1".as_slice() {
        Some(Heads::One)
    } else if word == b"2".as_slice() {
        Some(Heads::Two)
    } else {
        None
    }
}

/// The tracks of an SCP file as files of a folder.
pub(crate) fn unpack_behind(others: &[Word]) -> Option<Command<'_>>
    ensures { AskBehind Unpack others.now (option_map asked_of result) }
{
    let [file, folder] = others else {
        return None;
    };
    if file.bytes().is_empty() {
        None
    } else if can_be_made(folder) {
        Some(Command::Unpack(file, folder))
    } else {
        None
    }
}

/// All that is kept of a disk of its dumps, as files of a folder.
pub(crate) fn archive_behind(others: &[Word]) -> Option<Command<'_>>
    ensures { AskBehind Archive others.now (option_map asked_of result) }
{
    words_name_formats();
    let Some(asked) = archive_asked(others) else {
        return None;
    };
    if can_be_made(asked.folder) {
        Some(Command::Archive(asked))
    } else {
        None
    }
}

pub(crate) fn trial_behind(others: &[Word]) -> Option<Command<'_>>
    ensures { AskBehind Trial others.now (option_map asked_of result) }
{
    words_name_formats();
    let Some((format, number)) = format_with(others) else {
        return None;
    };
    match seed_of(number.bytes()) {
        Some(seed) => Some(Command::Trial(format, seed)),
        None => None,
    }
}

pub(crate) fn to_g64_behind(others: &[Word]) -> Option<Command<'_>>
    ensures { AskBehind ToG64 others.now (option_map asked_of result) }
{
    match disk_in(others) {
        Some(disk) => Some(Command::ToG64(disk)),
        None => None,
    }
}

pub(crate) fn from_g64_behind(others: &[Word]) -> Option<Command<'_>>
    ensures { AskBehind FromG64 others.now (option_map asked_of result) }
{
    match disk_in(others) {
        Some(disk) => Some(Command::FromG64(disk)),
        None => None,
    }
}

/// All that the program says of itself, or what it says of one command.
pub(crate) fn page_behind(others: &[Word]) -> Option<Command<'_>>
    ensures { AskBehind Help others.now (option_map asked_of result) }
{
    match others {
        [] => Some(Command::Tell(Page::Help)),
        [word] => match Verb::of_word(word.bytes()) {
            Some(verb) => Some(Command::Tell(Page::About(verb))),
            None => None,
        },
        _ => None,
    }
}
