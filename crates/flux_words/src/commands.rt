//! What the words of the command line ask for: the verb's word stands first.

ghost use Rattle.std.specs.Prelude.{IfNone, IfSome};
ghost use Rattle.std.specs.Option.{option_map};
ghost use Rattle.flux_help.specs.declared.page.Page.{Page as PageKind};
ghost use Rattle.flux_words.specs.Asked.{asked_of};
ghost use Rattle.flux_words.specs.CommandWords.{AskFor, AskOnce, IsDashed, IsPageWord};
ghost use Rattle.flux_words.specs.inside.CommandWords.{AskBehind};
ghost use Rattle.flux_words.specs.Names.{Names};

use crate::archive_words::ArchiveAsked;
use crate::behind::{
    archive_behind, dump_behind, dumps_behind, folder_behind, from_g64_behind, imd_behind,
    info_behind, page_behind, sector_behind, set_behind, split_behind, streams_behind,
    to_g64_behind, trial_behind, turns_behind, unpack_behind, write_behind,
};
use crate::dump_words::DumpsAsked;
use crate::g64_disk::G64Disk;
use crate::imd_words::ImdAsked;
use crate::sector_words::ShowAsked;
use flux_base::Word;
use flux_help::{Page, Verb};
use sector_images::{Format, words_name_formats};
use stream_files::Heads;

/// What the words ask for.
#[derive(Clone, Copy)]
pub enum Command<'a> {
    /// The transitions and the turns of one stream.
    Turns,
    /// A disk, from the streams of its tracks.
    Streams(StreamsAsked),
    /// The image of a disk, from the track files of a folder, and a report in the notes.
    Folder(Format, &'a Word),
    /// A disk, from dumps of it.
    Dumps(DumpsAsked<'a>),
    /// What dumps have of one sector.
    Sector(ShowAsked<'a>),
    /// Which disk a dump is of.
    Identify(&'a Word),
    /// What the files of a dump tell without any format.
    Info(&'a Word),
    /// Any IBM disk of its dumps, as a file of ImageDisk.
    Imd(ImdAsked<'a>),
    /// All that is kept of a disk of its dumps, as files of a folder.
    Archive(ArchiveAsked<'a>),
    /// The streams of a disk's tracks, from its image.
    Write(Format),
    /// The same as files of a folder.
    WriteFiles(Format, &'a Word),
    /// Joined streams as files of a folder, of a disk of so many heads.
    Split(&'a Word, Heads),
    /// The tracks of an SCP file as files of a folder.
    Unpack(&'a Word, &'a Word),
    /// The trial that a number names.
    Trial(Format, u32),
    /// The file that emulators keep of a disk, from its image.
    ToG64(G64Disk),
    /// An image from such a file, and a report in the notes.
    FromG64(G64Disk),
    /// What the program says of itself.
    Tell(Page),
}

/// What is asked of the streams of a disk.
#[derive(Clone, Copy, Debug, PartialEq, Eq)]
pub struct StreamsAsked {
    pub format: Format,
    pub way: Way,
    pub output: Output,
}

/// In which way the streams of a disk are read.
#[derive(Clone, Copy, Debug, PartialEq, Eq)]
pub enum Way {
    /// One stream of each track, by the clock that follows.
    Once,
    /// So many streams of each track, 1 to 16.
    Often(u32),
    /// One stream of each track, by two clocks.
    ByBothClocks,
}

/// What comes of the streams of a disk.
#[derive(Clone, Copy, Debug, PartialEq, Eq)]
pub enum Output {
    /// The image, and the report in the notes.
    ImageAndReport,
    /// The report, in the image's place.
    ReportAlone,
    /// A picture of the disk, in the image's place.
    Picture,
}

/// The command that the words are, if they are one.
pub fn command_of(words: &[Word]) -> Option<Command<'_>>
    ensures { AskFor words.now (option_map asked_of result) }
{
    let Some((first, others)) = words.split_first() else {
        return None;
    };
    match Verb::of_word(first.bytes()) {
        Some(verb) => command_behind(verb, others),
        None => command_dashed(first.bytes(), others),
    }
}

/// The command of a verb, by the words behind its own.
fn command_behind(verb: Verb, others: &[Word]) -> Option<Command<'_>>
    ensures { AskBehind verb others.now (option_map asked_of result) }
{
    match verb {
        Verb::Identify => dump_behind(others),
        Verb::Info => info_behind(others),
        Verb::Imd => imd_behind(others),
        Verb::Archive => archive_behind(others),
        Verb::Read => dumps_behind(others),
        Verb::Show => sector_behind(others),
        Verb::DecodeFolder => folder_behind(others),
        Verb::DecodeSet => set_behind(others),
        Verb::Rescue => streams_behind(Way::ByBothClocks, Output::ImageAndReport, others),
        Verb::Decode => streams_behind(Way::Once, Output::ImageAndReport, others),
        Verb::Report => streams_behind(Way::Once, Output::ReportAlone, others),
        Verb::Map => streams_behind(Way::Once, Output::Picture, others),
        Verb::Write => write_behind(others),
        Verb::Split => split_behind(others),
        Verb::Unpack => unpack_behind(others),
        Verb::Turns => turns_behind(others),
        Verb::ToG64 => to_g64_behind(others),
        Verb::FromG64 => from_g64_behind(others),
        Verb::Trial => trial_behind(others),
        Verb::Help => page_behind(others),
    }
}

/// The page that a word with a dash asks for, if it stands alone.
fn command_dashed<'a>(first: &[u8], others: &'a [Word]) -> Option<Command<'a>>
    ensures { Names (IsDashed first.now others.now) (option_map asked_of result) }
{
    match others {
        [] => match page_of(first) {
            Some(page) => Some(Command::Tell(page)),
            None => None,
        },
        _ => None,
    }
}

/// The page that it asks for.
fn page_of(first: &[u8]) -> Option<Page>
    ensures some { IfSome result (IsPageWord first.now) }
    ensures none { IfNone result ((page : PageKind) → ¬ IsPageWord first.now page) }
{
    if first == b"--help".as_slice() {
        Some(Page::Help)
    } else if first == b"-h".as_slice() {
        Some(Page::Help)
    } else if first == b"--version".as_slice() {
        Some(Page::Version)
    } else {
        None
    }
}

/// Words ask for one thing at most.
pub fn words_ask_once()
    ensures { AskOnce }
{
    words_name_formats();
}
