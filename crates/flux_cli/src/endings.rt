//! How a command ends by what its work answered: one function for each kind of answer.
//! Notes say why an input is refused.

ghost use Rattle.std.specs.Prelude.{◌≡◌, [], get_or};
ghost use Rattle.flux_cli.specs.Endings.{EndsBy, EndsDumps, EndsFault, file_ending, image_ending, plan_ending, refusal};
ghost use Rattle.flux_cli.specs.Endings.{refuses, written_status};
ghost use Rattle.flux_cli.specs.FilesWork.{IsOfTracks, files_ending};
ghost use Rattle.flux_cli.specs.IdentityRuns.{identity_status};
ghost use Rattle.flux_cli.specs.InfoRuns.{info_status};
ghost use Rattle.flux_cli.specs.MakingWork.{EndsMaking, TellsUnmade};
ghost use Rattle.flux_cli.specs.PlanWork.{status_of as totals_status};
ghost use Rattle.flux_cli.specs.ReadRuns.{read_status};
ghost use Rattle.flux_cli.specs.SectorRuns.{sector_status};
ghost use Rattle.flux_cli.specs.SplitWork.{IsOfNames, split_ending};
ghost use Rattle.flux_base.specs.World.{sink_at};

use crate::empty::write_empty;
use crate::files_told::{
    beyond_line, exists_line, failed_line, folder_line, named_stream, named_track,
};
use crate::identity::status_of as status_of_identity;
use crate::planned::stop_line;
use crate::read::status_of as status_of_dumps;
use disk_files::FilesFault;
use dump_identity::Identity;
use dump_reading::{DumpTotals, NoFiles};
use dump_turns::TurnTotals;
use flux_base::{Failed, Sink, Status, Word};
use flux_engine::{RefusedCapture, Stopped, WriteFault};
use g64_image::{G64Fault, g64_line};
use sector_copies::SectorTotals;
use sector_images::Format;
use sector_report::{Line, Naming, Totals, image_line, refused_line, write_line};
use stream_files::{Heads, SplitFault};
use track_shelf::Shelf;

/// Writes the line that says why an input is refused.
pub(crate) fn refuse<N: Sink>(line: &Line, notes: &mut N) -> Status
    ensures { EndsBy (refuses line.now.bytes) result (sink_at N.Sink notes.old) (sink_at N.Sink notes.new) }
{
    refused_by(write_line(notes, line))
}

/// Ends a line or a page that was written to the image, of which no input is read.
pub(crate) fn end_of_writing(answer: Result<(), Failed>) -> Status
    ensures { result ≡ written_status answer }
{
    match answer {
        Ok(()) => Status::AllGood,
        Err(_) => Status::ImageFault,
    }
}

/// Ends a disk that was read by a plan whose lines name this.
pub(crate) fn end_of_plan<N: Sink>(
    naming: Naming,
    answer: Result<Totals, Stopped<RefusedCapture>>,
    notes: &mut N,
) -> Status
    ensures { EndsBy (plan_ending naming answer) result (sink_at N.Sink notes.old) (sink_at N.Sink notes.new) }
{
    match answer {
        Ok(totals) => status_of(&totals),
        Err(Stopped::ReadFault) => Status::ReadFault,
        Err(Stopped::ImageFault) => Status::ImageFault,
        Err(Stopped::NotesFault) => Status::NotesFault,
        Err(Stopped::Refused(refused)) => refuse(&stop_line(naming, &refused), notes),
    }
}

/// Whether every sector of a disk is good.
fn status_of(totals: &Totals) -> Status
    ensures { result ≡ totals_status totals.now }
{
    if totals.good == totals.sectors {
        Status::AllGood
    } else {
        Status::NotAllGood
    }
}

/// Ends what is made of an image.
pub(crate) fn end_of_image<N: Sink>(answer: Result<(), WriteFault>, notes: &mut N) -> Status
    ensures { EndsBy (image_ending answer) result (sink_at N.Sink notes.old) (sink_at N.Sink notes.new) }
{
    match answer {
        Ok(()) => Status::AllGood,
        Err(WriteFault::ReadFault) => Status::ReadFault,
        Err(WriteFault::ImageFault) => Status::ImageFault,
        Err(WriteFault::WrongSize { read, wanted }) => refuse(&image_line(read, wanted), notes),
    }
}

/// Ends an image that was written as files.
pub(crate) fn end_of_files<N: Sink>(
    format: Format,
    answer: Result<(), FilesFault>,
    notes: &mut N,
) -> Status
    requires { IsOfTracks format answer }
    ensures { EndsMaking (files_ending format answer) result (sink_at N.Sink notes.old) (sink_at N.Sink notes.new) }
{
    match answer {
        Ok(()) => Status::AllGood,
        Err(FilesFault::ReadFault) => Status::ReadFault,
        Err(FilesFault::WrongSize { read, wanted }) => refuse(&image_line(read, wanted), notes),
        Err(FilesFault::Exists { track }) => {
            refuse(&exists_line(track, named_track(format, track)), notes)
        }
        Err(FilesFault::FolderFault) => tell_unmade(&folder_line(), notes),
        Err(FilesFault::FileFault { track }) => {
            tell_unmade(&failed_line(track, named_track(format, track)), notes)
        }
    }
}

/// Ends joined streams that were made files.
pub(crate) fn end_of_split<N: Sink>(
    heads: Heads,
    answer: Result<u32, SplitFault>,
    notes: &mut N,
) -> Status
    requires { IsOfNames heads answer }
    ensures { EndsMaking (split_ending heads answer) result (sink_at N.Sink notes.old) (sink_at N.Sink notes.new) }
{
    match answer {
        Ok(_) => Status::AllGood,
        Err(SplitFault::ReadFault) => Status::ReadFault,
        Err(
            SplitFault::Refused {
                stream,
                block,
                fault,
            },
        ) => refuse(&refused_line(stream, block, &fault), notes),
        Err(SplitFault::NoName { stream }) => {
            refuse(&beyond_line(stream, named_stream(heads, stream - 1)), notes)
        }
        Err(SplitFault::Exists { stream }) => {
            refuse(&exists_line(stream, named_stream(heads, stream)), notes)
        }
        Err(SplitFault::FolderFault) => tell_unmade(&folder_line(), notes),
        Err(SplitFault::FileFault { stream }) => {
            tell_unmade(&failed_line(stream, named_stream(heads, stream)), notes)
        }
    }
}

/// Writes the line that says what was not made. The status tells it too, whatever becomes of the line.
pub(crate) fn tell_unmade<N: Sink>(line: &Line, notes: &mut N) -> Status
    ensures { TellsUnmade line.now.bytes result (sink_at N.Sink notes.old) (sink_at N.Sink notes.new) }
{
    let _ = write_line(notes, line);
    Status::ShelfFault
}

/// Ends a file that was read.
pub(crate) fn end_of_file<N: Sink>(
    answer: Result<Totals, Stopped<G64Fault>>,
    notes: &mut N,
) -> Status
    ensures { EndsBy (file_ending answer) result (sink_at N.Sink notes.old) (sink_at N.Sink notes.new) }
{
    match answer {
        Ok(totals) => status_of(&totals),
        Err(stop) => match stop {
            Stopped::ReadFault => Status::ReadFault,
            Stopped::ImageFault => Status::ImageFault,
            Stopped::NotesFault => Status::NotesFault,
            Stopped::Refused(fault) => refuse(&g64_line(&fault), notes),
        },
    }
}

/// Ends what was asked of dumps and was not done, or not all. Of the first dump that has none of the wanted
/// files the notes say what is there.
pub(crate) fn end_of_fault<H: Shelf, N: Sink>(
    fault: Stopped<NoFiles>,
    dumps: &[Word],
    shelf: &H,
    notes: &mut N,
) -> Status
    ensures { EndsFault (H.files shelf.now) dumps.now fault result (sink_at N.Sink notes.old)
        (sink_at N.Sink notes.new) }
{
    match fault {
        Stopped::Refused(empty) => {
            let word = word_at(dumps, empty.dump);
            refused_by(write_empty(empty.dump, word, &shelf.kind_of(word), notes))
        }
        Stopped::ReadFault => Status::ShelfFault,
        Stopped::ImageFault => Status::ImageFault,
        Stopped::NotesFault => Status::NotesFault,
    }
}

/// The bytes of the word of this number.
fn word_at(words: &[Word], number: u8) -> &[u8]
    ensures { result.now ≡ get_or words.now number [] }
{
    match words.get(usize::from(number)) {
        Some(word) => word.bytes(),
        None => &[],
    }
}

/// How a command ends whose input is refused, by what became of the line that says so.
fn refused_by(answer: Result<(), Failed>) -> Status
    ensures { result ≡ refusal answer }
{
    match answer {
        Ok(()) => Status::Refused,
        Err(_) => Status::NotesFault,
    }
}

/// Ends a disk that was read of its dumps.
pub(crate) fn end_of_dumps<H: Shelf, N: Sink>(
    answer: Result<DumpTotals, Stopped<NoFiles>>,
    dumps: &[Word],
    shelf: &H,
    notes: &mut N,
) -> Status
    ensures { EndsDumps (H.files shelf.now) dumps.now read_status answer result (sink_at N.Sink notes.old)
        (sink_at N.Sink notes.new) }
{
    match answer {
        Ok(totals) => status_of_dumps(&totals),
        Err(fault) => end_of_fault(fault, dumps, shelf, notes),
    }
}

/// Ends a dump of which is said which disk it is of.
pub(crate) fn end_of_identity<H: Shelf, N: Sink>(
    answer: Result<Identity, Stopped<NoFiles>>,
    dumps: &[Word],
    shelf: &H,
    notes: &mut N,
) -> Status
    ensures { EndsDumps (H.files shelf.now) dumps.now identity_status answer result (sink_at N.Sink notes.old)
        (sink_at N.Sink notes.new) }
{
    match answer {
        Ok(identity) => status_of_identity(&identity),
        Err(fault) => end_of_fault(fault, dumps, shelf, notes),
    }
}

/// Ends a dump of which is told what its files tell without any format.
pub(crate) fn end_of_info<H: Shelf, N: Sink>(
    answer: Result<TurnTotals, Stopped<NoFiles>>,
    dumps: &[Word],
    shelf: &H,
    notes: &mut N,
) -> Status
    ensures { EndsDumps (H.files shelf.now) dumps.now info_status answer result (sink_at N.Sink notes.old)
        (sink_at N.Sink notes.new) }
{
    match answer {
        Ok(totals) => status_of_info(&totals),
        Err(fault) => end_of_fault(fault, dumps, shelf, notes),
    }
}

/// Whether a file failed, and else whether each is there, was read and turned as the others did.
fn status_of_info(totals: &TurnTotals) -> Status
    ensures { result ≡ info_status totals.now }
{
    if totals.failed > 0 {
        Status::ShelfFault
    } else if totals.refused == 0 && totals.missing == 0 && totals.uneven == 0 {
        Status::AllGood
    } else {
        Status::NotAllGood
    }
}

/// Ends a sector that was shown as the dumps have it.
pub(crate) fn end_of_sector<H: Shelf, N: Sink>(
    answer: Result<SectorTotals, Stopped<NoFiles>>,
    dumps: &[Word],
    shelf: &H,
    notes: &mut N,
) -> Status
    ensures { EndsDumps (H.files shelf.now) dumps.now sector_status answer result (sink_at N.Sink notes.old)
        (sink_at N.Sink notes.new) }
{
    match answer {
        Ok(totals) => status_of_sector(&totals),
        Err(fault) => end_of_fault(fault, dumps, shelf, notes),
    }
}

/// Whether a file failed, and else whether good readings of a sector hold one content.
fn status_of_sector(totals: &SectorTotals) -> Status
    ensures { result ≡ sector_status totals.now }
{
    if totals.lost > 0 {
        Status::ShelfFault
    } else if totals.copies == 1 {
        Status::AllGood
    } else {
        Status::NotAllGood
    }
}
