//! An SCP file that is unpacked.

ghost use Rattle.std.specs.Prelude.{◌≡◌, ◌≤◌, length};
ghost use Rattle.flux_base.specs.Moments.{Puts};
ghost use Rattle.flux_base.specs.World.{sink_at};
ghost use Rattle.flux_words.specs.Asked.{unpacked_file};
ghost use Rattle.flux_cli.specs.UnpackRuns.{AreOfTable, CountsOfUnpacking, EndsUnpacking, UnpacksIn, sums_told, unpack_at};
ghost use Rattle.flux_cli.specs.UnpackRuns.{unpack_status};

use crate::endings::{refuse, tell_unmade};
use crate::files_told::{exists_line, failed_line, folder_line};
use crate::task::Task;
use file_maker::FileMaker;
use flux_base::{Failed, Memory, Sink, Source, Status, Word};
use scp_notes::{Sums, find_sums, sums_line};
use scp_unpack::{UnpackFault, UnpackRoom, Unpacked, refused_scp_line, track_of, unpack};
use sector_report::{Line, put, write_line};
use std::alloc::Global;
use track_shelf::Shelf;

/// Makes a file of each track of an SCP file in a folder. Notes tell that the file's sum is not the one that it names,
/// which tracks are refused or end early, and how many files were made; or why none was.
#[derive(Clone, Copy)]
pub(crate) struct Unpack<'a> {
    pub(crate) file: &'a Word,
    pub(crate) folder: &'a Word,
}

impl<S: Source, W: Sink, N: Sink, H: Shelf, M: FileMaker> Task<S, W, N, H, M> for Unpack<'_> {
    ghost asked = { λ task. unpacked_file task.file.now task.folder.now };

    fn run(
        &self,
        alloc: Global,
        _source: &mut S,
        _image: &mut W,
        notes: &mut N,
        shelf: &mut H,
        maker: &mut M,
    ) -> Status {
        match UnpackRoom::reserve(alloc) {
            Ok(mut room) => {
                let file = self.file.bytes();
                let folder = self.folder.bytes();
                sum_and_unpack(&mut room, file, folder, shelf, maker, notes)
            }
            Err(Memory) => Status::Memory,
        }
    }
}

/// Tells first where the sum of the file is not the one that it names, and then unpacks it. Where the file or the notes
/// failed before that, nothing is made.
fn sum_and_unpack<N: Sink, H: Shelf, M: FileMaker>(
    room: &mut UnpackRoom,
    file: &[u8],
    folder: &[u8],
    shelf: &mut H,
    maker: &mut M,
    notes: &mut N,
) -> Status
    ensures did { UnpacksIn file.now folder.now result
        (unpack_at H.Source H.Shelf.own M.FileMaker N.Sink shelf.old maker.old notes.old)
        (unpack_at H.Source H.Shelf.own M.FileMaker N.Sink shelf.new maker.new notes.new) }
    ensures counts { CountsOfUnpacking result
        (unpack_at H.Source H.Shelf.own M.FileMaker N.Sink shelf.old maker.old notes.old)
        (unpack_at H.Source H.Shelf.own M.FileMaker N.Sink shelf.new maker.new notes.new) }
{
    match find_sums(file, shelf) {
        Ok(sums) => match tell_sums(sums, notes) {
            Ok(()) => {
                let answer = unpack(room, file, folder, shelf, maker, notes);
                end_of_unpacking(answer, notes)
            }
            Err(_) => Status::NotesFault,
        },
        Err(_) => tell_unmade(&scp_line("failed scp\n"), notes),
    }
}

/// Tells the sums of a file, where they differ.
fn tell_sums<N: Sink>(sums: Option<Sums>, notes: &mut N) -> Result<(), Failed>
    ensures { Puts (sink_at N.Sink notes.old) (sink_at N.Sink notes.new) (sums_told sums) result }
{
    match sums {
        Some(sums) => write_line(notes, &sums_line(sums)),
        None => Ok(()),
    }
}

/// Ends a file that was unpacked.
fn end_of_unpacking<N: Sink>(answer: Result<Unpacked, UnpackFault>, notes: &mut N) -> Status
    requires { AreOfTable answer }
    ensures { EndsUnpacking answer result (sink_at N.Sink notes.old) (sink_at N.Sink notes.new) }
{
    match answer {
        Ok(unpacked) => status_of(&unpacked),
        Err(UnpackFault::NotThere) => refuse(&scp_line("refused scp missing\n"), notes),
        Err(UnpackFault::Refused(why)) => refuse(&refused_scp_line(why), notes),
        Err(UnpackFault::Exists { number }) => {
            tell_unmade(&exists_line(u32::from(number), track_of(number)), notes)
        }
        Err(UnpackFault::ReadFault) => tell_unmade(&scp_line("failed scp\n"), notes),
        Err(UnpackFault::FolderFault) => tell_unmade(&folder_line(), notes),
        Err(UnpackFault::FileFault { number }) => {
            tell_unmade(&failed_line(u32::from(number), track_of(number)), notes)
        }
        Err(UnpackFault::NotesFault) => Status::NotesFault,
    }
}

/// Whether there is a file, and nothing is told of any track.
fn status_of(unpacked: &Unpacked) -> Status
    ensures { result ≡ unpack_status unpacked.now }
{
    if unpacked.files > 0 && unpacked.refused == 0 {
        Status::AllGood
    } else {
        Status::NotAllGood
    }
}

/// A line on the whole file.
fn scp_line(text: &str) -> Line
    requires { length text.now ≤ 40 }
    ensures { result.bytes ≡ text.now }
{
    let mut line = Line::new();
    put(&mut line, text);
    line
}
