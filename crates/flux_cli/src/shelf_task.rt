//! Each command over the shelf.

ghost use Rattle.flux_words.specs.Asked.{a_folder, a_sector, an_identity, some_dumps, told_files};
ghost use Rattle.flux_words.specs.DumpWords.{asked_dumps};
ghost use Rattle.flux_words.specs.SectorWords.{asked_sector};

use crate::endings::{end_of_identity, end_of_info, end_of_sector};
use crate::folder::decode_folder;
use crate::noted::noted_status;
use crate::read::note_and_show;
use crate::task::Task;
use dump_identity::{IdentityRoom, identify};
use dump_reading::Dumps;
use dump_turns::{TurnsRoom, tell_turns};
use file_maker::FileMaker;
use flux_base::{Memory, Sink, Source, Status, Word};
use flux_engine::DiskRoom;
use flux_words::{DumpsAsked, ShowAsked};
use scp_notes::note_dumps;
use sector_copies::{SectorRoom, show_sector};
use sector_images::Format;
use std::alloc::Global;
use std::slice::from_ref;
use track_shelf::Shelf;

/// Decodes the track files of a folder: the image goes to `image`, and the report to `notes`.
#[derive(Clone, Copy)]
pub(crate) struct DecodeFolder<'a> {
    pub(crate) format: Format,
    pub(crate) folder: &'a Word,
}

impl<S: Source, W: Sink, N: Sink, H: Shelf, M: FileMaker> Task<S, W, N, H, M> for DecodeFolder<'_> {
    ghost asked = { λ task. a_folder task.format task.folder.now };

    fn run(
        &self,
        alloc: Global,
        _source: &mut S,
        image: &mut W,
        notes: &mut N,
        shelf: &mut H,
        _maker: &mut M,
    ) -> Status {
        match DiskRoom::reserve(alloc, self.format) {
            Ok(mut room) => decode_folder(
                &mut room,
                self.format,
                self.folder.bytes(),
                shelf,
                image,
                notes,
            ),
            Err(Memory) => Status::Memory,
        }
    }
}

/// Reads a disk of its dumps, to its image and its report or to a picture.
impl<S: Source, W: Sink, N: Sink, H: Shelf, M: FileMaker> Task<S, W, N, H, M> for DumpsAsked<'_> {
    ghost asked = { λ task. some_dumps (asked_dumps task) };

    fn run(
        &self,
        alloc: Global,
        _source: &mut S,
        image: &mut W,
        notes: &mut N,
        shelf: &mut H,
        _maker: &mut M,
    ) -> Status {
        let dumps = Dumps {
            names: self.dumps,
            stepping: self.stepping,
        };
        match DiskRoom::reserve(alloc, self.format) {
            Ok(mut room) => note_and_show(self.shown, &dumps, &mut room, shelf, image, notes),
            Err(Memory) => Status::Memory,
        }
    }
}

/// Says which disk a dump is of: the lines go to `image`. Notes say that it has no file of any track.
#[derive(Clone, Copy)]
pub(crate) struct Identify<'a> {
    pub(crate) dump: &'a Word,
}

impl<S: Source, W: Sink, N: Sink, H: Shelf, M: FileMaker> Task<S, W, N, H, M> for Identify<'_> {
    ghost asked = { λ task. an_identity task.dump.now };

    fn run(
        &self,
        alloc: Global,
        _source: &mut S,
        image: &mut W,
        notes: &mut N,
        shelf: &mut H,
        _maker: &mut M,
    ) -> Status {
        match IdentityRoom::reserve(alloc) {
            Ok(room) => {
                let answer = identify(self.dump, room, shelf, image);
                end_of_identity(answer, from_ref(self.dump), shelf, notes)
            }
            Err(Memory) => Status::Memory,
        }
    }
}

/// Tells what the files of a dump tell without any format: the lines go to `image`. Notes say that it has no file of
/// any track.
#[derive(Clone, Copy)]
pub(crate) struct Info<'a> {
    pub(crate) dump: &'a Word,
}

impl<S: Source, W: Sink, N: Sink, H: Shelf, M: FileMaker> Task<S, W, N, H, M> for Info<'_> {
    ghost asked = { λ task. told_files task.dump.now };

    fn run(
        &self,
        alloc: Global,
        _source: &mut S,
        image: &mut W,
        notes: &mut N,
        shelf: &mut H,
        _maker: &mut M,
    ) -> Status {
        match TurnsRoom::reserve(alloc) {
            Ok(room) => match note_dumps(from_ref(self.dump), shelf, notes) {
                Ok(failed) => {
                    let answer = tell_turns(self.dump, room, shelf, image);
                    let status = end_of_info(answer, from_ref(self.dump), shelf, notes);
                    noted_status(failed, status)
                }
                Err(_) => Status::NotesFault,
            },
            Err(Memory) => Status::Memory,
        }
    }
}

/// Shows a sector of a disk of its dumps: its contents, or one of them alone, go to `image`. Notes say which streams
/// were passed over, or which dump has none of the disk's files.
impl<S: Source, W: Sink, N: Sink, H: Shelf, M: FileMaker> Task<S, W, N, H, M> for ShowAsked<'_> {
    ghost asked = { λ task. a_sector (asked_sector task) };

    fn run(
        &self,
        alloc: Global,
        _source: &mut S,
        image: &mut W,
        notes: &mut N,
        shelf: &mut H,
        _maker: &mut M,
    ) -> Status {
        let dumps = Dumps {
            names: self.dumps,
            stepping: self.stepping,
        };
        match SectorRoom::reserve(alloc, self.format, self.number, self.sector) {
            Ok(mut room) => {
                let answer = show_sector(&dumps, self.alone, &mut room, shelf, image, notes);
                end_of_sector(answer, dumps.names, shelf, notes)
            }
            Err(Memory) => Status::Memory,
        }
    }
}
