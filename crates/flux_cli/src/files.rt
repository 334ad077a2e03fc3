//! Each command that makes files.

ghost use Rattle.flux_words.specs.Asked.{split_streams as streams_to_split, written_files};

use crate::endings::{end_of_files, end_of_split};
use crate::task::Task;
use disk_files::{FilesRoom, write_disk_files};
use file_maker::FileMaker;
use flux_base::{Memory, Sink, Source, Status, Word};
use flux_help::version_number;
use sector_images::Format;
use std::alloc::Global;
use stream_files::{Heads, SplitRoom, split_streams};
use track_shelf::Shelf;

/// Reads an image, and makes the files of its tracks' streams in a folder. Notes say which file is there already, or
/// was not made.
#[derive(Clone, Copy)]
pub(crate) struct WriteFiles<'a> {
    pub(crate) format: Format,
    pub(crate) folder: &'a Word,
}

impl<S: Source, W: Sink, N: Sink, H: Shelf, M: FileMaker> Task<S, W, N, H, M> for WriteFiles<'_> {
    ghost asked = { λ task. written_files task.format task.folder.now };

    fn run(
        &self,
        alloc: Global,
        source: &mut S,
        _image: &mut W,
        notes: &mut N,
        _shelf: &mut H,
        maker: &mut M,
    ) -> Status {
        match FilesRoom::reserve(alloc, self.format) {
            Ok(mut room) => {
                let folder = self.folder.bytes();
                let answer = write_disk_files(&mut room, source, maker, folder, version_number());
                end_of_files(self.format, answer, notes)
            }
            Err(Memory) => Status::Memory,
        }
    }
}

/// Reads joined streams, and makes a file of each in a folder. Notes say which stream is refused, or which file is there
/// already, or was not made.
#[derive(Clone, Copy)]
pub(crate) struct Split<'a> {
    pub(crate) folder: &'a Word,
    pub(crate) heads: Heads,
}

impl<S: Source, W: Sink, N: Sink, H: Shelf, M: FileMaker> Task<S, W, N, H, M> for Split<'_> {
    ghost asked = { λ task. streams_to_split task.folder.now task.heads };

    fn run(
        &self,
        alloc: Global,
        source: &mut S,
        _image: &mut W,
        notes: &mut N,
        _shelf: &mut H,
        maker: &mut M,
    ) -> Status {
        match SplitRoom::reserve(alloc) {
            Ok(mut room) => {
                let answer = split_streams(
                    &mut room,
                    source,
                    maker,
                    self.folder.bytes(),
                    self.heads,
                );
                end_of_split(self.heads, answer, notes)
            }
            Err(Memory) => Status::Memory,
        }
    }
}
