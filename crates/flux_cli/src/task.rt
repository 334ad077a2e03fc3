//! What a command promises, whichever it is, and each command over the source.

ghost use Rattle.std.specs.Prelude.{◌≡◌, false};
ghost use Rattle.flux_cli.specs.AskedDisks.{IsFew, Keeps};
ghost use Rattle.flux_cli.specs.Blamed.{CountsOfRun, asks_files, over_dumps, world_counts};
ghost use Rattle.flux_cli.specs.ShelfRuns.{DoesRow};
ghost use Rattle.flux_cli.specs.Works.{plan_of, row_of};
ghost use Rattle.flux_cli.specs.World.{world_at};
ghost use Rattle.flux_words.specs.Asked.{Asked, a_g64_file, a_page, a_trial, an_image_of_g64, some_streams, the_turns};
ghost use Rattle.flux_words.specs.Asked.{written_streams};

use crate::endings::{end_of_file, end_of_image, end_of_writing};
use crate::planned::decode_by_plan;
use crate::turns::print_turns;
use file_maker::FileMaker;
use flux_base::{Memory, Sink, Source, Status};
use flux_engine::{Plan, WriteRoom, decoding_plan, rescue_plan, set_plan, write_disk};
use flux_help::{Page, write_page};
use flux_trial::{TrialRoom, run_trial};
use flux_words::{G64Disk, StreamsAsked, Way};
use g64_image::{G64Room, from_g64, to_g64};
use kryo_stream::StreamRoom;
use sector_images::Format;
use std::alloc::Global;
use track_shelf::Shelf;

/// A command, with what its words ask for. An object of the outside that it has no use for stays as it was.
pub(crate) trait Task<S: Source, W: Sink, N: Sink, H: Shelf, M: FileMaker> {
    /// What is asked.
    ghost asked: { Self → Asked };

    /// Does the command, in a room of its own.
    fn run(
        &self,
        alloc: Global,
        source: &mut S,
        image: &mut W,
        notes: &mut N,
        shelf: &mut H,
        maker: &mut M,
    ) -> Status
        requires { Keeps (asked self.now) }
        ensures did { DoesRow (row_of (asked self.now)) result
            (world_at S.Source W.Sink N.Sink H.Source H.Shelf.own M.FileMaker
            source.old image.old notes.old shelf.old maker.old)
            (world_at S.Source W.Sink N.Sink H.Source H.Shelf.own M.FileMaker
            source.new image.new notes.new shelf.new maker.new) }
        ensures counts { CountsOfRun (over_dumps (asked self.now)) (asks_files (asked self.now)) false result
            (world_counts (world_at S.Source W.Sink N.Sink H.Source H.Shelf.own M.FileMaker
            source.old image.old notes.old shelf.old maker.old))
            (world_counts (world_at S.Source W.Sink N.Sink H.Source H.Shelf.own M.FileMaker
            source.new image.new notes.new shelf.new maker.new)) };
}

/// Reads one stream, and prints its transitions and turns.
#[derive(Clone, Copy)]
pub(crate) struct Turns;

impl<S: Source, W: Sink, N: Sink, H: Shelf, M: FileMaker> Task<S, W, N, H, M> for Turns {
    ghost asked = { λ _. the_turns };

    fn run(
        &self,
        alloc: Global,
        source: &mut S,
        image: &mut W,
        notes: &mut N,
        _shelf: &mut H,
        _maker: &mut M,
    ) -> Status {
        match StreamRoom::reserve(alloc) {
            Ok(mut room) => print_turns(&mut room, source, image, notes),
            Err(Memory) => Status::Memory,
        }
    }
}

/// Decodes a disk in the way that is asked for, and gives its image with its report, the report alone, or a picture.
impl<S: Source, W: Sink, N: Sink, H: Shelf, M: FileMaker> Task<S, W, N, H, M> for StreamsAsked {
    ghost asked = { λ task. some_streams task };

    fn run(
        &self,
        alloc: Global,
        source: &mut S,
        image: &mut W,
        notes: &mut N,
        _shelf: &mut H,
        _maker: &mut M,
    ) -> Status {
        let plan = plan_of(self.way);
        decode_by_plan(alloc, plan, self.output, self.format, source, image, notes)
    }
}

/// By what plan streams are read.
fn plan_of(way: Way) -> Plan
    requires { IsFew way }
    ensures { result ≡ plan_of way }
{
    match way {
        Way::Once => decoding_plan(),
        Way::Often(count) => set_plan(count),
        Way::ByBothClocks => rescue_plan(),
    }
}

/// Reads an image, and writes the streams of its tracks to `image`.
#[derive(Clone, Copy)]
pub(crate) struct Write {
    pub(crate) format: Format,
}

impl<S: Source, W: Sink, N: Sink, H: Shelf, M: FileMaker> Task<S, W, N, H, M> for Write {
    ghost asked = { λ task. written_streams task.format };

    fn run(
        &self,
        alloc: Global,
        source: &mut S,
        image: &mut W,
        notes: &mut N,
        _shelf: &mut H,
        _maker: &mut M,
    ) -> Status {
        match WriteRoom::reserve(alloc, self.format) {
            Ok(mut room) => end_of_image(write_disk(&mut room, source, image), notes),
            Err(Memory) => Status::Memory,
        }
    }
}

/// Runs the trial of a number, and writes its line to `image`. Nothing is read.
#[derive(Clone, Copy)]
pub(crate) struct Trial {
    pub(crate) format: Format,
    pub(crate) seed: u32,
}

impl<S: Source, W: Sink, N: Sink, H: Shelf, M: FileMaker> Task<S, W, N, H, M> for Trial {
    ghost asked = { λ task. a_trial task.format task.seed };

    fn run(
        &self,
        alloc: Global,
        _source: &mut S,
        image: &mut W,
        _notes: &mut N,
        _shelf: &mut H,
        _maker: &mut M,
    ) -> Status {
        match TrialRoom::reserve(alloc, self.format) {
            Ok(mut room) => end_of_writing(run_trial(&mut room, self.seed, image)),
            Err(Memory) => Status::Memory,
        }
    }
}

/// Reads an image, and writes its file to `image`.
#[derive(Clone, Copy)]
pub(crate) struct ToG64 {
    pub(crate) disk: G64Disk,
}

impl<S: Source, W: Sink, N: Sink, H: Shelf, M: FileMaker> Task<S, W, N, H, M> for ToG64 {
    ghost asked = { λ task. a_g64_file task.disk };

    fn run(
        &self,
        alloc: Global,
        source: &mut S,
        image: &mut W,
        notes: &mut N,
        _shelf: &mut H,
        _maker: &mut M,
    ) -> Status {
        match G64Room::reserve(alloc, self.disk.format()) {
            Ok(mut room) => end_of_image(to_g64(&mut room, source, image), notes),
            Err(Memory) => Status::Memory,
        }
    }
}

/// Reads a file: its image goes to `image`, and its report to `notes`.
#[derive(Clone, Copy)]
pub(crate) struct FromG64 {
    pub(crate) disk: G64Disk,
}

impl<S: Source, W: Sink, N: Sink, H: Shelf, M: FileMaker> Task<S, W, N, H, M> for FromG64 {
    ghost asked = { λ task. an_image_of_g64 task.disk };

    fn run(
        &self,
        alloc: Global,
        source: &mut S,
        image: &mut W,
        notes: &mut N,
        _shelf: &mut H,
        _maker: &mut M,
    ) -> Status {
        match G64Room::reserve(alloc, self.disk.format()) {
            Ok(mut room) => {
                let answer = from_g64(&mut room, source, image, notes);
                end_of_file(answer, notes)
            }
            Err(Memory) => Status::Memory,
        }
    }
}

/// Writes what the program says of itself to `image`. Nothing is read.
#[derive(Clone, Copy)]
pub(crate) struct Tell {
    pub(crate) page: Page,
}

impl<S: Source, W: Sink, N: Sink, H: Shelf, M: FileMaker> Task<S, W, N, H, M> for Tell {
    ghost asked = { λ task. a_page task.page };

    fn run(
        &self,
        _alloc: Global,
        _source: &mut S,
        image: &mut W,
        _notes: &mut N,
        _shelf: &mut H,
        _maker: &mut M,
    ) -> Status {
        end_of_writing(write_page(self.page, image))
    }
}
