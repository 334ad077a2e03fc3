//! Any IBM disk of its dumps, as a file of ImageDisk.

ghost use Rattle.std.specs.Prelude.{◌≡◌};
ghost use Rattle.flux_base.specs.World.{sink_at};
ghost use Rattle.flux_cli.specs.Endings.{EndsDumps};
ghost use Rattle.flux_cli.specs.ImdRuns.{imd_status};
ghost use Rattle.flux_words.specs.Asked.{an_imd_file};
ghost use Rattle.flux_words.specs.ImdWords.{asked_imd};

use crate::endings::end_of_fault;
use crate::noted::noted_status;
use crate::task::Task;
use dump_reading::{Dumps, NoFiles};
use file_maker::FileMaker;
use flux_base::{Memory, Sink, Source, Status, Word};
use flux_engine::Stopped;
use flux_words::ImdAsked;
use imd_image::{ImdRoom, ImdTotals, write_imd};
use scp_notes::note_dumps;
use std::alloc::Global;
use track_shelf::{Shelf, Stepping};

/// Writes the disk of the dumps as a file of ImageDisk to `image`, and the report to `notes`, or which dump has no file
/// of any track.
impl<S: Source, W: Sink, N: Sink, H: Shelf, M: FileMaker> Task<S, W, N, H, M> for ImdAsked<'_> {
    ghost asked = { λ task. an_imd_file (asked_imd task) };

    fn run(
        &self,
        alloc: Global,
        _source: &mut S,
        image: &mut W,
        notes: &mut N,
        shelf: &mut H,
        _maker: &mut M,
    ) -> Status {
        let dumps = Dumps {
            names: self.dumps,
            stepping: self.stepping,
        };
        match ImdRoom::reserve(alloc) {
            Ok(room) => match note_dumps(self.dumps, shelf, notes) {
                Ok(failed) => {
                    let answer = write_imd(&dumps, room, shelf, image, notes);
                    let status = end_of_imd(self.stepping, answer, dumps.names, shelf, notes);
                    noted_status(failed, status)
                }
                Err(_) => Status::NotesFault,
            },
            Err(Memory) => Status::Memory,
        }
    }
}

/// Ends a disk that was written as a file of ImageDisk.
fn end_of_imd<H: Shelf, N: Sink>(
    stepping: Stepping,
    answer: Result<ImdTotals, Stopped<NoFiles>>,
    dumps: &[Word],
    shelf: &H,
    notes: &mut N,
) -> Status
    ensures { EndsDumps (H.files shelf.now) dumps.now (imd_status stepping) answer result (sink_at N.Sink notes.old)
        (sink_at N.Sink notes.new) }
{
    match answer {
        Ok(totals) => status_of(stepping, &totals),
        Err(fault) => end_of_fault(fault, dumps, shelf, notes),
    }
}

/// Whether a file failed, and else whether all is in the file, and no other stepping is to be asked for.
fn status_of(stepping: Stepping, totals: &ImdTotals) -> Status
    ensures { result ≡ imd_status stepping totals.now }
{
    if totals.failed > 0 {
        Status::ShelfFault
    } else if totals.is_complete() && !totals.asks(stepping) {
        Status::AllGood
    } else {
        Status::NotAllGood
    }
}
