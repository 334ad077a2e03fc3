//! A disk that is read of its dumps, to its image and its report or to a picture.

ghost use Rattle.std.specs.Prelude.{◌≢◌, ◌≡◌, ◌≤◌, length, true};
ghost use Rattle.flux_base.specs.declared.status.Status.{Status};
ghost use Rattle.flux_base.specs.World.{counts_at};
ghost use Rattle.flux_cli.specs.Blamed.{CountsOnShelf};
ghost use Rattle.dump_reading.specs.Outcomes.{disk_of};
ghost use Rattle.flux_cli.specs.NotedWork.{noted_work};
ghost use Rattle.flux_cli.specs.ReadRuns.{read_status, read_work};
ghost use Rattle.flux_cli.specs.Runs.{Does};
ghost use Rattle.flux_cli.specs.World.{on_shelf_at};
ghost use Rattle.flux_engine.specs.Room.{fresh};

use crate::endings::end_of_dumps;
use crate::noted::noted_status;
use disk_map::map_dumps;
use dump_reading::{DumpTotals, Dumps, read_dumps};
use flux_base::{Sink, Status};
use flux_engine::DiskRoom;
use flux_words::Shown;
use scp_notes::note_dumps;
use track_shelf::Shelf;

/// Reads a disk of its dumps, and shows this of the verdicts. Notes say which dump has none of its files.
pub fn show<H: Shelf, W: Sink, N: Sink>(
    shown: Shown,
    dumps: &Dumps,
    room: &mut DiskRoom,
    shelf: &mut H,
    image: &mut W,
    notes: &mut N,
) -> Status
    requires fresh { room.old ≡ fresh room.old.format }
    requires few { length dumps.now.names.now ≤ 16 }
    ensures did { Does (read_work shown (disk_of dumps.now room.old.format)) result
        (on_shelf_at H.Source H.Shelf.own W.Sink N.Sink shelf.old image.old notes.old)
        (on_shelf_at H.Source H.Shelf.own W.Sink N.Sink shelf.new image.new notes.new) }
    ensures blames { CountsOnShelf true result
        (counts_at H.Source W.Sink N.Sink shelf.old image.old notes.old)
        (counts_at H.Source W.Sink N.Sink shelf.new image.new notes.new) }
    ensures no_source { result ≢ Status.ReadFault }
    ensures no_memory { result ≢ Status.Memory }
{
    match shown {
        Shown::Image => {
            let answer = read_dumps(dumps, room, shelf, image, notes);
            end_of_dumps(answer, dumps.names, shelf, notes)
        }
        Shown::Picture => {
            let answer = map_dumps(dumps, room, shelf, image);
            end_of_dumps(answer, dumps.names, shelf, notes)
        }
    }
}

/// Tells first what is noted of the dumps that are SCP files, and then shows the disk. Where the notes failed before
/// that, nothing is read.
pub fn note_and_show<H: Shelf, W: Sink, N: Sink>(
    shown: Shown,
    dumps: &Dumps,
    room: &mut DiskRoom,
    shelf: &mut H,
    image: &mut W,
    notes: &mut N,
) -> Status
    requires fresh { room.old ≡ fresh room.old.format }
    requires few { length dumps.now.names.now ≤ 16 }
    ensures did { Does (noted_work dumps.now.names.now (read_work shown (disk_of dumps.now room.old.format))) result
        (on_shelf_at H.Source H.Shelf.own W.Sink N.Sink shelf.old image.old notes.old)
        (on_shelf_at H.Source H.Shelf.own W.Sink N.Sink shelf.new image.new notes.new) }
    ensures blames { CountsOnShelf true result
        (counts_at H.Source W.Sink N.Sink shelf.old image.old notes.old)
        (counts_at H.Source W.Sink N.Sink shelf.new image.new notes.new) }
    ensures no_source { result ≢ Status.ReadFault }
{
    match note_dumps(dumps.names, shelf, notes) {
        Ok(failed) => {
            let status = show(shown, dumps, room, shelf, image, notes);
            noted_status(failed, status)
        }
        Err(_) => Status::NotesFault,
    }
}

/// Whether a file failed, and else whether the image is all that can be read there.
pub fn status_of(totals: &DumpTotals) -> Status
    ensures { result ≡ read_status totals.now }
{
    if totals.lost > 0 {
        Status::ShelfFault
    } else if totals.is_complete() {
        Status::AllGood
    } else {
        Status::NotAllGood
    }
}
