//! A disk that is read of its dumps.

ghost use Rattle.std.specs.Prelude.{◌≡◌, ◌≤◌, ℕ, List, Option, length, IfErr, IfOk, OnOk};
ghost use Rattle.flux_base.specs.Blames.{CountsBy};
ghost use Rattle.flux_base.specs.Moments.{Puts};
ghost use Rattle.flux_base.specs.World.{sink_at, sinks_counts};
ghost use Rattle.flux_engine.specs.Room.{fresh};
ghost use Rattle.flux_engine.specs.Blamed.{sink_blame};
ghost use Rattle.dump_reading.specs.Beside.{beside_lines};
ghost use Rattle.dump_reading.specs.Files.{ShelfNow, shelf_at};
ghost use Rattle.dump_reading.specs.Outcomes.{DumpDisk, HasTracksBy, HasTracksSecond, SaysOfDumps, StopsBy};
ghost use Rattle.dump_reading.specs.Outcomes.{WroteDumps, disk_by, disk_of};
ghost use Rattle.dump_reading.specs.Reports.{end_text, read_part};

use crate::beside::{BesideReport, BesideWriter, read_beside};
use crate::dumps::Dumps;
use crate::fault::NoFiles;
use crate::looking::find_empty;
use crate::looks::Looks;
use crate::report::{DumpReport, NAMING};
use crate::totals::DumpTotals;
use flux_base::{Failed, Sink};
use flux_engine::{
    Clocks, DiskRoom, NoSecond, Plan, Rule, SecondSinks, Stopped, TrackWriter, decode_tracks,
    no_totals, room_format,
};
use sector_report::{total_line, unread_line, write_line};
use track_shelf::Shelf;

/// Reads a disk of its dumps, and then writes the last two lines to `notes`. Of each track in order the files of all
/// dumps are read as controllers read, in the order of the dumps; one that is missing or refused, or that fails, is
/// told and passed over. One verdict for each sector is given over all readings by both clocks, and the names of
/// headers are told that are those of none of the track's sectors: one by one where whole data follow them. Then the
/// files of all other tracks are looked at, of which no sector is wanted: all names in them are others, and one of
/// these files that is missing is not told. No answer is for want of memory.
///
/// A dump that has the file of none of the format's tracks is refused before anything is written. After a fault of a
/// sink nothing more is read or written, and the tracks before are written whole.
pub fn read_dumps<H: Shelf, W: Sink, N: Sink>(
    dumps: &Dumps,
    room: &mut DiskRoom,
    shelf: &mut H,
    image: &mut W,
    notes: &mut N,
) -> Result<DumpTotals, Stopped<NoFiles>>
    requires fresh { room.old ≡ fresh room.old.format }
    requires few { length dumps.now.names.now ≤ 16 }
    ensures says { SaysOfDumps (disk_of dumps.now room.old.format) (shelf_at H.Source H.Shelf.own shelf.old)
        (shelf_at H.Source H.Shelf.own shelf.new) (W.written image.old) (W.written image.new) (N.written notes.old)
        (N.written notes.new) result }

    // What the shelf did is in what came of it.
    ensures blames { CountsBy (sink_blame result)
        (sinks_counts W.Sink N.Sink image.old notes.old)
        (sinks_counts W.Sink N.Sink image.new notes.new) }
{
    read_dumps_by(
        Clocks::Both,
        Looks::Always,
        dumps,
        room,
        shelf,
        image,
        notes,
    )
}

/// The same by these clocks, looking at the files beside the format's tracks always, or only where a sector is good.
pub fn read_dumps_by<H: Shelf, W: Sink, N: Sink>(
    clocks: Clocks,
    looks: Looks,
    dumps: &Dumps,
    room: &mut DiskRoom,
    shelf: &mut H,
    image: &mut W,
    notes: &mut N,
) -> Result<DumpTotals, Stopped<NoFiles>>
    requires fresh { room.old ≡ fresh room.old.format }
    requires few { length dumps.now.names.now ≤ 16 }
    ensures says { SaysOfDumps (disk_by clocks looks dumps.now room.old.format)
        (shelf_at H.Source H.Shelf.own shelf.old) (shelf_at H.Source H.Shelf.own shelf.new) (W.written image.old)
        (W.written image.new) (N.written notes.old) (N.written notes.new) result }

    // What the shelf did is in what came of it.
    ensures blames { CountsBy (sink_blame result)
        (sinks_counts W.Sink N.Sink image.old notes.old)
        (sinks_counts W.Sink N.Sink image.new notes.new) }
{
    match find_empty(dumps, room_format(room), shelf) {
        None => {}
        Some(dump) => return Err(Stopped::Refused(NoFiles { dump })),
    }
    let mut none = NoSecond;
    let read = read_dump_tracks(
        clocks,
        looks,
        dumps,
        &DumpReport,
        &BesideReport,
        room,
        shelf,
        image,
        notes,
        &mut none,
    );
    let totals = match read {
        Ok(totals) => totals,
        Err(fault) => return Err(fault),
    };
    match end_report(&totals, notes) {
        Ok(()) => Ok(totals),
        Err(Failed) => Err(Stopped::NotesFault),
    }
}

/// Reads all tracks of a disk of its dumps, and those beside them where that is asked for, as `read_dumps_by` does, and
/// gives what was gathered of each to a writer. That dumps have files is not looked at here, so `Refused` does not
/// come. What the writers' second sinks took is known where they took all that they were given. After a fault nothing
/// more is read or written, and the tracks before are written whole.
pub fn read_dump_tracks<
    O: TrackWriter<D>,
    B: BesideWriter<D>,
    D: SecondSinks,
    H: Shelf,
    W: Sink,
    N: Sink,
>(
    clocks: Clocks,
    looks: Looks,
    dumps: &Dumps,
    writer: &O,
    beside: &B,
    room: &mut DiskRoom,
    shelf: &mut H,
    image: &mut W,
    notes: &mut N,
    second: &mut D,
) -> Result<DumpTotals, Stopped<NoFiles>>
    requires fresh { room.old ≡ fresh room.old.format }
    requires few { length dumps.now.names.now ≤ 16 }
    ensures ok { IfOk result
        (HasTracksBy (O.part_of writer.now) (B.lines_of beside.now) (disk_by clocks looks dumps.now room.old.format)
        (shelf_at H.Source H.Shelf.own shelf.old) (shelf_at H.Source H.Shelf.own shelf.new) (W.written image.old)
        (W.written image.new) (N.written notes.old) (N.written notes.new)) }
    ensures second { IfOk result
        (HasTracksSecond (O.second_part_of writer.now) (B.second_lines_of beside.now)
        (disk_by clocks looks dumps.now room.old.format) (shelf_at H.Source H.Shelf.own shelf.old)
        (shelf_at H.Source H.Shelf.own shelf.new) (D.now second.old) (D.now second.new)) }
    ensures err { IfErr result
        (StopsBy (O.part_of writer.now) (B.lines_of beside.now) (disk_by clocks looks dumps.now room.old.format)
        (shelf_at H.Source H.Shelf.own shelf.old) (shelf_at H.Source H.Shelf.own shelf.new) (W.written image.old)
        (W.written image.new) (N.written notes.old) (N.written notes.new)) }

    // What the shelf did is in what came of it.
    ensures blames { CountsBy (sink_blame result)
        (sinks_counts W.Sink N.Sink image.old notes.old)
        (sinks_counts W.Sink N.Sink image.new notes.new) }
{
    let plan = Plan {
        captures: dumps.names.len() as u8,
        rule: Rule::Controller,
        clocks,
        naming: NAMING,
    };
    let mut sectors = no_totals();
    match decode_tracks(
        plan,
        dumps,
        writer,
        room,
        shelf,
        image,
        notes,
        second,
        &mut sectors,
    ) {
        Ok(()) => {}
        Err(Stopped::ImageFault) => return Err(Stopped::ImageFault),
        Err(Stopped::NotesFault) => return Err(Stopped::NotesFault),
        // No stream ends a disk of dumps.
        Err(Stopped::ReadFault | Stopped::Refused(_)) => unreachable!(),
    }
    match read_beside(
        clocks, looks, &sectors, dumps, beside, room, shelf, notes, second,
    ) {
        Ok(()) => Ok(DumpTotals {
            sectors,
            unread: room.unread(),
            lost: room.lost(),
            others: room.told_others(),
            whole: room.whole_others(),
        }),
        Err(Failed) => Err(Stopped::NotesFault),
    }
}

/// Writes the last two lines of a report: what was passed over and what else was told, and the totals.
pub fn end_report<N: Sink>(totals: &DumpTotals, notes: &mut N) -> Result<(), Failed>
    ensures puts { Puts (sink_at N.Sink notes.old) (sink_at N.Sink notes.new) (end_text totals.now) result }

    // Behind the lines of all tracks they make the report whole.
    ensures whole { OnOk result
        ((disk : DumpDisk) (start now : ShelfNow) (image image' notes_before : Option (List ℕ))
        → HasTracksBy read_part beside_lines disk start now image image' notes_before (N.written notes.old) totals.now
        → WroteDumps disk start now image image' notes_before (N.written notes.new) totals.now) }
{
    match write_line(
        notes,
        &unread_line(totals.unread, totals.others, totals.whole),
    ) {
        Ok(()) => write_line(notes, &total_line(&totals.sectors)),
        Err(failed) => Err(failed),
    }
}
