//! A picture of a disk that is read of its dumps.

ghost use Rattle.std.specs.Prelude.{◌≡◌, ◌≤◌, ℕ, List, Option, codes, length, OnOk};
ghost use Rattle.std.specs.Io.KnownBytes.{Appends};
ghost use Rattle.flux_base.specs.Blames.{CountsBy, no_counts, three_counts};
ghost use Rattle.flux_base.specs.Moments.{Puts};
ghost use Rattle.flux_base.specs.World.{sink_at, sink_counts};
ghost use Rattle.flux_engine.specs.Room.{fresh};
ghost use Rattle.flux_engine.specs.Blamed.{sink_blame};
ghost use Rattle.dump_reading.specs.Beside.{LinesOf};
ghost use Rattle.dump_reading.specs.Files.{ShelfNow, shelf_at};
ghost use Rattle.dump_reading.specs.Outcomes.{DumpDisk, HasTracksBy, disk_of};
ghost use Rattle.disk_map.specs.Dumps.{DrewWithLines, SaysOfDrawing, dumps_foot, dumps_part_with};
ghost use Rattle.disk_map.specs.Maps.{TrackLinesOf};
ghost use Rattle.disk_map.specs.Places.{layout_of};
ghost use Rattle.disk_map.specs.Texts.{top_by};

use crate::disk::write_top;
use crate::field_writer::FieldWriter;
use crate::layout::Layout;
use crate::text::write_text;
use crate::texts::{counts_text, foot_text};
use dump_reading::{DumpTotals, Dumps, Looks, NoFiles, Unsaid, find_empty, read_dump_tracks};
use flux_base::{CountingSink, Failed, Sink};
use flux_engine::{Clocks, DiskRoom, NoSecond, Stopped, room_format};
use sector_images::Format;
use sector_report::{Naming, total_line, unread_line};
use track_shelf::Shelf;

/// Draws a disk that is read of its dumps, as `read_dumps` reads it: the picture of the verdicts that its report has,
/// with the lines of this report as the titles of the fields. The foot counts the streams that were passed over and the
/// names of other headers, also those of the files of other tracks, which have no field. The fields of each track are
/// written as soon as it is read. No answer is for want of memory.
///
/// A dump that has the file of none of the tracks is refused before anything is written. A file that fails is
/// passed over, and counted. After a fault of the sink nothing more is read or written. No notes are written,
/// so `NotesFault` does not come.
pub fn map_dumps<H: Shelf, P: Sink>(
    dumps: &Dumps,
    room: &mut DiskRoom,
    shelf: &mut H,
    picture: &mut P,
) -> Result<DumpTotals, Stopped<NoFiles>>
    requires fresh { room.old ≡ fresh room.old.format }
    requires few { length dumps.now.names.now ≤ 16 }
    ensures says { SaysOfDrawing (disk_of dumps.now room.old.format) (shelf_at H.Source H.Shelf.own shelf.old)
        (shelf_at H.Source H.Shelf.own shelf.new) (P.written picture.old) (P.written picture.new) result }

    // What the shelf did is in what came of it.
    ensures blames { CountsBy (sink_blame result)
        (three_counts no_counts (sink_counts P.Sink picture.old) no_counts)
        (three_counts no_counts (sink_counts P.Sink picture.new) no_counts) }
{
    let format = room_format(room);
    match find_empty(dumps, format, shelf) {
        None => {}
        Some(dump) => return Err(Stopped::Refused(NoFiles { dump })),
    }
    match begin_drawing(format, picture) {
        Ok(()) => {}
        Err(Failed) => return Err(Stopped::ImageFault),
    }
    let writer = FieldWriter {
        naming: Naming::ByCaptureAndClock,
        lines: &Unsaid,
    };
    let mut nothing = CountingSink::new();
    let mut none = NoSecond;
    let totals = match read_dump_tracks(
        Clocks::Both,
        Looks::Always,
        dumps,
        &writer,
        &Unsaid,
        room,
        shelf,
        picture,
        &mut nothing,
        &mut none,
    ) {
        Ok(totals) => totals,
        Err(fault) => return Err(fault),
    };
    match end_drawing(format, &totals, picture) {
        Ok(()) => Ok(totals),
        Err(Failed) => Err(Stopped::ImageFault),
    }
}

/// Writes what stands before the fields of a picture of dumps.
pub fn begin_drawing<P: Sink>(format: Format, picture: &mut P) -> Result<(), Failed>
    ensures { Puts (sink_at P.Sink picture.old) (sink_at P.Sink picture.new) (top_by (codes "read") format) result }
{
    write_top("read", format, picture)
}

/// Writes what stands behind the fields of a picture of dumps.
pub fn end_drawing<P: Sink>(
    format: Format,
    totals: &DumpTotals,
    picture: &mut P,
) -> Result<(), Failed>
    ensures puts { Puts (sink_at P.Sink picture.old) (sink_at P.Sink picture.new) (dumps_foot (layout_of format) totals.now)
        result }

    // Behind the fields of all tracks, with lines beside them, it makes the picture whole.
    ensures whole { OnOk result
        ((of : TrackLinesOf) (beside_of : LinesOf) (disk : DumpDisk) (start now : ShelfNow)
        (before top notes notes' : Option (List ℕ)) → disk.format ≡ format
        → Appends before top (top_by (codes "read") format)
        → HasTracksBy (dumps_part_with of) beside_of disk start now top (P.written picture.old) notes notes' totals.now
        → DrewWithLines of beside_of disk start now before (P.written picture.new) notes notes' totals.now) }
{
    write_foot(Layout::of_format(format), totals, picture)
}

/// What was passed over and what else was told, the legend, and the totals.
fn write_foot<P: Sink>(layout: Layout, totals: &DumpTotals, picture: &mut P) -> Result<(), Failed>
    ensures { Puts (sink_at P.Sink picture.old) (sink_at P.Sink picture.new) (dumps_foot layout totals.now) result }
{
    let counts = unread_line(totals.unread, totals.others, totals.whole);
    match write_text(picture, &counts_text(layout, &counts)) {
        Ok(()) => write_text(
            picture,
            &foot_text(layout, &totals.sectors, &total_line(&totals.sectors)),
        ),
        Err(failed) => Err(failed),
    }
}
