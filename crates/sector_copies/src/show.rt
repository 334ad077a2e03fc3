//! A sector of a disk that is shown as its dumps have it.

ghost use Rattle.std.specs.Prelude.{◌≡◌, ◌≤◌, ◌++◌, [], length};
ghost use Rattle.dump_reading.specs.Files.{shelf_at};
ghost use Rattle.dump_reading.specs.Outcomes.{disk_of};
ghost use Rattle.dump_reading.specs.Reports.{passed_lines};
ghost use Rattle.flux_base.specs.Blames.{CountsBy};
ghost use Rattle.flux_base.specs.Moments.{Puts};
ghost use Rattle.flux_base.specs.World.{sink_at, sinks_counts};
ghost use Rattle.flux_engine.specs.Blamed.{sink_blame};
ghost use Rattle.flux_engine.specs.Counts.{lost_in};
ghost use Rattle.flux_engine.specs.Recordings.{track_at};
ghost use Rattle.sector_copies.specs.Notes.{SectorStandsFor};
ghost use Rattle.sector_copies.specs.Shown.{SaysOfSector, image_shown, notes_shown};
ghost use Rattle.sector_copies.specs.Texts.{copies_text, copy_at, line_text, sector_text};

use crate::copies::SectorCopy;
use crate::lines::offset_line;
use crate::printing::write_copies;
use crate::reading::{SectorRoom, read_sector};
use crate::totals::SectorTotals;
use dump_reading::{Dumps, NoFiles, find_empty, write_passed};
use flux_base::{Failed, Sink, write_whole};
use flux_engine::{Stopped, lost_count};
use sector_report::{Naming, named_line, write_line};
use track_shelf::Shelf;
use turn_merge::Verdict;

/// Shows a sector of a disk of its dumps. The track's files of all dumps are read as `read_dumps` reads them, and no
/// others; which of them were passed over, or failed, is told in the notes. Then each distinct content of the
/// sector's good readings is written, at most 16 in the order in which they were first met, and last the sector's
/// line. Where one content is asked for alone by its number, its bytes are written and nothing else, if there is such
/// a content, and the line goes to the notes. The answer is how many contents there are, and how many files failed.
/// No answer is for want of memory.
pub fn show_sector<H: Shelf, W: Sink, N: Sink>(
    dumps: &Dumps,
    alone: Option<u32>,
    room: &mut SectorRoom,
    shelf: &mut H,
    image: &mut W,
    notes: &mut N,
) -> Result<SectorTotals, Stopped<NoFiles>>
    requires none { SectorStandsFor room.old.known [] }
    requires no_passed { room.old.passed ≡ [] }
    requires few { length dumps.now.names.now ≤ 16 }
    ensures says { SaysOfSector
        (record {
          disk = disk_of dumps.now room.old.format;
          number = room.old.number;
          sector = room.old.known.sector;
          alone = alone;
        })
        (shelf_at H.Source H.Shelf.own shelf.old) (shelf_at H.Source H.Shelf.own shelf.new) (W.written image.old)
        (W.written image.new) (N.written notes.old) (N.written notes.new) result }

    // What the shelf did is in what came of it.
    ensures blames { CountsBy (sink_blame result)
        (sinks_counts W.Sink N.Sink image.old notes.old)
        (sinks_counts W.Sink N.Sink image.new notes.new) }
{
    match find_empty(dumps, room.format(), shelf) {
        None => {}
        Some(dump) => return Err(Stopped::Refused(NoFiles { dump })),
    }
    read_sector(dumps, room, shelf);
    let outcome = room.verdict();
    match write_notes(alone, room, &outcome, notes) {
        Ok(()) => {}
        Err(Failed) => return Err(Stopped::NotesFault),
    }
    match write_image(alone, room, &outcome, image) {
        Ok(()) => Ok(totals_of(room)),
        Err(Failed) => Err(Stopped::ImageFault),
    }
}

/// How many contents there are, and how many files failed.
fn totals_of(room: &SectorRoom) -> SectorTotals
    ensures { result ≡ record { copies = length room.now.known.copies; lost = lost_in room.now.passed } }
{
    SectorTotals {
        copies: room.copies().len(),
        lost: lost_count(room.passed()),
    }
}

/// Writes which of the track's streams were passed over, and the sector's line where it stands in the notes.
fn write_notes<N: Sink>(
    alone: Option<u32>,
    room: &SectorRoom,
    outcome: &Verdict,
    notes: &mut N,
) -> Result<(), Failed>
    ensures { Puts (sink_at N.Sink notes.old) (sink_at N.Sink notes.new)
        (passed_lines (track_at room.now.format room.now.number) room.now.passed
        ++ notes_shown alone room.now.format room.now.number room.now.known.sector outcome.now) result }
{
    match write_passed(room.track(), room.passed(), notes) {
        Ok(()) => write_line_alone(alone, room, outcome, notes),
        Err(failed) => Err(failed),
    }
}

/// Writes the sector's line where one content is asked for alone.
fn write_line_alone<N: Sink>(
    alone: Option<u32>,
    room: &SectorRoom,
    outcome: &Verdict,
    notes: &mut N,
) -> Result<(), Failed>
    ensures { Puts (sink_at N.Sink notes.old) (sink_at N.Sink notes.new)
        (notes_shown alone room.now.format room.now.number room.now.known.sector outcome.now) result }
{
    match alone {
        None => write_whole(notes, &[]),
        Some(_) => write_sector_line(room, outcome, notes),
    }
}

/// Writes all contents and the sector's line, or one content alone.
fn write_image<W: Sink>(
    alone: Option<u32>,
    room: &SectorRoom,
    outcome: &Verdict,
    image: &mut W,
) -> Result<(), Failed>
    ensures { Puts (sink_at W.Sink image.old) (sink_at W.Sink image.new)
        (image_shown alone room.now.format room.now.number room.now.known.sector outcome.now room.now.known.copies)
        result }
{
    match alone {
        None => write_all(room, outcome, image),
        Some(number) => write_one(room.copies(), number, image),
    }
}

/// Writes where the sector's bytes stand in the image, all contents, and the sector's line.
fn write_all<W: Sink>(room: &SectorRoom, outcome: &Verdict, image: &mut W) -> Result<(), Failed>
    ensures { Puts (sink_at W.Sink image.old) (sink_at W.Sink image.new)
        (sector_text room.now.format room.now.number room.now.known.sector outcome.now room.now.known.copies) result }
{
    match write_line(image, &offset_line(room.image_place(), room.size())) {
        Ok(()) => write_copies_and_line(room, outcome, image),
        Err(failed) => Err(failed),
    }
}

/// Writes all contents, and the sector's line.
fn write_copies_and_line<W: Sink>(
    room: &SectorRoom,
    outcome: &Verdict,
    image: &mut W,
) -> Result<(), Failed>
    ensures { Puts (sink_at W.Sink image.old) (sink_at W.Sink image.new)
        (copies_text room.now.known.copies
        ++ line_text room.now.format room.now.number room.now.known.sector outcome.now) result }
{
    match write_copies(room.copies(), image) {
        Ok(()) => write_sector_line(room, outcome, image),
        Err(failed) => Err(failed),
    }
}

/// Writes the bytes of one content, if there is such a one.
fn write_one<W: Sink>(copies: &[SectorCopy], number: u32, image: &mut W) -> Result<(), Failed>
    ensures { Puts (sink_at W.Sink image.old) (sink_at W.Sink image.new) (copy_at copies.now number).bytes result }
{
    match copies.get(number as usize) {
        Some(copy) => write_whole(image, copy.bytes()),
        None => write_whole(image, &[]),
    }
}

/// Writes the sector's line, as it is told of a disk that is read.
fn write_sector_line<W: Sink>(
    room: &SectorRoom,
    outcome: &Verdict,
    sink: &mut W,
) -> Result<(), Failed>
    ensures { Puts (sink_at W.Sink sink.old) (sink_at W.Sink sink.new)
        (line_text room.now.format room.now.number room.now.known.sector outcome.now) result }
{
    let line = named_line(
        Naming::ByCaptureAndClock,
        room.track(),
        room.sector(),
        outcome,
    );
    write_line(sink, &line)
}
