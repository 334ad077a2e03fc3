//! A disk of dumps as a file of ImageDisk, and the report.

ghost use Rattle.std.specs.Prelude.{◌≤◌, length};
ghost use Rattle.dump_reading.specs.Files.{shelf_at};
ghost use Rattle.dump_turns.specs.Reaches.{IsBoundedReach};
ghost use Rattle.flux_base.specs.Blames.{CountsBy};
ghost use Rattle.flux_base.specs.World.{sinks_counts};
ghost use Rattle.flux_engine.specs.Blamed.{sink_blame};
ghost use Rattle.imd_image.specs.Outcomes.{SaysOfImd};
ghost use Rattle.imd_image.specs.inside.Told.{ToldTracks};

use crate::finding::find_track;
use crate::reach::{count_of, find_reach};
use crate::room::ImdRoom;
use crate::telling::{write_end, write_track};
use crate::totals::ImdTotals;
use dump_reading::{Dumps, NoFiles};
use dump_turns::Reach;
use flux_base::{Failed, Sink, write_whole};
use flux_engine::Stopped;
use track_shelf::Shelf;

/// The first bytes of a file: a version and a date, a line of our own, and the byte that ends it.
const BEGIN: &str = "IMD 1.18: 01/01/1980 00:00:00\r\nflux\r\n\x1A";

/// Writes the disk of some dumps as a file of ImageDisk, and a report of all that the file leaves out. Each file of a
/// track up to the greatest cylinder and the greatest head of which a dump has one, of cylinders 0 to 98 (0 to 41 by
/// two steps of the drive) and heads 0 and 1, is read once, by all rates and both clocks; one that is missing, refused
/// or fails is told, and costs itself alone. No answer is for want of memory.
///
/// Where a dump has no file of any such track, nothing is written. After a fault of a sink nothing more is read or
/// written: the records before are whole, and nothing is said of others. `ReadFault` does not come.
pub fn write_imd<H: Shelf, W: Sink, N: Sink>(
    dumps: &Dumps,
    room: ImdRoom,
    shelf: &mut H,
    file: &mut W,
    notes: &mut N,
) -> Result<ImdTotals, Stopped<NoFiles>>
    requires some { 1 ≤ length dumps.now.names.now }
    requires few { length dumps.now.names.now ≤ 16 }
    ensures says { SaysOfImd (record { stepping = dumps.now.stepping; names = dumps.now.names.now })
        (shelf_at H.Source H.Shelf.own shelf.old) (shelf_at H.Source H.Shelf.own shelf.new)
        (W.written file.old) (W.written file.new) (N.written notes.old) (N.written notes.new) result }

    // What the shelf did is in what came of it.
    ensures blames { CountsBy (sink_blame result) (sinks_counts W.Sink N.Sink file.old notes.old)
        (sinks_counts W.Sink N.Sink file.new notes.new) }
{
    let reach = match find_reach(dumps, shelf) {
        Ok(reach) => reach,
        Err(empty) => return Err(Stopped::Refused(empty)),
    };
    match write_whole(file, BEGIN.as_bytes()) {
        Ok(()) => {}
        Err(Failed) => return Err(Stopped::ImageFault),
    }
    match write_tracks(dumps, reach, room, shelf, file, notes) {
        Ok(totals) => match write_end(dumps.stepping, &totals, notes) {
            Ok(()) => Ok(totals),
            Err(Failed) => Err(Stopped::NotesFault),
        },
        Err(stopped) => Err(stopped),
    }
}

/// Reads all tracks, and writes the record of each and its lines.
fn write_tracks<H: Shelf, W: Sink, N: Sink>(
    dumps: &Dumps,
    reach: Reach,
    room: ImdRoom,
    shelf: &mut H,
    file: &mut W,
    notes: &mut N,
) -> Result<ImdTotals, Stopped<NoFiles>>
    requires few { length dumps.now.names.now ≤ 16 }
    requires reach { IsBoundedReach reach }
    ensures told { ToldTracks (record { stepping = dumps.now.stepping; names = dumps.now.names.now })
        (shelf_at H.Source H.Shelf.own shelf.old) (shelf_at H.Source H.Shelf.own shelf.new) reach
        (W.written file.old) (W.written file.new) (N.written notes.old) (N.written notes.new) result }
    ensures blames { CountsBy (sink_blame result) (sinks_counts W.Sink N.Sink file.old notes.old)
        (sinks_counts W.Sink N.Sink file.new notes.new) }
{
    let mut room = room;
    let count = dumps.names.len() as u8;
    let mut totals = ImdTotals::none();
    for number in 0..count_of(reach) {
        find_track(
            dumps,
            reach,
            number,
            &mut room.stream,
            &mut room.walk,
            &mut room.track,
            shelf,
        );
        match write_track(count, &room.track, file, notes) {
            Ok(()) => {}
            Err(stopped) => return Err(stopped),
        }
        totals = totals.with(&room.track.tally());
    }
    Ok(totals)
}
