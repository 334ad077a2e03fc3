//! The notes of files that turned otherwise than the others of their dump.

ghost use Rattle.std.specs.Prelude.{◌≡◌, ◌≤◌, IfSome, length};
ghost use Rattle.flux_base.specs.Moments.{Puts};
ghost use Rattle.flux_base.specs.World.{sink_at};
ghost use Rattle.dump_reading.specs.Files.{shelf_at};
ghost use Rattle.dump_turns.specs.Reaches.{IsBoundedReach, count_in};
ghost use Rattle.dump_turns.specs.Spreads.{IsBoundedSpread};
ghost use Rattle.disk_summary.specs.Texts.{notes_text};
ghost use Rattle.disk_summary.specs.Turns.{NotedTurns, notes_of_mean, notes_of_turns};
ghost use Rattle.disk_summary.specs.inside.DumpNotes.{NotedDump};

use crate::note::{Note, note_piece};
use dump_turns::{DumpTurns, TurnsRoom, measure_turns};
use flux_base::{Failed, Sink, TrackId, Word};
use sector_report::write_line;
use track_shelf::Shelf;

/// Measures the revolutions of all files of dumps, and writes a note of each file whose mean is more than 5 in 1000
/// from the median of its dump's files: dump by dump, cylinder by cylinder, head by head. Gives whether a file failed.
/// A dump without files has no notes.
///
/// After `Failed` nothing more is read or written.
pub fn note_turns<H: Shelf, N: Sink>(
    dumps: &[Word],
    room: &mut TurnsRoom,
    shelf: &mut H,
    notes: &mut N,
) -> Result<bool, Failed>
    requires few { length dumps.now ≤ 16 }
    ensures noted { NotedTurns dumps.now (shelf_at H.Source H.Shelf.own shelf.old)
        (shelf_at H.Source H.Shelf.own shelf.new) (sink_at N.Sink notes.old) (sink_at N.Sink notes.new) result }
{
    let mut failed = false;
    for number in 0..dumps.len() {
        match note_dump(&dumps[number], number as u8, room, shelf, notes) {
            Ok(here) => failed = failed | here,
            Err(fault) => return Err(fault),
        }
    }
    Ok(failed)
}

/// Measures a dump and writes its notes. Gives whether a file failed.
fn note_dump<H: Shelf, N: Sink>(
    dump: &Word,
    number: u8,
    room: &mut TurnsRoom,
    shelf: &mut H,
    notes: &mut N,
) -> Result<bool, Failed>
    ensures { NotedDump dump.now number (shelf_at H.Source H.Shelf.own shelf.old)
        (shelf_at H.Source H.Shelf.own shelf.new) (sink_at N.Sink notes.old) (sink_at N.Sink notes.new) result }
{
    match measure_turns(dump, room, shelf) {
        Some(turns) => match write_uneven(number, &turns, room, notes) {
            Ok(()) => Ok(turns.totals.failed > 0),
            Err(fault) => Err(fault),
        },
        None => Ok(false),
    }
}

/// Writes the notes of a dump's files that are far from the median.
fn write_uneven<N: Sink>(
    dump: u8,
    turns: &DumpTurns,
    room: &TurnsRoom,
    notes: &mut N,
) -> Result<(), Failed>
    requires reach { IsBoundedReach turns.now.reach }
    requires all { length room.now ≡ count_in turns.now.reach }
    requires spread { IfSome turns.now.spread IsBoundedSpread }
    ensures { Puts (sink_at N.Sink notes.old) (sink_at N.Sink notes.new)
        (notes_text (notes_of_turns dump turns.now room.now)) result }
{
    for number in 0..turns.reach.count() {
        let track = turns.reach.track(number);
        let mean = room.uneven_mean(number, &turns.spread);
        match write_mean(track, dump, mean, notes) {
            Ok(()) => {}
            Err(failed) => return Err(failed),
        }
    }
    Ok(())
}

/// Writes the note of a mean that is far from the median.
fn write_mean<N: Sink>(
    track: TrackId,
    dump: u8,
    mean: Option<u64>,
    notes: &mut N,
) -> Result<(), Failed>
    ensures { Puts (sink_at N.Sink notes.old) (sink_at N.Sink notes.new) (notes_text (notes_of_mean track dump mean))
        result }
{
    match mean {
        Some(ticks) => write_line(notes, &note_piece(&Note::Uneven { track, dump, ticks })),
        None => Ok(()),
    }
}
