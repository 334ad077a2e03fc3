//! The revolutions of all files of a dump.

ghost use Rattle.std.specs.Prelude.{◌≡◌, ◌≤◌, ◌<◌, All, is_err, length, IfSome};
ghost use Rattle.std.specs.Vec.{vec_capacity};
ghost use Rattle.flux_base.specs.Blames.{CountsBy, no_counts, three_counts};
ghost use Rattle.flux_base.specs.Counts.{Counts};
ghost use Rattle.flux_base.specs.Moments.{Puts};
ghost use Rattle.flux_base.specs.World.{sink_at, sink_counts};
ghost use Rattle.flux_engine.specs.Blamed.{sink_blame};
ghost use Rattle.dump_reading.specs.Files.{shelf_at};
ghost use Rattle.dump_turns.specs.Files.{AreFound, means_in};
ghost use Rattle.dump_turns.specs.Lines.{end_text, file_lines, found_text, spread_lines, totals_of, uneven_lines};
ghost use Rattle.dump_turns.specs.Lines.{far_mean, uneven_text};
ghost use Rattle.dump_turns.specs.Outcomes.{SaysOfTurns};
ghost use Rattle.dump_turns.specs.Reaches.{IsBoundedReach, count_in};
ghost use Rattle.dump_turns.specs.Spreads.{IsBoundedSpread, IsSpreadOf};
ghost use Rattle.dump_turns.specs.inside.Told.{FoundInto, IsBoundedFound};

use crate::files::find_one;
use crate::found::Found;
use crate::lines::{counts_line, passed_line, spread_line, ticks_line, totals_line, uneven_line};
use crate::reach::{Reach, find_reach};
use crate::room::TurnsRoom;
use crate::spread::{Spread, spread_of};
use crate::totals::TurnTotals;
use dump_reading::NoFiles;
use flux_base::{Failed, Sink, TrackId, Word};
use flux_engine::Stopped;
use kryo_stream::StreamRoom;
use sector_report::write_line;
use track_shelf::Shelf;

/// Tells the revolutions of a dump's files, of cylinders 0 to 98 and heads 0 and 1: a line for each track up to the
/// greatest cylinder and the greatest head that have a file. Each file is read once, and its line is written as soon as
/// it was; one that is missing, refused or fails is told, and costs itself alone. Then each file has a line whose mean
/// revolution is more than 5 in 1000 from the median of all, and the median has one; the last line has the totals.
/// No answer is for want of memory.
///
/// A dump that has no file of any such track is refused, and nothing is written. After a fault of the sink nothing more
/// is read or written, and the lines before are written whole. `ImageFault` is that of the lines. No notes are written,
/// so `NotesFault` does not come, and `ReadFault` neither.
pub fn tell_turns<H: Shelf, W: Sink>(
    dump: &Word,
    room: TurnsRoom,
    shelf: &mut H,
    lines: &mut W,
) -> Result<TurnTotals, Stopped<NoFiles>>
    ensures says { SaysOfTurns dump.now (shelf_at H.Source H.Shelf.own shelf.old)
        (shelf_at H.Source H.Shelf.own shelf.new) (W.written lines.old) (W.written lines.new) result }

    // What the shelf did is in what came of it.
    ensures blames { CountsBy (sink_blame result)
        (three_counts no_counts (sink_counts W.Sink lines.old) no_counts)
        (three_counts no_counts (sink_counts W.Sink lines.new) no_counts) }
{
    let Some(reach) = find_reach(dump.bytes(), shelf) else {
        return Err(Stopped::Refused(NoFiles { dump: 0 }));
    };
    let mut room = room;
    match tell_files(
        dump,
        reach,
        &mut room.buffer,
        &mut room.stream,
        &mut room.founds,
        shelf,
        lines,
    ) {
        Ok(()) => {}
        Err(Failed) => return Err(Stopped::ImageFault),
    }
    let spread = spread_among(&room.founds, &mut room.means);
    match tell_end(reach, &room.founds, &spread, lines) {
        Ok(()) => Ok(totals(&room.founds, &spread)),
        Err(Failed) => Err(Stopped::ImageFault),
    }
}

/// Reads all files, and writes their lines. What was found before is forgotten.
pub(crate) fn tell_files<H: Shelf, W: Sink>(
    dump: &Word,
    reach: Reach,
    buffer: &mut [u8],
    stream: &mut StreamRoom,
    founds: &mut Vec<Found>,
    shelf: &mut H,
    lines: &mut W,
) -> Result<(), Failed>
    requires buffer { length buffer.old ≡ 8388608 }
    requires reach { IsBoundedReach reach }
    requires room { 198 ≤ vec_capacity founds.old }
    ensures found { AreFound dump.now reach (shelf_at H.Source H.Shelf.own shelf.old)
        (shelf_at H.Source H.Shelf.own shelf.new) founds.new.items }
    ensures bounded { All IsBoundedFound founds.new.items }
    ensures written { FoundInto reach (W.written lines.old) (W.written lines.new) founds.new.items result }
    ensures counts { Counts (is_err result) (sink_counts W.Sink lines.old) (sink_counts W.Sink lines.new) }
    ensures buffer { length buffer.new ≡ length buffer.old }
    ensures room { 198 ≤ vec_capacity founds.new }
{
    founds.clear();
    for number in 0..reach.count() {
        let track = reach.track(number);
        let found = find_one(dump.bytes(), track, buffer, stream, shelf);
        founds.push_reserved(found);
        match write_found(track, &found, lines) {
            Ok(()) => {}
            Err(failed) => return Err(failed),
        }
    }
    Ok(())
}

/// Writes the line of a file.
fn write_found<W: Sink>(track: TrackId, found: &Found, lines: &mut W) -> Result<(), Failed>
    requires { IsBoundedFound found.now }
    ensures { Puts (sink_at W.Sink lines.old) (sink_at W.Sink lines.new) (found_text track found.now) result }
{
    match found {
        Found::PassedOver(why) => write_line(lines, &passed_line(track, *why)),
        Found::Read(turns) => match write_line(lines, &counts_line(track, turns)) {
            Ok(()) => write_line(lines, &ticks_line(turns)),
            Err(failed) => Err(failed),
        },
    }
}

/// How far the means of the files that are read lie apart. The means are taken and put in order.
pub(crate) fn spread_among(founds: &[Found], means: &mut Vec<u64>) -> Option<Spread>
    requires bounded { All IsBoundedFound founds.now }
    requires few { length founds.now ≤ 198 }
    requires room { 198 ≤ vec_capacity means.old }
    ensures is { IsSpreadOf (means_in founds.now) result }
    ensures bounded { IfSome result IsBoundedSpread }
    ensures room { 198 ≤ vec_capacity means.new }
{
    means.clear();
    for number in 0..founds.len() {
        match &founds[number] {
            Found::Read(turns) => means.push_reserved(turns.mean()),
            Found::PassedOver(_) => {}
        }
    }
    if means.is_empty() {
        None
    } else {
        Some(spread_of(means))
    }
}

/// Writes the lines behind those of the files.
fn tell_end<W: Sink>(
    reach: Reach,
    founds: &[Found],
    spread: &Option<Spread>,
    lines: &mut W,
) -> Result<(), Failed>
    requires reach { IsBoundedReach reach }
    requires few { length founds.now ≤ count_in reach }
    requires bounded { All IsBoundedFound founds.now }
    requires spread { IfSome spread.now IsBoundedSpread }
    ensures { Puts (sink_at W.Sink lines.old) (sink_at W.Sink lines.new) (end_text reach founds.now spread.now)
        result }
{
    match write_spread(reach, founds, spread, lines) {
        Ok(()) => write_line(lines, &totals_line(&totals(founds, spread))),
        Err(failed) => Err(failed),
    }
}

/// Writes the lines of the files that are far from the median, and that of the median, where a file was read.
fn write_spread<W: Sink>(
    reach: Reach,
    founds: &[Found],
    spread: &Option<Spread>,
    lines: &mut W,
) -> Result<(), Failed>
    requires reach { IsBoundedReach reach }
    requires few { length founds.now ≤ count_in reach }
    requires bounded { All IsBoundedFound founds.now }
    requires spread { IfSome spread.now IsBoundedSpread }
    ensures { Puts (sink_at W.Sink lines.old) (sink_at W.Sink lines.new) (spread_lines reach founds.now spread.now)
        result }
{
    let Some(spread) = spread else {
        return Ok(());
    };
    match write_uneven(reach, founds, spread.median, lines) {
        Ok(()) => write_line(lines, &spread_line(spread)),
        Err(failed) => Err(failed),
    }
}

/// Writes the lines of the files that are far from the median.
fn write_uneven<W: Sink>(
    reach: Reach,
    founds: &[Found],
    median: u64,
    lines: &mut W,
) -> Result<(), Failed>
    requires reach { IsBoundedReach reach }
    requires few { length founds.now ≤ count_in reach }
    requires bounded { All IsBoundedFound founds.now }
    requires median { median < 1000000000000 }
    ensures { Puts (sink_at W.Sink lines.old) (sink_at W.Sink lines.new) (uneven_lines reach founds.now median)
        result }
{
    for number in 0..founds.len() {
        match write_if_uneven(reach.track(number as u8), &founds[number], median, lines) {
            Ok(()) => {}
            Err(failed) => return Err(failed),
        }
    }
    Ok(())
}

/// Writes the line of a file that is far from the median.
fn write_if_uneven<W: Sink>(
    track: TrackId,
    found: &Found,
    median: u64,
    lines: &mut W,
) -> Result<(), Failed>
    requires bounded { IsBoundedFound found.now }
    requires median { median < 1000000000000 }
    ensures { Puts (sink_at W.Sink lines.old) (sink_at W.Sink lines.new) (uneven_text track (far_mean median found.now))
        result }
{
    match found.far_mean(median) {
        Some(mean) => write_line(lines, &uneven_line(track, mean)),
        None => Ok(()),
    }
}

/// Counts the files of each kind.
pub(crate) fn totals(founds: &[Found], spread: &Option<Spread>) -> TurnTotals
    requires few { length founds.now ≤ 198 }
    requires bounded { All IsBoundedFound founds.now }
    requires spread { IfSome spread.now IsBoundedSpread }
    ensures { result ≡ totals_of founds.now spread.now }
{
    let mut totals = TurnTotals {
        files: 0,
        refused: 0,
        missing: 0,
        uneven: 0,
        failed: 0,
    };
    for number in 0..founds.len() {
        totals.note(&founds[number], spread);
    }
    totals
}
