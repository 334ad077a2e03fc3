//! The record of a track and its lines.

ghost use Rattle.std.specs.Prelude.{◌≡◌, ◌<◌, ◌≤◌, flat_map, length};
ghost use Rattle.flux_base.specs.Blames.{CountsBy};
ghost use Rattle.flux_base.specs.Moments.{Puts};
ghost use Rattle.flux_base.specs.World.{sink_at, sinks_counts};
ghost use Rattle.flux_engine.specs.Blamed.{sink_blame};
ghost use Rattle.imd_image.specs.Found.{file_part};
ghost use Rattle.imd_image.specs.Lines.{end_text, file_text, left_by, left_lines, left_part, lines_part, lost_part};
ghost use Rattle.imd_image.specs.Lines.{record_lines, totals_text};
ghost use Rattle.imd_image.specs.inside.Counted.{HasRows};
ghost use Rattle.imd_image.specs.inside.Finding.{found_in};
ghost use Rattle.imd_image.specs.inside.Told.{WroteTrack};
ghost use Rattle.imd_records.specs.Modes.{modes};
ghost use Rattle.imd_records.specs.Records.{AreKnown, names_in};
ghost use Rattle.name_book.specs.Book.{told_at};
ghost use Rattle.std.specs.List.{range_with_len};

use crate::lines::{asks_line, file_line, files_line, sectors_line};
use crate::room::TrackRoom;
use crate::tally::{State, count_rows, is_so};
use crate::totals::ImdTotals;
use dump_reading::NoFiles;
use flux_base::{Failed, Sink, TrackId};
use flux_engine::{PassedStream, Stopped};
use imd_records::{Mode, is_row, left_line, lost_line, mode_line, more_line, write_record};
use name_book::NameBook;
use sector_report::write_line;
use track_shelf::Stepping;

/// Writes the record of a track, and its lines.
pub(crate) fn write_track<W: Sink, N: Sink>(
    dumps: u8,
    room: &TrackRoom,
    file: &mut W,
    notes: &mut N,
) -> Result<(), Stopped<NoFiles>>
    requires cylinder { room.now.track.cylinder < 100 }
    requires head { room.now.track.head < 2 }
    requires known { HasRows room.now }
    ensures wrote { WroteTrack dumps (found_in room.now) (W.written file.old) (W.written file.new)
        (N.written notes.old) (N.written notes.new) result }
    ensures blames { CountsBy (sink_blame result) (sinks_counts W.Sink N.Sink file.old notes.old)
        (sinks_counts W.Sink N.Sink file.new notes.new) }
{
    match write_found(room, file) {
        Ok(()) => {}
        Err(Failed) => return Err(Stopped::ImageFault),
    }
    match write_lines(dumps, room, notes) {
        Ok(()) => Ok(()),
        Err(Failed) => Err(Stopped::NotesFault),
    }
}

/// Writes its record, where that has a sector.
fn write_found<W: Sink>(room: &TrackRoom, file: &mut W) -> Result<(), Failed>
    requires head { room.now.track.head < 2 }
    requires known { HasRows room.now }
    ensures { Puts (sink_at W.Sink file.old) (sink_at W.Sink file.new) (file_part (found_in room.now)) result }
{
    if room.rows.len() == 0 {
        return Ok(());
    }
    let book = room.books.book(room.choice.mode);
    write_record(room.track, room.choice, book, room.rows.as_slice(), file)
}

/// Writes its lines.
fn write_lines<N: Sink>(dumps: u8, room: &TrackRoom, notes: &mut N) -> Result<(), Failed>
    requires cylinder { room.now.track.cylinder < 100 }
    requires known { HasRows room.now }
    ensures { Puts (sink_at N.Sink notes.old) (sink_at N.Sink notes.new) (lines_part dumps (found_in room.now)) result }
{
    match write_passed(dumps, room.track, room.passed.as_slice(), notes) {
        Ok(()) => {}
        Err(failed) => return Err(failed),
    }
    match write_sectors(room, notes) {
        Ok(()) => {}
        Err(failed) => return Err(failed),
    }
    write_left(room, notes)
}

/// Writes the lines of files that were passed over.
fn write_passed<N: Sink>(
    dumps: u8,
    track: TrackId,
    passed: &[PassedStream],
    notes: &mut N,
) -> Result<(), Failed>
    requires { track.cylinder < 100 }
    ensures { Puts (sink_at N.Sink notes.old) (sink_at N.Sink notes.new) (flat_map (file_text dumps track) passed.now)
        result }
{
    for index in 0..passed.len() {
        match write_line(notes, &file_line(dumps, track, &passed[index])) {
            Ok(()) => {}
            Err(failed) => return Err(failed),
        }
    }
    Ok(())
}

/// Writes what the record has, and which of its sectors have no data, where it has a sector.
fn write_sectors<N: Sink>(room: &TrackRoom, notes: &mut N) -> Result<(), Failed>
    requires { HasRows room.now }
    ensures { Puts (sink_at N.Sink notes.old) (sink_at N.Sink notes.new) (record_lines (found_in room.now)) result }
{
    let rows = room.rows.as_slice();
    if rows.len() == 0 {
        return Ok(());
    }
    let book = room.books.book(room.choice.mode);
    let good = count_rows(book, rows, State::Good);
    let line = mode_line(room.track, room.choice, rows.len() as u32, good);
    match write_line(notes, &line) {
        Ok(()) => write_lost(room.track, book, rows, notes),
        Err(failed) => Err(failed),
    }
}

/// Writes which sectors of a record have no data.
fn write_lost<N: Sink>(
    track: TrackId,
    book: &NameBook,
    rows: &[u8],
    notes: &mut N,
) -> Result<(), Failed>
    requires { AreKnown book.now rows.now }
    ensures { Puts (sink_at N.Sink notes.old) (sink_at N.Sink notes.new)
        (flat_map (lost_part track) (names_in book.now rows.now)) result }
{
    for index in 0..rows.len() {
        match write_if_lost(track, book, rows[index], notes) {
            Ok(()) => {}
            Err(failed) => return Err(failed),
        }
    }
    Ok(())
}

/// Writes that a sector has none, where it has none.
fn write_if_lost<N: Sink>(
    track: TrackId,
    book: &NameBook,
    row: u8,
    notes: &mut N,
) -> Result<(), Failed>
    requires { row < length book.now.told }
    ensures { Puts (sink_at N.Sink notes.old) (sink_at N.Sink notes.new) (lost_part track (told_at book.now row)) result }
{
    if is_so(book, row, State::Good) {
        return Ok(());
    }
    write_line(notes, &lost_line(track, book.kind(row), book.name(row)))
}

/// Writes which names are left out, mode by mode.
fn write_left<N: Sink>(room: &TrackRoom, notes: &mut N) -> Result<(), Failed>
    ensures { Puts (sink_at N.Sink notes.old) (sink_at N.Sink notes.new) (flat_map (left_by (found_in room.now)) modes)
        result }
{
    match write_left_by(room, Mode::Mfm250, notes) {
        Ok(()) => {}
        Err(failed) => return Err(failed),
    }
    match write_left_by(room, Mode::Mfm500, notes) {
        Ok(()) => {}
        Err(failed) => return Err(failed),
    }
    match write_left_by(room, Mode::Fm250, notes) {
        Ok(()) => {}
        Err(failed) => return Err(failed),
    }
    write_left_by(room, Mode::Fm500, notes)
}

/// Those of a mode, and whether names were passed over.
fn write_left_by<N: Sink>(room: &TrackRoom, mode: Mode, notes: &mut N) -> Result<(), Failed>
    ensures { Puts (sink_at N.Sink notes.old) (sink_at N.Sink notes.new) (left_by (found_in room.now) mode) result }
{
    let book = room.books.book(mode);
    match write_names(room.track, mode, book, room.rows_by(mode), notes) {
        Ok(()) => {}
        Err(failed) => return Err(failed),
    }
    if book.has_more() {
        return write_line(notes, &more_line(room.track, mode));
    }
    Ok(())
}

/// Writes which names of a mode are none of the rows.
fn write_names<N: Sink>(
    track: TrackId,
    mode: Mode,
    book: &NameBook,
    rows: &[u8],
    notes: &mut N,
) -> Result<(), Failed>
    ensures { Puts (sink_at N.Sink notes.old) (sink_at N.Sink notes.new)
        (flat_map (left_part track mode book.now rows.now) (range_with_len 0 (length book.now.told))) result }
{
    for number in 0..book.count() {
        match write_if_left(track, mode, book, rows, number, notes) {
            Ok(()) => {}
            Err(failed) => return Err(failed),
        }
    }
    Ok(())
}

/// Writes that a name is left out, where it is none of the rows.
fn write_if_left<N: Sink>(
    track: TrackId,
    mode: Mode,
    book: &NameBook,
    rows: &[u8],
    number: u8,
    notes: &mut N,
) -> Result<(), Failed>
    requires { number < length book.now.told }
    ensures { Puts (sink_at N.Sink notes.old) (sink_at N.Sink notes.new) (left_part track mode book.now rows.now number)
        result }
{
    if is_row(rows, number) {
        return Ok(());
    }
    write_line(
        notes,
        &left_line(track, mode, book.kind(number), book.name(number)),
    )
}

/// Writes the lines behind those of all tracks.
pub(crate) fn write_end<N: Sink>(
    stepping: Stepping,
    totals: &ImdTotals,
    notes: &mut N,
) -> Result<(), Failed>
    ensures { Puts (sink_at N.Sink notes.old) (sink_at N.Sink notes.new) (end_text stepping totals.now) result }
{
    match write_totals(totals, notes) {
        Ok(()) => {}
        Err(failed) => return Err(failed),
    }
    if totals.asks(stepping) {
        return write_line(notes, &asks_line());
    }
    Ok(())
}

/// Writes how many there are of each kind.
fn write_totals<N: Sink>(totals: &ImdTotals, notes: &mut N) -> Result<(), Failed>
    ensures { Puts (sink_at N.Sink notes.old) (sink_at N.Sink notes.new) (totals_text totals.now) result }
{
    match write_line(notes, &sectors_line(totals)) {
        Ok(()) => write_line(notes, &files_line(totals)),
        Err(failed) => Err(failed),
    }
}
