//! What becomes of a track in the notes of a summary.

ghost use Rattle.std.specs.Prelude.{◌≡◌, List, [], cond, is_err};
ghost use Rattle.flux_base.specs.Counts.{Counts};
ghost use Rattle.flux_base.specs.Moments.{Puts};
ghost use Rattle.flux_base.specs.World.{sink_at, sink_counts};
ghost use Rattle.flux_engine.specs.Recordings.{sectors_of as sectors_in};
ghost use Rattle.flux_engine.specs.Tracks.{is_good};
ghost use Rattle.flux_engine.specs.Writing.{Knows};
ghost use Rattle.sector_images.specs.Places.{IsTrack};
ghost use Rattle.turn_merge.specs.Book.{StandsFor};
ghost use Rattle.turn_merge.specs.Readings.{NotedReading};
ghost use Rattle.disk_summary.specs.Dumps.{noted_beside, noted_track};
ghost use Rattle.disk_summary.specs.Notes.{notes_of_names, notes_of_others, notes_of_passed, notes_of_sectors};
ghost use Rattle.disk_summary.specs.Notes.{notes_of_verdict};
ghost use Rattle.disk_summary.specs.Texts.{note_text, notes_text};

use crate::note::{Note, note_piece};
use disk_map::{LineWriter, kind_of};
use dump_reading::BesideWriter;
use flux_base::{Failed, Sink, TrackId};
use flux_engine::{Gathered, NoSecond, PassedStream, sectors_of};
use sector_images::{Format, tracks_keep_bounds};
use sector_report::write_line;
use turn_merge::{Book, OtherTold, Others, Verdict};

/// Writes the notes of a track.
#[derive(Clone, Copy, Debug)]
pub struct NoteWriter;

impl LineWriter for NoteWriter {
    ghost track_lines_of = { λ _. noted_track };

    fn write_lines<N: Sink>(
        &self,
        format: Format,
        track: TrackId,
        gathered: &Gathered,
        notes: &mut N,
    ) -> Result<(), Failed> {
        match write_passed(track, &gathered.passed, notes) {
            Ok(()) => {}
            Err(failed) => return Err(failed),
        }
        match write_sectors(format, track, &gathered.book, notes) {
            Ok(()) => {}
            Err(failed) => return Err(failed),
        }
        write_others(track, &gathered.others, notes)
    }
}

impl BesideWriter<NoSecond> for NoteWriter {
    ghost lines_of = { λ _. noted_beside };

    ghost second_lines_of = { λ _. noted_beside };

    fn write_beside<N: Sink>(
        &self,
        track: TrackId,
        gathered: &Gathered,
        notes: &mut N,
        second: &mut NoSecond,
    ) -> Result<(), Failed> {
        match write_passed(track, &gathered.passed, notes) {
            Ok(()) => write_others(track, &gathered.others, notes),
            Err(failed) => Err(failed),
        }
    }
}

/// Writes a note for each stream of a track that was passed over.
fn write_passed<N: Sink>(
    track: TrackId,
    passed: &[PassedStream],
    notes: &mut N,
) -> Result<(), Failed>
    ensures { Puts (sink_at N.Sink notes.old) (sink_at N.Sink notes.new)
        (notes_text (notes_of_passed track passed.now)) result }
{
    for number in 0..passed.len() {
        let stream = passed[number];
        let note = Note::Unread {
            track,
            dump: stream.capture,
            why: stream.why,
        };
        match write_line(notes, &note_piece(&note)) {
            Ok(()) => {}
            Err(failed) => return Err(failed),
        }
    }
    Ok(())
}

/// Writes a note for each sector of a track that is not good, by the sectors' numbers.
fn write_sectors<N: Sink>(
    format: Format,
    track: TrackId,
    book: &Book,
    notes: &mut N,
) -> Result<(), Failed>
    requires track { IsTrack format track }
    requires knows { Knows (sectors_in format track) book.now }
    ensures wrote { (readings : List NotedReading) → StandsFor book.now readings
        → Puts (sink_at N.Sink notes.old) (sink_at N.Sink notes.new)
        (notes_text (notes_of_sectors format track readings)) result }
    ensures counts { Counts (is_err result) (sink_counts N.Sink notes.old) (sink_counts N.Sink notes.new) }
{
    tracks_keep_bounds();
    let sectors = sectors_of(format, track);
    for index in 0..sectors.count {
        let sector = sectors.first + index;
        let outcome = book.verdict(sector);
        match write_sector(track, sector, &outcome, notes) {
            Ok(()) => {}
            Err(failed) => return Err(failed),
        }
    }
    Ok(())
}

/// Writes the note of a sector, where it is not good.
fn write_sector<N: Sink>(
    track: TrackId,
    sector: u8,
    verdict: &Verdict,
    notes: &mut N,
) -> Result<(), Failed>
    ensures { Puts (sink_at N.Sink notes.old) (sink_at N.Sink notes.new)
        (notes_text (notes_of_verdict track sector verdict.now)) result }
{
    let note = Note::Sector {
        track,
        sector,
        kind: kind_of(verdict),
    };
    write_if(!is_good(verdict), &note, notes)
}

/// Whether a sector is good.
fn is_good(verdict: &Verdict) -> bool
    ensures { result ≡ is_good verdict.now }
{
    matches!(verdict, Verdict::Good { .. })
}

/// Writes the notes of other headers of a track.
fn write_others<N: Sink>(track: TrackId, others: &Others, notes: &mut N) -> Result<(), Failed>
    ensures { Puts (sink_at N.Sink notes.old) (sink_at N.Sink notes.new)
        (notes_text (notes_of_others track others.now.told others.now.untold)) result }
{
    match write_names(track, others.told(), notes) {
        Ok(()) => write_if(others.has_untold(), &Note::Untold { track }, notes),
        Err(failed) => Err(failed),
    }
}

/// Writes a note for each name that is told and has whole data.
fn write_names<N: Sink>(track: TrackId, told: &[OtherTold], notes: &mut N) -> Result<(), Failed>
    ensures { Puts (sink_at N.Sink notes.old) (sink_at N.Sink notes.new) (notes_text (notes_of_names track told.now))
        result }
{
    for number in 0..told.len() {
        let name = &told[number];
        let note = Note::Other { track, told: *name };
        match write_if(name.has_data(), &note, notes) {
            Ok(()) => {}
            Err(failed) => return Err(failed),
        }
    }
    Ok(())
}

/// Writes a note where it is wanted.
fn write_if<N: Sink>(wanted: bool, note: &Note, notes: &mut N) -> Result<(), Failed>
    ensures { Puts (sink_at N.Sink notes.old) (sink_at N.Sink notes.new) (cond wanted (note_text note.now) []) result }
{
    if wanted {
        write_line(notes, &note_piece(note))
    } else {
        Ok(())
    }
}
