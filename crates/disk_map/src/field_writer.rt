//! The fields of a track: what becomes of its verdicts in a picture, and the lines that are written beside them.

ghost use Rattle.std.specs.Prelude.{◌≡◌, ◌≤◌, List, map, is_err, OnErr, OnOk, IfOk};
ghost use Rattle.std.specs.Io.KnownBytes.{Appends};
ghost use Rattle.flux_base.specs.Counts.{Counts};
ghost use Rattle.flux_base.specs.Outside.{AppendsPart};
ghost use Rattle.flux_base.specs.Moments.{Puts};
ghost use Rattle.flux_base.specs.World.{sink_at, sink_counts};
ghost use Rattle.flux_engine.specs.Recordings.{sectors_of as sectors_in};
ghost use Rattle.flux_engine.specs.Tracks.{numbers, totals_of, track_notes};
ghost use Rattle.flux_engine.specs.Writing.{IsSum, Knows};
ghost use Rattle.sector_images.specs.Places.{IsTrack};
ghost use Rattle.turn_merge.specs.Book.{StandsFor};
ghost use Rattle.turn_merge.specs.Others.{NotedOther, OthersStandFor};
ghost use Rattle.turn_merge.specs.Readings.{NotedReading, verdict as verdict_over};
ghost use Rattle.disk_map.specs.Maps.{TrackLinesOf, drawn_with, fields_by, no_track_lines};

use crate::layout::Layout;
use crate::text::write_text;
use crate::texts::field_by;
use dump_reading::{BesideWriter, Unsaid};
use flux_base::{Failed, Sink, TrackId};
use flux_engine::{
    Gathered, NoSecond, PartFault, TrackWriter, count_verdict, no_totals, sectors_of,
};
use sector_images::{Format, tracks_keep_bounds};
use sector_report::{Naming, Totals};
use turn_merge::Book;

/// What is written of a track beside its fields, to the sink of the notes: lines, or nothing. Those of a track that is
/// none of the format's stand alone.
pub trait LineWriter: BesideWriter<NoSecond> {
    /// The lines of a track of the format, by what was gathered of it.
    ghost track_lines_of: { Self → TrackLinesOf };

    /// Writes them, each in one piece.
    fn write_lines<N: Sink>(
        &self,
        format: Format,
        track: TrackId,
        gathered: &Gathered,
        notes: &mut N,
    ) -> Result<(), Failed>
        requires track { IsTrack format track }
        requires known { Knows (sectors_in format track) gathered.now.book }
        ensures wrote { (readings : List NotedReading) (others : List NotedOther) → StandsFor gathered.now.book readings
            → OthersStandFor gathered.now.others others
            → Puts (sink_at N.Sink notes.old) (sink_at N.Sink notes.new)
            (track_lines_of self.now format track (track_notes readings gathered.now.passed.items others)) result }
        ensures counts { Counts (is_err result) (sink_counts N.Sink notes.old) (sink_counts N.Sink notes.new) };
}

impl LineWriter for Unsaid {
    ghost track_lines_of = { λ _. no_track_lines };

    fn write_lines<N: Sink>(
        &self,
        format: Format,
        track: TrackId,
        gathered: &Gathered,
        notes: &mut N,
    ) -> Result<(), Failed> {
        Ok(())
    }
}

/// Writes the fields of a track to the sink of the image, and lines to that of the notes.
#[derive(Clone, Copy, Debug)]
pub struct FieldWriter<'a, L> {
    /// How their titles name the places of readings.
    pub naming: Naming,
    /// Whose lines they are.
    pub lines: &'a L,
}

impl<'a, L: LineWriter> TrackWriter<NoSecond> for FieldWriter<'a, L> {
    ghost part_of = { λ writer. drawn_with (L.track_lines_of writer.lines.now) writer.naming };

    ghost second_part_of = { λ writer. drawn_with (L.track_lines_of writer.lines.now) writer.naming };

    fn write_track<W: Sink, N: Sink>(
        &self,
        format: Format,
        track: TrackId,
        gathered: &Gathered,
        image: &mut W,
        notes: &mut N,
        second: &mut NoSecond,
    ) -> Result<Totals, PartFault> {
        let totals = match write_fields(self.naming, format, track, &gathered.book, image) {
            Ok(totals) => totals,
            Err(_) => return Err(PartFault::ImageFault),
        };
        match self.lines.write_lines(format, track, gathered, notes) {
            Ok(()) => Ok(totals),
            Err(_) => Err(PartFault::NotesFault),
        }
    }
}

/// Writes the fields of a track, one for each sector, by the sectors' numbers, each in one piece,
/// and gives the track's totals.
fn write_fields<P: Sink>(
    naming: Naming,
    format: Format,
    track: TrackId,
    book: &Book,
    picture: &mut P,
) -> Result<Totals, Failed>
    requires track { IsTrack format track }
    requires knows { Knows (sectors_in format track) book.now }
    ensures ok { OnOk result
        ((readings : List NotedReading) → StandsFor book.now readings
        → Appends (P.written picture.old) (P.written picture.new) (fields_by naming format track readings)) }
    ensures counted { IfOk result (λ totals. IsSum totals × (totals.sectors ≤ 100)) }
    ensures totals { IfOk result
        (λ totals.
        (readings : List NotedReading) → StandsFor book.now readings
        → totals ≡ totals_of (map (verdict_over readings) (numbers (sectors_in format track)))) }
    ensures err { OnErr result
        ((readings : List NotedReading) → StandsFor book.now readings
        → AppendsPart (P.written picture.old) (P.written picture.new) (fields_by naming format track readings)) }
    ensures counts { Counts (is_err result) (sink_counts P.Sink picture.old) (sink_counts P.Sink picture.new) }
{
    tracks_keep_bounds();
    let layout = Layout::of_format(format);
    let sectors = sectors_of(format, track);
    let mut totals = no_totals();
    for index in 0..sectors.count {
        let sector = sectors.first + index;
        let outcome = book.verdict(sector);
        match write_text(picture, &field_by(naming, layout, track, sector, &outcome)) {
            Ok(()) => count_verdict(&mut totals, outcome),
            Err(failed) => return Err(failed),
        }
    }
    Ok(totals)
}
