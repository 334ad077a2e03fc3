//! What a track comes to, written to the image and to the notes.

ghost use Rattle.std.specs.Prelude.{◌≤◌, List, IfOk};
ghost use Rattle.flux_base.specs.Blames.{CountsBy};
ghost use Rattle.flux_base.specs.World.{sinks_counts};
ghost use Rattle.sector_images.specs.Places.{IsTrack};
ghost use Rattle.turn_merge.specs.Book.{StandsFor};
ghost use Rattle.turn_merge.specs.Readings.{NotedReading};
ghost use Rattle.flux_engine.specs.Blamed.{part_blame};
ghost use Rattle.flux_engine.specs.Recordings.{sectors_of as sectors_in};
ghost use Rattle.flux_engine.specs.TrackParts.{WritesPart};
ghost use Rattle.flux_engine.specs.Tracks.{named_part};
ghost use Rattle.flux_engine.specs.Writing.{IsSum, Knows};

use crate::writing::{write_image, write_lines};
use disk_recordings::sectors_of;
use flux_base::{Sink, TrackId};
use sector_images::{Format, tracks_keep_bounds};
use sector_report::{Naming, Totals};
use turn_merge::Book;

/// Which sink failed as a track was written.
#[derive(Clone, Copy, Debug, PartialEq, Eq)]
pub enum PartFault {
    /// The sink of the image.
    ImageFault,
    /// The sink of the notes.
    NotesFault,
}

/// Writes what the readings of a track come to: its part of the image, a piece for each sector, in the order of
/// their places there, and then its lines by the sectors' numbers, each in one piece, with so much of each
/// source named. Gives its totals.
pub fn write_part<W: Sink, N: Sink>(
    naming: Naming,
    format: Format,
    track: TrackId,
    book: &Book,
    image: &mut W,
    notes: &mut N,
) -> Result<Totals, PartFault>
    requires track { IsTrack format track }
    requires known { Knows (sectors_in format track) book.now }
    ensures wrote { (readings : List NotedReading) → StandsFor book.now readings
        → WritesPart (named_part naming format track readings) (W.written image.old) (W.written image.new)
        (N.written notes.old) (N.written notes.new) result }
    ensures sum { IfOk result IsSum }
    ensures few { IfOk result (λ totals. totals.sectors ≤ 100) }
    ensures blames { CountsBy (part_blame result)
        (sinks_counts W.Sink N.Sink image.old notes.old)
        (sinks_counts W.Sink N.Sink image.new notes.new) }
{
    tracks_keep_bounds();
    match write_image(format, track, book, image) {
        Ok(()) => {}
        Err(_) => return Err(PartFault::ImageFault),
    }
    match write_lines(naming, track, sectors_of(format, track), book, notes) {
        Ok(totals) => Ok(totals),
        Err(_) => Err(PartFault::NotesFault),
    }
}
