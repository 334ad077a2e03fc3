//! What becomes of what was gathered of a track.

ghost use Rattle.std.specs.Prelude.{◌≤◌, List, IfOk};
ghost use Rattle.flux_base.specs.Blames.{CountsBy};
ghost use Rattle.flux_base.specs.World.{sinks_counts};
ghost use Rattle.sector_images.specs.Places.{IsTrack};
ghost use Rattle.turn_merge.specs.Book.{StandsFor};
ghost use Rattle.turn_merge.specs.Others.{NotedOther, OthersStandFor};
ghost use Rattle.turn_merge.specs.Readings.{NotedReading};
ghost use Rattle.flux_engine.specs.Blamed.{part_blame};
ghost use Rattle.flux_engine.specs.Plans.{PartOf};
ghost use Rattle.flux_engine.specs.Recordings.{sectors_of as sectors_in};
ghost use Rattle.flux_engine.specs.SecondSinks.{WritesSecond};
ghost use Rattle.flux_engine.specs.TrackParts.{WritesPart};
ghost use Rattle.flux_engine.specs.Tracks.{part_by, track_notes};
ghost use Rattle.flux_engine.specs.Writing.{IsSum, Knows};

use crate::gathered_track::Gathered;
use crate::second_sinks::{NoSecond, SecondSinks};
use crate::track_part::{PartFault, write_part};
use flux_base::{Sink, TrackId};
use sector_images::Format;
use sector_report::{Naming, Totals};

/// What becomes of a track's verdicts, of its streams that were passed over and of other headers: bytes for
/// two sinks, `image` and `notes`, and bytes for a second pair, if it has one.
pub trait TrackWriter<D: SecondSinks> {
    /// What a track comes to by what was gathered of it: the bytes for either sink, and the track's totals.
    ghost part_of: { Self → PartOf };

    /// The same for the second sinks.
    ghost second_part_of: { Self → PartOf };

    /// Writes what a track comes to, first to `image` and then to `notes`, and then to the second sinks, whose faults
    /// end nothing. Gives its totals.
    fn write_track<W: Sink, N: Sink>(
        &self,
        format: Format,
        track: TrackId,
        gathered: &Gathered,
        image: &mut W,
        notes: &mut N,
        second: &mut D,
    ) -> Result<Totals, PartFault>
        requires track { IsTrack format track }
        requires known { Knows (sectors_in format track) gathered.now.book }
        ensures wrote { (readings : List NotedReading) (others : List NotedOther) → StandsFor gathered.now.book readings
            → OthersStandFor gathered.now.others others
            → WritesPart (part_of self.now format track (track_notes readings gathered.now.passed.items others))
            (W.written image.old) (W.written image.new) (N.written notes.old) (N.written notes.new) result }
        ensures second { (readings : List NotedReading) (others : List NotedOther) → StandsFor gathered.now.book readings
            → OthersStandFor gathered.now.others others
            → WritesSecond
            (second_part_of self.now format track (track_notes readings gathered.now.passed.items others))
            (D.now second.old) (D.now second.new) result }
        ensures sum { IfOk result IsSum }
        ensures few { IfOk result (λ totals. totals.sectors ≤ 100) }
        ensures blames { CountsBy (part_blame result)
            (sinks_counts W.Sink N.Sink image.old notes.old)
            (sinks_counts W.Sink N.Sink image.new notes.new) };
}

/// The track's part of the image, and its lines of the report. Nothing is told of streams that were passed over, or of
/// other headers.
#[derive(Clone, Copy, Debug)]
pub struct ImageAndReport {
    /// How the lines name the places of readings.
    pub naming: Naming,
}

impl TrackWriter<NoSecond> for ImageAndReport {
    ghost part_of = { λ writer. part_by writer.naming };

    ghost second_part_of = { λ writer. part_by writer.naming };

    fn write_track<W: Sink, N: Sink>(
        &self,
        format: Format,
        track: TrackId,
        gathered: &Gathered,
        image: &mut W,
        notes: &mut N,
        second: &mut NoSecond,
    ) -> Result<Totals, PartFault> {
        write_part(self.naming, format, track, &gathered.book, image, notes)
    }
}
