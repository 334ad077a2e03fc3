ghost use Rattle.std.specs.Prelude.{◌≤◌, ◌<◌, ◌+◌, ◌^◌, All, length};
ghost use Rattle.flux_base.specs.Moments.{Puts};
ghost use Rattle.flux_base.specs.World.{sink_at};
ghost use Rattle.flux_writer.specs.Reading.{EndsWithTransition};
ghost use Rattle.flux_writer.specs.Trailing.{stream_of_capture};
ghost use Rattle.flux_writer.specs.Written.{stream_of_times};
ghost use Rattle.track_rings.specs.Rings.{last_in};

use crate::indexes::IndexUnit;
use crate::laws::capture_law;
use crate::stream::StreamWriter;
use flux_base::{Failed, Sink};
use index_turns::TrackFlux;

/// Writes the stream of the track's transitions and index times. The last index time lies less than 2^32 ticks behind
/// the last transition, times and index times number at most 16777216 together, and no transition is above 2^39 ticks.
///
/// `Failed` comes only where the sink's count of faults rose. Then a shorter prefix of the stream was written.
pub fn write_times<W: Sink>(flux: &TrackFlux, sink: &mut W) -> Result<(), Failed>
    requires near { last_in flux.now.indexes < last_in flux.now.times + 2 ^ 32 }
    requires few { length flux.now.times + length flux.now.indexes ≤ 16777216 }
    requires early { All (λ time. time ≤ 2 ^ 39) flux.now.times }
    ensures puts { Puts (sink_at W.Sink sink.old) (sink_at W.Sink sink.new)
        (stream_of_capture flux.now.times flux.now.indexes) result }

    // Where the last index time lies before the last transition, none stands behind it.
    ensures ended { EndsWithTransition flux.now.times flux.now.indexes
        → Puts (sink_at W.Sink sink.old) (sink_at W.Sink sink.new) (stream_of_times flux.now.times flux.now.indexes)
        result }
{
    capture_law();
    let mut stream = StreamWriter::new(flux.indexes(), IndexUnit::Ticks);
    for time in flux.times() {
        match stream.transition(*time, sink) {
            Ok(()) => {}
            Err(failed) => return Err(failed),
        }
    }
    match stream.write_trailing(sink) {
        Ok(()) => stream.finish(sink),
        Err(failed) => Err(failed),
    }
}
