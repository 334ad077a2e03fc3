//! Why a track that was read stands for no stream, or for one that cannot be read.

ghost use Rattle.std.specs.Prelude.{◌≡◌, ◌≤◌, ◌<◌, ◌^◌, ℕ, List, None, Ok, All, length};
ghost use Rattle.flux_writer.specs.Trailing.{stream_of_capture};
ghost use Rattle.kryo_stream.specs.Protocol.{LIMIT};
ghost use Rattle.kryo_stream.specs.Sequence.{IsStreamOf};
ghost use Rattle.scp_files.specs.Captures.{Holds};
ghost use Rattle.scp_files.specs.Disks.{kept_stream, refusal_of, refusing};
ghost use Rattle.scp_files.specs.Tracks.{MOST_ENTRIES};

use crate::capture::Capture;
use crate::fault::{CaptureRefused, ScpTrackFault, TrackTold};

/// Why a track that was read into a capture with this fault, or none, stands for no stream, or for one that has a
/// fault. Where it is neither, its stream is that of the times in the capture, and reads back as these.
pub fn find_refusal(fault: Option<ScpTrackFault>, capture: &Capture) -> Option<TrackTold>
    ensures is { (values durations : List ℕ) → Holds values durations capture.now
        → result ≡ refusal_of (kept_stream fault capture.now.resolution values durations) }
    ensures stream { (values durations : List ℕ) → Holds values durations capture.now → result ≡ None
        → kept_stream fault capture.now.resolution values durations
        ≡ Ok (stream_of_capture capture.now.flux.times capture.now.flux.indexes) }
    ensures reads { (values durations : List ℕ) → Holds values durations capture.now → result ≡ None
        → IsStreamOf (stream_of_capture capture.now.flux.times capture.now.flux.indexes) capture.now.flux.times
        capture.now.flux.indexes }
    ensures short { (values durations : List ℕ) → Holds values durations capture.now → result ≡ None
        → length (stream_of_capture capture.now.flux.times capture.now.flux.indexes) ≤ LIMIT }
    ensures few { length capture.now.flux.times ≤ MOST_ENTRIES }
    ensures turns { length capture.now.flux.indexes ≤ 256 }
    ensures more { result ≡ None → 2 ≤ length capture.now.flux.indexes }
    ensures early { result ≡ None → All (λ time. time < 2 ^ 32) capture.now.flux.times }
    ensures near { result ≡ None → All (λ index. index < 2 ^ 32) capture.now.flux.indexes }
{
    let refused = capture.finish();
    match refusing(fault) {
        Some(fault) => return Some(TrackTold::Fault(fault)),
        None => {}
    }
    match refused {
        Ok(()) => None,
        Err(CaptureRefused::TooLong) => Some(TrackTold::Fault(ScpTrackFault::TooLong)),
        Err(CaptureRefused::Refused { block, fault }) => Some(TrackTold::Refused { block, fault }),
    }
}

/// Why a track with this fault, or none, is refused before its stream is looked at: where the file ends inside a
/// revolution that is not the first, those before are kept.
fn refusing(fault: Option<ScpTrackFault>) -> Option<ScpTrackFault>
    ensures { result ≡ refusing fault }
{
    match fault {
        Some(ScpTrackFault::ShortData(revolution)) if revolution > 0 => None,
        other => other,
    }
}
