//! Numbers of the stream that a capture stands for, which is never written.

ghost use Rattle.std.specs.Prelude.{◌≡◌, ◌<◌, ◌≤◌, ◌^◌, length, All};
ghost use Rattle.std.specs.List.Sorted.{IsNonDecreasing};
ghost use Rattle.track_rings.specs.Rings.{last_in};
ghost use Rattle.flux_writer.specs.Trailing.{blocks_before, passed_by, stream_of_capture};
ghost use Rattle.flux_writer.specs.Written.{in_stream_before};
ghost use Rattle.scp_files.specs.Tracks.{MOST_ENTRIES};

use flux_writer::{capture_law, interval_length};
use index_turns::TrackFlux;

/// How many ticks an Overflow block stands for.
const OVERFLOW_TICKS: u64 = 65536;

/// The last of times that do not fall, and 0 where there is none.
pub(crate) fn last_time(times: &[u64]) -> u64
    requires order { IsNonDecreasing times.now }
    ensures value { result ≡ last_in times.now }
    ensures greatest { All (λ time. time ≤ result) times.now }
{
    match times {
        [.., last] => *last,
        [] => 0,
    }
}

/// How many in-stream bytes the transitions at these times take.
pub(crate) fn stream_bytes(times: &[u64]) -> u64
    requires order { IsNonDecreasing times.now }
    requires early { All (λ time. time < 2 ^ 32) times.now }
    requires few { length times.now ≤ MOST_ENTRIES }
    ensures value { result ≡ in_stream_before times.now (length times.now) }
    ensures most { result ≤ 12648448 }
{
    let mut bytes = 0;
    let mut begin = 0;
    for time in times {
        bytes += u64::from(interval_length(*time - begin));
        begin = *time;
    }
    bytes
}

/// How many bytes the stream of these transitions and index times has.
pub fn stream_size(flux: &TrackFlux) -> u32
    requires few { length flux.now.times ≤ MOST_ENTRIES }
    requires turns { length flux.now.indexes ≤ 1048576 }
    requires early { All (λ time. time < 2 ^ 32) flux.now.times }
    ensures { result ≡ length (stream_of_capture flux.now.times flux.now.indexes) }
{
    capture_law();
    (stream_bytes(flux.times()) + 16 * flux.indexes().len() as u64 + 16) as u32
}

/// How many blocks the intervals have that end with a transition that is not above an index time.
pub(crate) fn blocks_until(times: &[u64], index: u64) -> u32
    requires order { IsNonDecreasing times.now }
    requires early { All (λ time. time < 2 ^ 32) times.now }
    requires few { length times.now ≤ MOST_ENTRIES }
    ensures value { result ≡ blocks_before times.now (passed_by times.now index) }
    ensures most { result ≤ 4259840 }
{
    let mut blocks = 0;
    let mut begin = 0;
    for time in times {
        if *time > index {
            return blocks;
        }
        blocks += ((*time - begin) / OVERFLOW_TICKS) as u32 + 1;
        begin = *time;
    }
    blocks
}
