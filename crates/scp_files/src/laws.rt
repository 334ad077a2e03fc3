ghost use Rattle.std.specs.Prelude.{◌≡◌, ◌≤◌, ◌<◌, ◌^◌, ℕ, List, false, length, All};
ghost use Rattle.std.specs.List.Sorted.{IsStrictlyIncreasing};
ghost use Rattle.kryo_stream.specs.Sequence.{IsStreamOf};
ghost use Rattle.scp_files.specs.Laws.{FileBeginTells, GoesOn, HeadTells};
ghost use Rattle.scp_files.specs.Streams.{is_too_long_of, stream_of};
ghost use Rattle.scp_files.specs.Units.{moments, transitions};

use flux_writer::capture_law;

/// The begin of a file and the header of a track tell what the whole does; and what the first revolutions of a track
/// hold, with one more.
pub fn begins_tell()
    ensures files { (file : List ℕ) → FileBeginTells file }
    ensures tracks { (revolutions : ℕ) (track : List ℕ) → HeadTells revolutions track }
    ensures goes_on { (track : List ℕ) (count : ℕ) → GoesOn track count }
{}

/// The stream that entries and durations stand for reads back as just their transitions and index times, where these
/// are at least two, rise, and the stream is not too long.
pub fn captures_read_back()
    ensures { (resolution : ℕ) (values durations : List ℕ) → is_too_long_of resolution values durations ≡ false
        → IsStrictlyIncreasing (moments resolution durations) → 2 ≤ length (moments resolution durations)
        → IsStreamOf (stream_of resolution values durations) (transitions resolution values)
        (moments resolution durations) }
{
    capture_law();
}
