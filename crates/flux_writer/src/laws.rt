ghost use Rattle.std.specs.Prelude.{◌≡◌, ◌<◌, ◌≤◌, ◌^◌, ◌+◌, ◌*◌, ◌/◌, ℕ, List, Bool, All, length, map};
ghost use Rattle.std.specs.List.Sorted.{IsNonDecreasing, IsStrictlyIncreasing};
ghost use Rattle.flux_writer.specs.Reading.{MOST_RING_CELLS, EndsWithTransition, HasOneAfter, HasEarlyOne, IsStreamOf};
ghost use Rattle.kryo_stream.specs.Protocol.{OVERFLOW_TICKS};
ghost use Rattle.track_rings.specs.Rings.{last_in};
ghost use Rattle.flux_writer.specs.Trailing.{HasCaptureFault, stream_of_capture};
ghost use Rattle.flux_writer.specs.Written.{in_stream_before, stream_of_times, stream_of_turns, stream_of};
ghost use Rattle.flux_writer.specs.Written.{cell_time, ones_of};
ghost use Rattle.flux_writer.specs.Written.{track_cells, track_turns};

use kryo_stream::{blocks_law, turn_faults_law};

/// A written stream with at least two index times and no more bytes than a stream may have is read as the
/// transitions and index times that were given. A transition takes three bytes at most and one for each
/// overflow before it, an index time 16, and the end of the stream 16.
pub fn written_law()
    ensures reads { (transitions turns : List ℕ) → IsNonDecreasing transitions → IsStrictlyIncreasing turns
        → EndsWithTransition transitions turns → 2 ≤ length turns → length (stream_of_times transitions turns) ≤ 4194304
        → IsStreamOf (stream_of_times transitions turns) transitions turns }
    ensures size { (transitions turns : List ℕ) → IsNonDecreasing transitions → IsStrictlyIncreasing turns
        → length (stream_of_times transitions turns)
        ≤ 3 * length transitions + last_in transitions / OVERFLOW_TICKS + 16 * length turns + 16 }
{
    blocks_law();
}

/// A written stream of cells with at least two index cells and no more bytes than a stream may have is read as
/// the times of the cells that are ones and of the index cells.
pub fn turns_law()
    ensures { (cells : List Bool) (turns : List ℕ) (nominal : ℕ) → 1024 ≤ nominal → IsStrictlyIncreasing turns
        → All (HasOneAfter cells) turns → 2 ≤ length turns → length (stream_of_turns cells turns nominal) ≤ 4194304
        → IsStreamOf (stream_of_turns cells turns nominal) (map (cell_time nominal) (ones_of cells))
        (map (cell_time nominal) turns) }
{
    written_law();
}

/// The written stream of a ring that `write_track` takes is read as the times of the ones and of the index cells of
/// what is written of the ring: its last quarter, three turns and its first quarter.
pub fn track_law()
    ensures { (ring : List Bool) (nominal : ℕ) → 1024 ≤ nominal → nominal ≤ 131072 → length ring ≤ MOST_RING_CELLS
        → HasEarlyOne ring → IsStreamOf (stream_of ring nominal) (map (cell_time nominal) (ones_of (track_cells ring)))
        (map (cell_time nominal) (track_turns ring)) }
{
    turns_law();
}

/// A stream of transitions and index times, of which the last may lie behind the last transition, with at least two
/// index times and no more bytes than a stream may have is read as these transitions and index times. Where the index
/// times do not rise, or are fewer than two, that alone is its fault. An index time takes 16 bytes, and so does the end.
pub fn capture_law()
    ensures same { (transitions turns : List ℕ) → IsStrictlyIncreasing turns → EndsWithTransition transitions turns
        → stream_of_capture transitions turns ≡ stream_of_times transitions turns }
    ensures reads { (transitions turns : List ℕ) → IsNonDecreasing transitions → IsStrictlyIncreasing turns
        → All (λ turn. turn < 2 ^ 32) turns → 2 ≤ length turns → length (stream_of_capture transitions turns) ≤ 4194304
        → IsStreamOf (stream_of_capture transitions turns) transitions turns }
    ensures faults { (transitions turns : List ℕ) → IsNonDecreasing transitions → IsNonDecreasing turns
        → All (λ turn. turn < 2 ^ 32) turns → length (stream_of_capture transitions turns) ≤ 4194304
        → HasCaptureFault transitions turns }
    ensures size { (transitions turns : List ℕ) → IsNonDecreasing turns → length (stream_of_capture transitions turns)
        ≡ in_stream_before transitions (length transitions) + 16 * length turns + 16 }
{
    blocks_law();
    turn_faults_law();
}
