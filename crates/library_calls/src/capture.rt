ghost use Rattle.std.specs.Prelude.{◌≡◌, ◌+◌, ◌≤◌, ◌<◌, length, OnOk, OnErr, true, false};
ghost use Rattle.flux_base.specs.Counts.{Counts};
ghost use Rattle.flux_base.specs.World.{source_counts};
ghost use Rattle.flux_engine.specs.Blamed.{is_unread};
ghost use Rattle.flux_engine.specs.Counts.{KeepsCounts};
ghost use Rattle.flux_engine.specs.Recordings.{track_at};
ghost use Rattle.flux_engine.specs.Room.{MOST_SOURCES};
ghost use Rattle.kryo_stream.specs.Outcome.{IsReadWhereNeeded};
ghost use Rattle.kryo_stream.specs.Reads.{reads_at};
ghost use Rattle.turn_merge.specs.Book.{SameShape};
ghost use Rattle.library_calls.specs.Answers.{CaptureCause, ReadsCapture};

use flux_base::Source;
use flux_engine::{Clocks, DiskRoom, Rule, read_by_clocks};
use kryo_stream::CaptureFault;

/// Reads the next stream as one more that captures the started track, and notes all its readings after those before, as
/// those of this capture. No answer is for want of memory.
///
/// At most 32 streams are read for one track, and a room is not used again for reading after a fault.
pub fn read_capture<S: Source>(
    room: &mut DiskRoom,
    number: u32,
    capture: u8,
    source: &mut S,
) -> Result<(), CaptureFault>
    requires started { number ≡ room.old.started }
    requires few { room.old.captures < MOST_SOURCES }
    requires sound { room.old.failed ≡ false }
    ensures read { ReadsCapture room.old.format (track_at room.old.format number) capture (S.left source.old)
        (S.left source.new) room.old.used room.old.held room.new.held room.old.book room.new.book result }

    // The source is read only where the bytes at hand do not tell the answer.
    ensures needed { IsReadWhereNeeded (reads_at S.Source source.old) (reads_at S.Source source.new) room.old.used
        room.old.held }

    // The room after the call.
    ensures format { room.new.format ≡ room.old.format }
    ensures held { length room.new.held ≤ 4096 }
    ensures used { room.new.used ≡ true }
    ensures next { room.new.next ≡ room.old.next }
    ensures started { room.new.started ≡ number }
    ensures captures { OnOk result (room.new.captures ≡ room.old.captures + 1) }
    ensures shape { SameShape room.old.book room.new.book }
    ensures passed { room.new.passed ≡ room.old.passed }
    ensures counted { KeepsCounts room.old room.new }
    ensures sound { OnOk result (room.new.failed ≡ false) }
    ensures failed { OnErr result (room.new.failed ≡ true) }

    ensures cause { CaptureCause (S.faults source.old) (S.faults source.new) result }
    ensures later { S.faults source.old ≤ S.faults source.new }
    ensures counts { Counts (is_unread result) (source_counts S.Source source.old) (source_counts S.Source source.new) }
{
    read_by_clocks(
        Rule::Strict,
        Clocks::FollowingAlone,
        room,
        number,
        capture,
        source,
    )
}
