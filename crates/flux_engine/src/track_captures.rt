//! The captures of a track, wherever they come from.

ghost use Rattle.std.specs.Prelude.{◌≡◌, ◌+◌, ◌*◌, ◌≤◌, ◌<◌, List, length, OnOk, false, true};
ghost use Rattle.flux_base.specs.Blames.{no_one};
ghost use Rattle.flux_engine.specs.Blamed.{sink_blame};
ghost use Rattle.flux_engine.specs.Captured.{count_of_clocks};
ghost use Rattle.flux_engine.specs.Counts.{AreCountsBelow, CountsTrack};
ghost use Rattle.flux_engine.specs.LoopProgress.{AreWhole, GathersTrack, HasNotedNext, IsBoundedNext, TakesNext};
ghost use Rattle.flux_engine.specs.PlanAnswers.{of_stream as of_stream_fault};
ghost use Rattle.flux_engine.specs.Plans.{Seen};
ghost use Rattle.flux_engine.specs.Recordings.{sectors_of as sectors_in, track_at};
ghost use Rattle.flux_engine.specs.Room.{IsRoomy, MOST_READINGS, MOST_SOURCES};
ghost use Rattle.flux_engine.specs.Writing.{Knows};
ghost use Rattle.flux_engine.specs.declared.plan.Plan.{Plan};
ghost use Rattle.sector_images.specs.Places.{IsTrack, tracks};
ghost use Rattle.turn_merge.specs.Book.{MOST_NOTES};

use crate::capture::{clock_count, note_by_clocks, start_track};
use crate::fault::{RefusedCapture, Stopped};
use crate::gathered_track::PassedStream;
use crate::plan::{Clocks, Plan, Rule};
use crate::room::{DiskRoom, Tools};
use crate::track_streams::{NextStream, TrackStreams};
use disk_recordings::{headers_have_names, tracks_have_only_own};
use flux_base::TrackId;
use index_turns::TrackFlux;
use kryo_stream::CaptureFault;
use sector_images::{Format, track_id, tracks_keep_bounds};

/// Reads all captures of a track: the next streams, so many. Their readings are gathered, which of them were passed
/// over, and the headers that name none of its sectors.
pub(crate) fn read_captures<T: TrackStreams<S>, S>(
    plan: Plan,
    streams: &T,
    room: &mut DiskRoom,
    number: u32,
    source: &mut S,
) -> Result<(), Stopped<RefusedCapture>>
    requires track { number < length (tracks room.old.format) }
    requires few { plan.captures ≤ 16 }
    requires sound { room.old.failed ≡ false }
    requires counted { AreCountsBelow room.old number }
    ensures read { (start : S) (before : List Seen) → length before ≡ number * plan.captures → AreWhole before
        → T.came streams.now plan room.old.format start source.old room.old.held room.old.used before
        → GathersTrack plan room.old.format number (T.came streams.now plan room.old.format start source.new)
        (T.ended streams.now plan room.old.format start source.new) before room.new result }
    ensures format { room.new.format ≡ room.old.format }
    ensures started { room.new.started ≡ number }
    ensures sound { OnOk result (room.new.failed ≡ false) }

    // What was gathered is counted.
    ensures counts { OnOk result (CountsTrack room.old room.new) }
    ensures few { OnOk result (AreCountsBelow room.new (number + 1)) }

    ensures blames { sink_blame result ≡ no_one }
{
    tracks_keep_bounds();
    start_track(room, number);
    for capture in 0..plan.captures {
        match take_next(
            plan.rule,
            plan.clocks,
            streams,
            room,
            number,
            capture,
            source,
        ) {
            Ok(()) => {}
            Err(fault) => return Err(of_stream(number, u32::from(capture), fault)),
        }
    }
    room.count_track();
    Ok(())
}

/// Takes the next stream of the started track, as one more that captures it, and notes all its readings by
/// the rule and these clocks after those before, as those of this capture, or that it was passed over. No
/// answer is for want of memory.
///
/// It counts once for each clock among the at most 32 streams of a track, and a room is not used again after a fault.
fn take_next<T: TrackStreams<S>, S>(
    rule: Rule,
    clocks: Clocks,
    streams: &T,
    room: &mut DiskRoom,
    number: u32,
    capture: u8,
    source: &mut S,
) -> Result<(), CaptureFault>
    requires started { number ≡ room.old.started }
    requires few { room.old.captures + count_of_clocks clocks ≤ MOST_SOURCES }
    requires room { length room.old.passed < 16 }
    requires sound { room.old.failed ≡ false }
    ensures taken { (plan : Plan) (start : S) (before : List Seen) → capture < plan.captures
        → length before ≡ number * plan.captures + capture
        → T.came streams.now plan room.old.format start source.old room.old.held room.old.used before
        → TakesNext (T.came streams.now plan room.old.format start source.new)
        (T.ended streams.now plan room.old.format start source.new) rule clocks room.old.format
        (track_at room.old.format number) capture before room.old room.new result }

    // The room after the call.
    ensures format { room.new.format ≡ room.old.format }
    ensures started { room.new.started ≡ number }
    ensures captures { OnOk result (room.new.captures ≡ room.old.captures + count_of_clocks clocks) }
    ensures passed { OnOk result (length room.new.passed ≤ length room.old.passed + 1) }
    ensures unread { room.new.unread ≡ room.old.unread }
    ensures lost { room.new.lost ≡ room.old.lost }
    ensures told_others { room.new.told_others ≡ room.old.told_others }
    ensures whole_others { room.new.whole_others ≡ room.old.whole_others }
    ensures sound { OnOk result (room.new.failed ≡ false) }
{
    tracks_keep_bounds();
    let track = track_id(room.format, number);
    room.failed = true;
    let next = match streams.next_stream(room.format, number, capture, source, &mut room.stream) {
        Ok(next) => next,
        Err(fault) => return Err(fault),
    };
    note_next(
        next,
        rule,
        clocks,
        room.format,
        track,
        capture,
        room.stream.flux(),
        &mut room.tools,
    );
    room.captures += clock_count(clocks);
    room.failed = false;
    Ok(())
}

/// Notes all readings of a stream that was read, or that it was passed over.
fn note_next(
    next: NextStream,
    rule: Rule,
    clocks: Clocks,
    format: Format,
    track: TrackId,
    capture: u8,
    flux: &TrackFlux,
    tools: &mut Tools,
)
    requires track { IsTrack format track }
    requires bounded { IsBoundedNext next flux.now }
    requires roomy { IsRoomy format tools.old.cells tools.old.gathered.book }
    requires knows { Knows (sectors_in format track) tools.old.gathered.book }
    requires few { tools.old.gathered.book.notes + 2 * MOST_READINGS ≤ MOST_NOTES }
    requires few_others { tools.old.gathered.others.notes + 2 * MOST_READINGS ≤ MOST_NOTES }
    requires room { length tools.old.gathered.passed.items < 16 }
    ensures noted { HasNotedNext next rule clocks format track flux.now capture tools.old.gathered.book
        tools.new.gathered.book tools.old.gathered.passed.items tools.new.gathered.passed.items
        tools.old.gathered.others tools.new.gathered.others }
    ensures roomy { IsRoomy format tools.new.cells tools.new.gathered.book }
    ensures passed { length tools.new.gathered.passed.items ≤ length tools.old.gathered.passed.items + 1 }
{
    // In no cells nothing stands.
    tracks_have_only_own();
    headers_have_names();
    match next {
        NextStream::Read => note_by_clocks(rule, clocks, format, track, capture, flux, tools),
        NextStream::PassedOver(why) => tools.gathered.passed.push(PassedStream { capture, why }),
    }
}

/// The fault of a capture of a track, among those of a disk.
fn of_stream(track: u32, capture: u32, fault: CaptureFault) -> Stopped<RefusedCapture>
    ensures { result ≡ of_stream_fault track capture fault }
{
    match fault {
        CaptureFault::ReadFault => Stopped::ReadFault,
        CaptureFault::Refused { block, fault } => Stopped::Refused(RefusedCapture {
            track,
            capture,
            block,
            fault,
        }),
    }
}
