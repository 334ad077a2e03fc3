//! Tracks that are none of the format's: no sector of them is wanted, and all headers in them are noted by their names.

ghost use Rattle.std.specs.Prelude.{◌≡◌, ◌+◌, ◌*◌, ◌≤◌, ◌<◌, ◌++◌, ℕ, Bool, List, Some, drop, length, IfSome};
ghost use Rattle.frame_law.specs.Controller.{FirstAt};
ghost use Rattle.flux_base.specs.declared.track.TrackId.{TrackId as Id};
ghost use Rattle.flux_engine.specs.Captured.{count_of_clocks};
ghost use Rattle.flux_engine.specs.Counts.{AreCountsBelow, counted};
ghost use Rattle.flux_engine.specs.Gathering.{AreCellsOf, GathersOthers};
ghost use Rattle.flux_engine.specs.LoopProgress.{IsBoundedNext, seen_next};
ghost use Rattle.flux_engine.specs.Names.{HasNamesBy, HasNamesOf, HasNotedNames, HasTakenNames, passed_beside};
ghost use Rattle.flux_engine.specs.Plans.{Seen};
ghost use Rattle.flux_engine.specs.Reading.{IsBounded};
ghost use Rattle.flux_engine.specs.Recordings.{cells_by, track_at};
ghost use Rattle.flux_engine.specs.Room.{IsRoomy, MOST_CELLS, MOST_READINGS, MOST_SOURCES};
ghost use Rattle.flux_engine.specs.Rules.{no_header};
ghost use Rattle.sector_images.specs.Places.{IsTrack, tracks};
ghost use Rattle.turn_merge.specs.Book.{MOST_NOTES};

use crate::capture::{clock_count, recover_cells};
use crate::gathered_track::{PassedStream, PassedStreams};
use crate::gathering::place_of;
use crate::plan::Clocks;
use crate::room::{DiskRoom, Tools};
use crate::track_streams::NextStream;
use cell_bits::Cells;
use disk_recordings::{DiskId, controller_format, headers_have_names, recording_of};
use flux_base::{HeaderName, TrackId};
use frame_law::Recording;
use index_turns::TrackFlux;
use kryo_stream::StreamRoom;
use sector_images::{Format, track_id, tracks_keep_bounds};
use sector_report::Passed;
use turn_merge::{Clock, Others};

/// Where the streams of tracks lie that are named by their ids, whether a format has them or not.
pub trait NamedStreams<S> {
    /// From one moment to another this came of a track's capture.
    ghost gave: { Self → S → S → Id → ℕ → Seen → Type 0 };

    /// Reads a capture of a track, or passes it over. The cylinder is below 128. No memory is taken.
    fn stream_of(
        &self,
        track: TrackId,
        capture: u8,
        source: &mut S,
        stream: &mut StreamRoom,
    ) -> NextStream
        requires track { track.cylinder < 128 }
        ensures next { gave self.now source.old source.new track capture (seen_next result stream.new.flux) }
        ensures bounded { IsBoundedNext result stream.new.flux };
}

/// Takes a capture of a track that is none of the format's, and notes all headers in it by these clocks, or that it
/// is passed over. It is read with the cells of the room's started track. That there is none is not noted. No answer
/// is for want of memory.
///
/// The track's cylinder is below 128. It counts once for each clock among the at most 32 streams of a track.
pub fn take_names<T: NamedStreams<S>, S>(
    clocks: Clocks,
    streams: &T,
    room: &mut DiskRoom,
    track: TrackId,
    capture: u8,
    source: &mut S,
)
    requires track { track.cylinder < 128 }
    requires started { room.old.started < length (tracks room.old.format) }
    requires few { room.old.captures + count_of_clocks clocks ≤ MOST_SOURCES }
    requires room { length room.old.passed < 16 }
    ensures taken { HasTakenNames (T.gave streams.now source.old source.new track capture) clocks
        (track_at room.old.format room.old.started) capture room.old room.new }

    // The room after the call.
    ensures kept { room.new ≡ record room.old {
      held = room.new.held;
      used = room.new.used;
      captures = room.old.captures + count_of_clocks clocks;
      passed = room.new.passed;
      others = room.new.others;
    } }
    ensures passed { length room.new.passed ≤ length room.old.passed + 1 }
{
    tracks_keep_bounds();
    let near = track_id(room.format, room.started);
    let next = streams.stream_of(track, capture, source, &mut room.stream);
    note_names(
        next,
        clocks,
        room.format,
        near,
        capture,
        room.stream.flux(),
        &mut room.tools,
    );
    room.captures += clock_count(clocks);
}

/// Counts what was gathered of such a track, as of any.
pub fn count_names(room: &mut DiskRoom)
    requires few { length room.old.passed ≤ 16 }
    requires below { AreCountsBelow room.old 1000 }
    ensures counted { room.new ≡ counted room.old }
    ensures below { (n : ℕ) → AreCountsBelow room.old n → AreCountsBelow room.new (n + 1) }
{
    room.count_track();
}

/// Notes all headers of a stream that was read, or that it is passed over.
fn note_names(
    next: NextStream,
    clocks: Clocks,
    format: Format,
    near: TrackId,
    capture: u8,
    flux: &TrackFlux,
    tools: &mut Tools,
)
    requires track { IsTrack format near }
    requires bounded { IsBoundedNext next flux.now }
    requires roomy { IsRoomy format tools.old.cells tools.old.gathered.book }
    requires few_others { tools.old.gathered.others.notes + 2 * MOST_READINGS ≤ MOST_NOTES }
    requires room { length tools.old.gathered.passed.items < 16 }
    ensures noted { HasNotedNames clocks format near capture (seen_next next flux.now) tools.old.gathered.passed.items
        tools.new.gathered.passed.items tools.old.gathered.others tools.new.gathered.others }
    ensures book { tools.new.gathered.book ≡ tools.old.gathered.book }
    ensures roomy { IsRoomy format tools.new.cells tools.new.gathered.book }
    ensures passed { length tools.new.gathered.passed.items ≤ length tools.old.gathered.passed.items + 1 }
{
    // In no cells nothing stands.
    headers_have_names();
    match next {
        NextStream::Read => names_by_clocks(clocks, format, near, capture, flux, tools),
        NextStream::PassedOver(why) => note_passed(why, capture, &mut tools.gathered.passed),
    }
}

/// Notes that a stream is passed over, where there is one.
fn note_passed(why: Passed, capture: u8, passed: &mut PassedStreams)
    requires { length passed.old.items < 16 }
    ensures noted { passed.new.items ≡ passed.old.items ++ passed_beside capture (Some why) }
    ensures few { length passed.new.items ≤ length passed.old.items + 1 }
{
    match why {
        Passed::Absent => {}
        Passed::Failed => passed.push(PassedStream { capture, why }),
        Passed::Refused { .. } => passed.push(PassedStream { capture, why }),
        Passed::RefusedScp(_) => passed.push(PassedStream { capture, why }),
    }
}

/// Recovers the cells of a capture by these clocks, as those of this track, and notes all headers in them.
fn names_by_clocks(
    clocks: Clocks,
    format: Format,
    near: TrackId,
    capture: u8,
    flux: &TrackFlux,
    tools: &mut Tools,
)
    requires track { IsTrack format near }
    requires bounded { IsBounded flux.now }
    requires roomy { IsRoomy format tools.old.cells tools.old.gathered.book }
    requires few_others { tools.old.gathered.others.notes + 2 * MOST_READINGS ≤ MOST_NOTES }
    ensures noted { HasNamesOf clocks format near flux.now.times flux.now.indexes capture tools.old.gathered.others
        tools.new.gathered.others }
    ensures book { tools.new.gathered.book ≡ tools.old.gathered.book }
    ensures passed { tools.new.gathered.passed ≡ tools.old.gathered.passed }
    ensures roomy { IsRoomy format tools.new.cells tools.new.gathered.book }
{
    names_by_clock(Clock::Following, format, near, capture, flux, tools);
    match clocks {
        Clocks::FollowingAlone => {}
        Clocks::Both => names_by_clock(Clock::Held, format, near, capture, flux, tools),
    }
}

/// Recovers the cells of a capture by a clock, as those of this track, and notes all headers in them.
fn names_by_clock(
    clock: Clock,
    format: Format,
    near: TrackId,
    capture: u8,
    flux: &TrackFlux,
    tools: &mut Tools,
)
    requires track { IsTrack format near }
    requires bounded { IsBounded flux.now }
    requires roomy { IsRoomy format tools.old.cells tools.old.gathered.book }
    requires few_others { tools.old.gathered.others.notes + MOST_READINGS ≤ MOST_NOTES }
    ensures noted { HasNamesBy clock format near flux.now.times flux.now.indexes capture tools.old.gathered.others
        tools.new.gathered.others }
    ensures book { tools.new.gathered.book ≡ tools.old.gathered.book }
    ensures passed { tools.new.gathered.passed ≡ tools.old.gathered.passed }
    ensures roomy { IsRoomy format tools.new.cells tools.new.gathered.book }
{
    recover_cells(
        clock,
        format,
        near,
        flux,
        &mut tools.clock,
        &mut tools.cells,
    );
    names_in_cells(
        clock,
        format,
        near,
        capture,
        flux,
        &tools.cells,
        &mut tools.gathered.others,
    );
}

/// Notes all headers in the cells that a clock recovers of a capture, as those of this track.
pub(crate) fn names_in_cells(
    clock: Clock,
    format: Format,
    near: TrackId,
    capture: u8,
    flux: &TrackFlux,
    cells: &Cells,
    others: &mut Others,
)
    requires bounded { IsBounded flux.now }
    requires cells { cells.now.cells ≡ cells_by clock format near flux.now.times flux.now.indexes }
    requires are { AreCellsOf flux.now.times cells.now.cells }
    requires few_others { others.old.notes + MOST_READINGS ≤ MOST_NOTES }
    ensures { HasNamesBy clock format near flux.now.times flux.now.indexes capture others.old others.new }
{
    let recording = recording_of(controller_format(format), DiskId::ANY);
    gather_names(&recording, flux, cells, capture, clock, others);
}

/// Notes all headers in the cells that a clock recovered of a capture, whatever they name, each with whether whole
/// data stand after it.
fn gather_names<R: Recording>(
    recording: &R,
    flux: &TrackFlux,
    cells: &Cells,
    capture: u8,
    clock: Clock,
    others: &mut Others,
)
    requires cells { AreCellsOf flux.now.times cells.now.cells }
    requires indexes { length flux.now.indexes ≤ 262144 }
    requires few_others { others.old.notes + MOST_READINGS ≤ MOST_NOTES }
    ensures { GathersOthers (R.named_at recording.now) no_header (R.whole_data_of recording.now) flux.now.times
        flux.now.indexes cells.now.cells capture clock others.old others.new }
{
    let mut from = 0;
    let mut passed = 0;
    while let Some((cell, name)) = next_name(recording, cells, from) {
        passed += cells.ones_between(from, cell + 1);
        let whole = recording.has_data(cells, cell, name);
        others.note(name, whole, place_of(flux, passed, cell, capture, clock));
        from = cell + 1;
    }
}

/// The first place that is at least `from` and at which a header stands, and its name. None exactly where there is
/// none.
pub fn next_name<R: Recording>(
    recording: &R,
    cells: &Cells,
    from: usize,
) -> Option<(usize, HeaderName)>
    ensures first { FirstAt (λ place name. R.named_at recording.now (drop place cells.now.cells) name) from result }
    ensures within { IfSome result (λ found. found.0 < length cells.now.cells) }
{
    let word = recording.sync();
    let word_cells = recording.sync_cells();
    let mut behind = from;
    while let Some(place) = cells.find_word(behind, cells.len(), word, word_cells) {
        if let Some(name) = recording.name_after_sync(cells, place) {
            return Some((place, name));
        }
        behind = place + 1;
    }
    None
}
