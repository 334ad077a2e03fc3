//! A track by the streams that capture it, one or several: their readings are gathered in one book.

ghost use Rattle.std.specs.Prelude.{◌≡◌, ◌+◌, ◌*◌, ◌≤◌, ◌<◌, [], List, length, IfOk, OnOk, OnErr, true, false};
ghost use Rattle.std.specs.Prelude.{if◌then◌else◌};
ghost use Rattle.std.specs.Option.{option_copied};
ghost use Rattle.flux_base.specs.Blames.{CountsBy};
ghost use Rattle.flux_base.specs.Counts.{Counts};
ghost use Rattle.flux_base.specs.World.{source_counts, sinks_counts};
ghost use Rattle.flux_engine.specs.Answers.{ReadsStream};
ghost use Rattle.flux_engine.specs.Blamed.{is_unread, part_blame};
ghost use Rattle.flux_engine.specs.Captured.{count_of_clocks};
ghost use Rattle.flux_engine.specs.Counts.{KeepsCounts};
ghost use Rattle.cell_bits.specs.State.{room};
ghost use Rattle.flux_engine.specs.Gathering.{AreCellsOf, HasNoted, HasNotedBy};
ghost use Rattle.flux_engine.specs.PlanAnswers.{ReadsByClocks};
ghost use Rattle.flux_engine.specs.Reading.{IsBounded};
ghost use Rattle.flux_engine.specs.Recordings.{cells_by, start_by as start_of_clock, start_of, track_at};
ghost use Rattle.flux_engine.specs.Recordings.{sectors_of as sectors_in};
ghost use Rattle.flux_engine.specs.Room.{IsBookOf, IsRoomy, MOST_CELLS, MOST_READINGS, MOST_SOURCES};
ghost use Rattle.flux_engine.specs.SecondSinks.{WritesSecond};
ghost use Rattle.flux_engine.specs.TrackParts.{WritesPart};
ghost use Rattle.flux_engine.specs.Tracks.{track_notes};
ghost use Rattle.flux_engine.specs.Writing.{IsSum, Knows};
ghost use Rattle.kryo_stream.specs.Outcome.{IsReadWhereNeeded};
ghost use Rattle.kryo_stream.specs.Reads.{reads_at};
ghost use Rattle.phase_loop.specs.Rows.{recovered};
ghost use Rattle.phase_loop.specs.Start.{IsStart};
ghost use Rattle.sector_images.specs.Places.{IsTrack, tracks};
ghost use Rattle.turn_merge.specs.Book.{IsKnown, MOST_NOTES, SameShape, StandsFor};
ghost use Rattle.turn_merge.specs.Others.{NotedOther, OthersStandFor};
ghost use Rattle.turn_merge.specs.Readings.{NotedReading, agreed, verdict as verdict_over};

use crate::gathered_track::Gathered;
use crate::gathering::{gather, gather_as_controller};
use crate::plan::{Clocks, Rule};
use crate::room::{DiskRoom, Tools};
use crate::second_sinks::SecondSinks;
use crate::track_part::PartFault;
use crate::track_writer::TrackWriter;
use cell_bits::Cells;
use disk_recordings::{DiskId, controller_format, recording_of, sectors_of};
use flux_base::{Sink, Source, TrackId};
use index_turns::TrackFlux;
use kryo_stream::{CaptureFault, StreamRoom, growth_law};
use phase_loop::{Loop, LoopStart, recover};
use sector_images::{Format, nominal, ring_cells, track_id, tracks_keep_bounds};
use sector_report::Totals;
use turn_merge::{Clock, Verdict};

/// Begins a track: what was gathered before is forgotten.
pub fn start_track(room: &mut DiskRoom, number: u32)
    requires { number < length (tracks room.old.format) }
    ensures started { room.new
        ≡ record room.old { started = number; captures = 0; book = room.new.book; passed = []; others = room.new.others } }
    ensures empty { StandsFor room.new.book [] }
    ensures no_others { OthersStandFor room.new.others [] }
    ensures knows { Knows (sectors_in room.old.format (track_at room.old.format number)) room.new.book }
{
    tracks_keep_bounds();
    let sectors = sectors_of(room.format, track_id(room.format, number));
    room.tools.gathered.book.clear(sectors.count);
    room.tools.gathered.passed.clear();
    room.tools.gathered.others.clear();
    room.started = number;
    room.captures = 0;
}

/// Reads the next stream as one more that captures the started track, and notes all its readings by the rule and these
/// clocks after those before, as those of this capture. No answer is for want of memory.
///
/// It counts once for each clock among the at most 32 streams of a track, and a room is not used
/// again for reading after a fault.
pub fn read_by_clocks<S: Source>(
    rule: Rule,
    clocks: Clocks,
    room: &mut DiskRoom,
    number: u32,
    capture: u8,
    source: &mut S,
) -> Result<(), CaptureFault>
    requires started { number ≡ room.old.started }
    requires few { room.old.captures + count_of_clocks clocks ≤ MOST_SOURCES }
    requires sound { room.old.failed ≡ false }
    ensures read { ReadsByClocks rule clocks room.old.format (track_at room.old.format number) capture
        (S.left source.old) (S.left source.new) room.old.used room.old.held room.new.held room.old.book room.new.book
        room.old.others room.new.others result }

    // The source is read only where the bytes at hand do not tell the answer.
    ensures needed { IsReadWhereNeeded (reads_at S.Source source.old) (reads_at S.Source source.new) room.old.used
        room.old.held }

    // The room after the call.
    ensures format { room.new.format ≡ room.old.format }
    ensures held { length room.new.held ≤ 4096 }
    ensures used { room.new.used ≡ true }
    ensures next { room.new.next ≡ room.old.next }
    ensures started { room.new.started ≡ number }
    ensures captures { OnOk result (room.new.captures ≡ room.old.captures + count_of_clocks clocks) }
    ensures shape { SameShape room.old.book room.new.book }
    ensures passed { room.new.passed ≡ room.old.passed }
    ensures counted { KeepsCounts room.old room.new }
    ensures sound { OnOk result (room.new.failed ≡ false) }
    ensures failed { OnErr result (room.new.failed ≡ true) }

    ensures counts { Counts (is_unread result) (source_counts S.Source source.old) (source_counts S.Source source.new) }
{
    tracks_keep_bounds();
    let track = track_id(room.format, number);
    room.failed = true;
    match read_stream(source, &mut room.stream) {
        Ok(()) => {}
        Err(fault) => return Err(fault),
    }
    note_by_clocks(
        rule,
        clocks,
        room.format,
        track,
        capture,
        room.stream.flux(),
        &mut room.tools,
    );
    room.captures += clock_count(clocks);
    room.failed = false;
    Ok(())
}

/// Ends the started track: the one after it is next. Where its part was not written, the room is not used again.
pub fn end_track(room: &mut DiskRoom, written: bool)
    requires { room.old.next < 4294967295 }
    ensures { room.new ≡ record room.old {
      next = if written then room.old.next + 1 else room.old.next;
      failed = if written then false else true;
    } }
{
    if written {
        room.next += 1;
    }
    room.failed = !written;
}

/// How many clocks these are.
pub(crate) fn clock_count(clocks: Clocks) -> u32
    ensures { result ≡ count_of_clocks clocks }
{
    match clocks {
        Clocks::FollowingAlone => 1,
        Clocks::Both => 2,
    }
}

/// The format of the disks that the room is for.
pub fn room_format(room: &DiskRoom) -> Format
    ensures { result ≡ room.now.format }
{
    room.format
}

/// What was gathered of the started track.
pub fn room_gathered(room: &DiskRoom) -> &Gathered
    ensures book { result.now.book ≡ room.now.book }
    ensures passed { result.now.passed.items ≡ room.now.passed }
    ensures others { result.now.others ≡ room.now.others }
{
    &room.tools.gathered
}

/// What the readings of a sector of the started track say together.
pub fn verdict(room: &DiskRoom, sector: u8) -> Verdict
    requires { IsKnown room.now.book sector }
    ensures { (readings : List NotedReading) → StandsFor room.now.book readings
        → result ≡ verdict_over readings sector }
{
    room.tools.gathered.book.verdict(sector)
}

/// The data of a sector of the started track, where its verdict is `Good`.
pub fn bytes(room: &DiskRoom, sector: u8) -> Option<&[u8]>
    requires { IsKnown room.now.book sector }
    ensures { (readings : List NotedReading) → StandsFor room.now.book readings
        → option_copied result ≡ agreed readings sector }
{
    room.tools.gathered.book.bytes(sector)
}

/// Writes what the gathered readings of the started track come to.
pub(crate) fn write_started<O: TrackWriter<D>, D: SecondSinks, W: Sink, N: Sink>(
    writer: &O,
    room: &DiskRoom,
    image: &mut W,
    notes: &mut N,
    second: &mut D,
) -> Result<Totals, PartFault>
    ensures wrote { (readings : List NotedReading) (others : List NotedOther) → StandsFor room.now.book readings
        → OthersStandFor room.now.others others
        → WritesPart
        (O.part_of writer.now room.now.format (track_at room.now.format room.now.started)
        (track_notes readings room.now.passed others)) (W.written image.old) (W.written image.new)
        (N.written notes.old) (N.written notes.new) result }
    ensures second { (readings : List NotedReading) (others : List NotedOther) → StandsFor room.now.book readings
        → OthersStandFor room.now.others others
        → WritesSecond
        (O.second_part_of writer.now room.now.format (track_at room.now.format room.now.started)
        (track_notes readings room.now.passed others)) (D.now second.old) (D.now second.new) result }
    ensures sum { IfOk result IsSum }
    ensures few { IfOk result (λ totals. totals.sectors ≤ 100) }
    ensures blames { CountsBy (part_blame result)
        (sinks_counts W.Sink N.Sink image.old notes.old)
        (sinks_counts W.Sink N.Sink image.new notes.new) }
{
    tracks_keep_bounds();
    let track = track_id(room.format, room.started);
    writer.write_track(
        room.format,
        track,
        &room.tools.gathered,
        image,
        notes,
        second,
    )
}

/// Reads the next stream.
pub fn read_stream<S: Source>(source: &mut S, stream: &mut StreamRoom) -> Result<(), CaptureFault>
    ensures read { ReadsStream (S.left source.old) (S.left source.new) stream.old.used stream.old.held stream.new.held
        stream.new.flux.times stream.new.flux.indexes result }
    ensures needed { IsReadWhereNeeded (reads_at S.Source source.old) (reads_at S.Source source.new) stream.old.used
        stream.old.held }
    ensures bounded { OnOk result (IsBounded stream.new.flux) }
    ensures held { length stream.new.held ≤ 4096 }
    ensures used { stream.new.used ≡ true }
    ensures counts { Counts (is_unread result) (source_counts S.Source source.old) (source_counts S.Source source.new) }
{
    growth_law();
    stream.read(source)
}

/// Recovers the cells of a capture of a track by these clocks and notes all readings of its sectors in the book.
pub(crate) fn note_by_clocks(
    rule: Rule,
    clocks: Clocks,
    format: Format,
    track: TrackId,
    capture: u8,
    flux: &TrackFlux,
    tools: &mut Tools,
)
    requires track { IsTrack format track }
    requires bounded { IsBounded flux.now }
    requires roomy { IsRoomy format tools.old.cells tools.old.gathered.book }
    requires knows { Knows (sectors_in format track) tools.old.gathered.book }
    requires few { tools.old.gathered.book.notes + 2 * MOST_READINGS ≤ MOST_NOTES }
    requires few_others { tools.old.gathered.others.notes + 2 * MOST_READINGS ≤ MOST_NOTES }
    ensures noted { HasNotedBy rule clocks format track flux.now.times flux.now.indexes capture tools.old.gathered.book
        tools.new.gathered.book tools.old.gathered.others tools.new.gathered.others }
    ensures kept { tools.new.gathered.passed ≡ tools.old.gathered.passed }
    ensures roomy { IsRoomy format tools.new.cells tools.new.gathered.book }
{
    note_readings(rule, Clock::Following, format, track, capture, flux, tools);
    match clocks {
        Clocks::FollowingAlone => {}
        Clocks::Both => note_readings(rule, Clock::Held, format, track, capture, flux, tools),
    }
}

/// Recovers the cells of a capture of a track by a clock and notes all readings of its sectors by the rule in the book.
fn note_readings(
    rule: Rule,
    clock: Clock,
    format: Format,
    track: TrackId,
    capture: u8,
    flux: &TrackFlux,
    tools: &mut Tools,
)
    requires track { IsTrack format track }
    requires bounded { IsBounded flux.now }
    requires roomy { IsRoomy format tools.old.cells tools.old.gathered.book }
    requires knows { Knows (sectors_in format track) tools.old.gathered.book }
    requires few { tools.old.gathered.book.notes + MOST_READINGS ≤ MOST_NOTES }
    requires few_others { tools.old.gathered.others.notes + MOST_READINGS ≤ MOST_NOTES }
    ensures noted { HasNoted rule clock format track flux.now.times flux.now.indexes capture tools.old.gathered.book
        tools.new.gathered.book tools.old.gathered.others tools.new.gathered.others }
    ensures kept { tools.new.gathered.passed ≡ tools.old.gathered.passed }
    ensures roomy { IsRoomy format tools.new.cells tools.new.gathered.book }
{
    recover_cells(
        clock,
        format,
        track,
        flux,
        &mut tools.clock,
        &mut tools.cells,
    );
    note_in_cells(
        rule,
        clock,
        format,
        track,
        capture,
        flux,
        &tools.cells,
        &mut tools.gathered,
    );
}

/// Notes all readings of a track's sectors by the rule in the book, in the cells that the clock recovers of a capture.
pub(crate) fn note_in_cells(
    rule: Rule,
    clock: Clock,
    format: Format,
    track: TrackId,
    capture: u8,
    flux: &TrackFlux,
    cells: &Cells,
    gathered: &mut Gathered,
)
    requires track { IsTrack format track }
    requires bounded { IsBounded flux.now }
    requires cells { cells.now.cells ≡ cells_by clock format track flux.now.times flux.now.indexes }
    requires are { AreCellsOf flux.now.times cells.now.cells }
    requires book { IsBookOf format gathered.old.book }
    requires knows { Knows (sectors_in format track) gathered.old.book }
    requires few { gathered.old.book.notes + MOST_READINGS ≤ MOST_NOTES }
    requires few_others { gathered.old.others.notes + MOST_READINGS ≤ MOST_NOTES }
    ensures noted { HasNoted rule clock format track flux.now.times flux.now.indexes capture gathered.old.book
        gathered.new.book gathered.old.others gathered.new.others }
    ensures kept { gathered.new.passed ≡ gathered.old.passed }
    ensures book { IsBookOf format gathered.new.book }
{
    match rule {
        Rule::Strict => {
            let recording = recording_of(format, DiskId::ANY);
            gather(
                &recording,
                track,
                flux,
                cells,
                capture,
                clock,
                &mut gathered.book,
            );
        }
        Rule::Controller => {
            let recording = recording_of(controller_format(format), DiskId::ANY);
            gather_as_controller(&recording, track, flux, cells, capture, clock, gathered);
        }
    }
}

/// Recovers the cells of a capture of a track by a clock.
pub fn recover_cells(
    clock: Clock,
    format: Format,
    track: TrackId,
    flux: &TrackFlux,
    follower: &mut Loop,
    cells: &mut Cells,
)
    requires track { IsTrack format track }
    requires bounded { IsBounded flux.now }
    requires room { MOST_CELLS ≤ room cells.old }
    ensures cells { cells.new.cells ≡ cells_by clock format track flux.now.times flux.now.indexes }
    ensures are { AreCellsOf flux.now.times cells.new.cells }
    ensures room { room cells.old ≤ room cells.new }
{
    recover_from(
        clock_start(clock, format, track, flux),
        flux,
        follower,
        cells,
    );
}

/// Where a clock starts on a capture of a track.
pub(crate) fn clock_start(
    clock: Clock,
    format: Format,
    track: TrackId,
    flux: &TrackFlux,
) -> LoopStart
    requires track { IsTrack format track }
    requires bounded { IsBounded flux.now }
    ensures start { result ≡ start_of_clock clock (start_of format track flux.now.indexes) }
    ensures bounds { IsStart result }
{
    tracks_keep_bounds();
    let turn = flux.first_turn_ticks();
    let mean = LoopStart::for_turn(nominal(format, track), turn, ring_cells(format, track));
    start_by(clock, mean)
}

/// Recovers the cells of a capture from where a clock starts.
pub(crate) fn recover_from(
    start: LoopStart,
    flux: &TrackFlux,
    follower: &mut Loop,
    cells: &mut Cells,
)
    requires start { IsStart start }
    requires bounded { IsBounded flux.now }
    requires room { 32 * length flux.now.times ≤ room cells.old }
    ensures cells { cells.new.cells ≡ recovered start flux.now.times }
    ensures are { AreCellsOf flux.now.times cells.new.cells }
    ensures room { room cells.old ≤ room cells.new }
{
    match recover(flux, start, follower, cells) {
        Ok(()) => {}
        // There is room for 32 cells of each transition.
        Err(_) => unreachable!(),
    }
}

/// A start as a clock takes it: the held one keeps its first period.
fn start_by(clock: Clock, start: LoopStart) -> LoopStart
    requires { IsStart start }
    ensures start { result ≡ start_of_clock clock start }
    ensures bounds { IsStart result }
{
    match clock {
        Clock::Following => start,
        Clock::Held => start.held(),
    }
}
