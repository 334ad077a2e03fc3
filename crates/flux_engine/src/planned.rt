//! Disks that are read by a plan: one loop over the tracks.

ghost use Rattle.std.specs.Prelude.{◌≡◌, ◌≤◌, ℕ, List, Some, length, IfErr, OnErr, OnOk};
ghost use Rattle.flux_base.specs.Blames.{CountsBy};
ghost use Rattle.flux_base.specs.World.{counts_at, sinks_counts};
ghost use Rattle.flux_engine.specs.Answers.{Stayed};
ghost use Rattle.flux_engine.specs.Blamed.{sink_blame, stop_blame};
ghost use Rattle.flux_engine.specs.Counts.{AreCountsBelow};
ghost use Rattle.flux_engine.specs.Disks.{no_totals};
ghost use Rattle.flux_engine.specs.LoopProgress.{EndsLoop, HasWritten};
ghost use Rattle.flux_engine.specs.Needed.{ReadsWhereOpen};
ghost use Rattle.flux_engine.specs.PlanAnswers.{DecodesPlanned, IsFinished, SaysOfPlannedInput};
ghost use Rattle.flux_engine.specs.PlanAnswers.{of_part as of_part_fault};
ghost use Rattle.flux_engine.specs.PlanProgress.{EndsInTracks, HasPlanned};
ghost use Rattle.flux_engine.specs.Plans.{EndsInPlan};
ghost use Rattle.flux_engine.specs.Room.{fresh};
ghost use Rattle.flux_engine.specs.SecondSinks.{HasWrittenSecond};
ghost use Rattle.flux_engine.specs.Tracks.{part_by};
ghost use Rattle.kryo_stream.specs.Reads.{reads_at};
ghost use Rattle.sector_images.specs.Places.{tracks};

use crate::capture::write_started;
use crate::fault::{RefusedCapture, Stopped};
use crate::plan::Plan;
use crate::room::DiskRoom;
use crate::second_sinks::{NoSecond, SecondSinks};
use crate::track_captures::read_captures;
use crate::track_part::PartFault;
use crate::track_streams::{OneAfterAnother, TrackStreams};
use crate::track_writer::{ImageAndReport, TrackWriter};
use crate::writing::{add_totals, no_totals};
use flux_base::{Sink, Source};
use kryo_stream::{growth_law, padding_law};
use sector_images::{sectors_lie_in_images, track_count, tracks_keep_bounds};
use sector_report::{Totals, total_line, write_line};

/// Decodes all tracks of a disk in order by a plan, and then writes the total line to `notes`. Of each track one
/// verdict for each sector is given over all readings of its captures by the plan's clocks; its part of the image is
/// written, a piece for each sector, and then its lines, each in one piece. No answer is for want of memory.
///
/// What stands after the last stream is not looked at. After a fault nothing more is read or written, and
/// the tracks before are written whole. `Refused` names the first stream with a fault.
pub fn decode_planned<S: Source, W: Sink, N: Sink>(
    plan: Plan,
    room: &mut DiskRoom,
    source: &mut S,
    image: &mut W,
    notes: &mut N,
) -> Result<Totals, Stopped<RefusedCapture>>
    requires fresh { room.old ≡ fresh room.old.format }
    requires few { plan.captures ≤ 16 }
    ensures decoded { DecodesPlanned plan (part_by plan.naming) room.old.format (S.left source.old) (S.left source.new)
        (W.written image.old) (W.written image.new) (N.written notes.old) (N.written notes.new) result }
    ensures told { (bytes : List ℕ) → S.left source.old ≡ Some bytes
        → SaysOfPlannedInput plan (part_by plan.naming) room.old.format bytes (S.left source.new) (W.written image.old)
        (W.written image.new) (N.written notes.old) (N.written notes.new) result }

    // A source that tells its bytes is read only where those that it gave before end inside a stream.
    ensures needed { (bytes : List ℕ) → S.left source.old ≡ Some bytes
        → ReadsWhereOpen (EndsInPlan plan room.old.format) (reads_at S.Source source.old)
        (reads_at S.Source source.new) }

    ensures blames { CountsBy (stop_blame result)
        (counts_at S.Source W.Sink N.Sink source.old image.old notes.old)
        (counts_at S.Source W.Sink N.Sink source.new image.new notes.new) }

    // Over a source and sinks that do not fail there is no other answer.
    ensures complete { Stayed (S.faults source.old) (S.faults source.new)
        → Stayed (W.faults image.old) (W.faults image.new) → Stayed (N.faults notes.old) (N.faults notes.new)
        → IsFinished result }
{
    let writer = ImageAndReport {
        naming: plan.naming,
    };
    let mut totals = no_totals();
    match decode_planned_tracks(plan, &writer, room, source, image, notes, &mut totals) {
        Ok(()) => {}
        Err(fault) => return Err(fault),
    }
    match write_line(notes, &total_line(&totals)) {
        Ok(()) => Ok(totals),
        Err(_) => Err(Stopped::NotesFault),
    }
}

/// Decodes all tracks of a disk in order by a plan, where its streams follow one another in a source, writes what each
/// comes to, and adds up the totals of those that were written whole. No answer is for want of memory.
///
/// After a fault nothing more is read or written. `Refused` names the first stream with a fault.
pub fn decode_planned_tracks<O: TrackWriter<NoSecond>, S: Source, W: Sink, N: Sink>(
    plan: Plan,
    writer: &O,
    room: &mut DiskRoom,
    source: &mut S,
    image: &mut W,
    notes: &mut N,
    totals: &mut Totals,
) -> Result<(), Stopped<RefusedCapture>>
    requires none { totals.old ≡ no_totals }
    requires fresh { room.old ≡ fresh room.old.format }
    requires few { plan.captures ≤ 16 }
    ensures ok { OnOk result
        (HasPlanned plan (O.part_of writer.now) room.old.format (S.left source.old) (S.left source.new)
        (W.written image.old) (W.written image.new) (N.written notes.old) (N.written notes.new) room.new
        (length (tracks room.old.format)) totals.new) }
    ensures needed { (bytes : List ℕ) → S.left source.old ≡ Some bytes
        → ReadsWhereOpen (EndsInPlan plan room.old.format) (reads_at S.Source source.old)
        (reads_at S.Source source.new) }
    ensures err { OnErr result
        (EndsInTracks plan (O.part_of writer.now) room.old.format (S.left source.old) (S.left source.new)
        (W.written image.old) (W.written image.new) (N.written notes.old) (N.written notes.new) totals.new result) }
    ensures blames { CountsBy (stop_blame result)
        (counts_at S.Source W.Sink N.Sink source.old image.old notes.old)
        (counts_at S.Source W.Sink N.Sink source.new image.new notes.new) }
{
    growth_law();
    padding_law();
    let mut none = NoSecond;
    decode_tracks(
        plan,
        &OneAfterAnother,
        writer,
        room,
        source,
        image,
        notes,
        &mut none,
        totals,
    )
}

/// Decodes all tracks of a disk in order by a plan, wherever its streams come from, writes what each comes to, and adds
/// up the totals of those that were written whole. What the writer's second sinks took is known where they took all that
/// they were given. No answer is for want of memory.
///
/// After a fault nothing more is read or written. `Refused` names the stream that ended the disk.
pub fn decode_tracks<T: TrackStreams<S>, O: TrackWriter<D>, D: SecondSinks, S, W: Sink, N: Sink>(
    plan: Plan,
    streams: &T,
    writer: &O,
    room: &mut DiskRoom,
    source: &mut S,
    image: &mut W,
    notes: &mut N,
    second: &mut D,
    totals: &mut Totals,
) -> Result<(), Stopped<RefusedCapture>>
    requires none { totals.old ≡ no_totals }
    requires fresh { room.old ≡ fresh room.old.format }
    requires few { plan.captures ≤ 16 }
    ensures ok { OnOk result
        (HasWritten plan (O.part_of writer.now) room.old.format
        (T.came streams.now plan room.old.format source.old source.new) (W.written image.old) (W.written image.new)
        (N.written notes.old) (N.written notes.new) room.new (length (tracks room.old.format)) totals.new) }
    ensures second { OnOk result
        (HasWrittenSecond plan (O.second_part_of writer.now) room.old.format
        (T.came streams.now plan room.old.format source.old source.new) (D.now second.old) (D.now second.new) room.new
        (length (tracks room.old.format)) totals.new) }
    ensures err { IfErr result
        (EndsLoop plan (O.part_of writer.now) room.old.format
        (T.came streams.now plan room.old.format source.old source.new)
        (T.ended streams.now plan room.old.format source.old source.new) (W.written image.old) (W.written image.new)
        (N.written notes.old) (N.written notes.new) room.new totals.new) }

    // What was counted, so that tracks behind the last one can be counted too.
    ensures few { OnOk result (AreCountsBelow room.new (length (tracks room.old.format))) }

    // What the streams' object did is in what came of it.
    ensures blames { CountsBy (sink_blame result)
        (sinks_counts W.Sink N.Sink image.old notes.old)
        (sinks_counts W.Sink N.Sink image.new notes.new) }
{
    tracks_keep_bounds();
    sectors_lie_in_images();
    for number in 0..track_count(room.format) {
        match read_captures(plan, streams, room, number, source) {
            Ok(()) => {}
            Err(fault) => return Err(fault),
        }
        match write_started(writer, room, image, notes, second) {
            Ok(more) => add_totals(totals, more),
            Err(fault) => return Err(of_part(fault)),
        }
    }
    Ok(())
}

/// The fault of a sink, among those of a disk.
fn of_part(fault: PartFault) -> Stopped<RefusedCapture>
    ensures { result ≡ of_part_fault fault }
{
    match fault {
        PartFault::ImageFault => Stopped::ImageFault,
        PartFault::NotesFault => Stopped::NotesFault,
    }
}
