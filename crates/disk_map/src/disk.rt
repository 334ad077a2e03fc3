ghost use Rattle.std.specs.Prelude.{◌≡◌, ◌+◌, ◌≤◌, ℕ, List, Some, flat_map, length};
ghost use Rattle.std.specs.List.{range_with_len};
ghost use Rattle.flux_base.specs.Blames.{CountsBy, no_counts, three_counts};
ghost use Rattle.flux_base.specs.Moments.{Puts};
ghost use Rattle.flux_base.specs.World.{sink_at, source_counts, sink_counts};
ghost use Rattle.flux_engine.specs.Answers.{Stayed};
ghost use Rattle.flux_engine.specs.Blamed.{stop_blame};
ghost use Rattle.flux_engine.specs.Needed.{ReadsWhereOpen};
ghost use Rattle.flux_engine.specs.PlanAnswers.{IsFinished};
ghost use Rattle.flux_engine.specs.Plans.{EndsInPlan};
ghost use Rattle.flux_engine.specs.Room.{fresh};
ghost use Rattle.kryo_stream.specs.Reads.{reads_at};
ghost use Rattle.disk_map.specs.Answers.{MapsDisk, SaysOfMapInput};
ghost use Rattle.disk_map.specs.Places.{layout_of};
ghost use Rattle.disk_map.specs.Progress.{EndsEarly};
ghost use Rattle.disk_map.specs.Texts.{grid_text, grids_text, top_by};

use crate::field_writer::FieldWriter;
use crate::layout::Layout;
use crate::text::write_text;
use crate::texts::{LABELS, begin_text, foot_text, grid_text};
use dump_reading::Unsaid;
use flux_base::{CountingSink, Failed, Sink, Source, write_whole};
use flux_engine::{
    DiskRoom, Plan, RefusedCapture, Stopped, decode_planned_tracks, no_totals, room_format,
};
use sector_images::Format;
use sector_report::{Totals, refused_line, total_line};

/// Draws a disk: reads the streams of its tracks in order by a plan, and writes the picture of what they come to, the
/// fields of each track as soon as it is read. No answer is for want of memory.
///
/// What stands after the last stream is not looked at. After `ReadFault`, and after `ImageFault`, where the picture was
/// not written, nothing more is read or written. Where a stream is refused, the picture of the tracks before it is
/// brought to its end, and says why. No notes are written, so `NotesFault` does not come.
pub fn map_disk<S: Source, P: Sink>(
    plan: Plan,
    room: &mut DiskRoom,
    source: &mut S,
    picture: &mut P,
) -> Result<Totals, Stopped<RefusedCapture>>
    requires fresh { room.old ≡ fresh room.old.format }
    requires some { 1 ≤ plan.captures }
    requires few { plan.captures ≤ 16 }
    ensures mapped { MapsDisk plan room.old.format (S.left source.old) (S.left source.new) (P.written picture.old)
        (P.written picture.new) result }
    ensures told { (bytes : List ℕ) → S.left source.old ≡ Some bytes
        → SaysOfMapInput plan room.old.format bytes (S.left source.new) (P.written picture.old) (P.written picture.new)
        result }

    // A source that tells its bytes is read only where those that it gave before end inside a stream.
    ensures needed { (bytes : List ℕ) → S.left source.old ≡ Some bytes
        → ReadsWhereOpen (EndsInPlan plan room.old.format) (reads_at S.Source source.old)
        (reads_at S.Source source.new) }

    ensures blames { CountsBy (stop_blame result)
        (three_counts (source_counts S.Source source.old) (sink_counts P.Sink picture.old) no_counts)
        (three_counts (source_counts S.Source source.new) (sink_counts P.Sink picture.new) no_counts) }

    // Over a source and a sink that do not fail there is no other answer.
    ensures complete { Stayed (S.faults source.old) (S.faults source.new)
        → Stayed (P.faults picture.old) (P.faults picture.new) → IsFinished result }
{
    let format = room_format(room);
    match write_top("map", format, picture) {
        Ok(()) => {}
        Err(_) => return Err(Stopped::ImageFault),
    }
    let mut nothing = CountingSink::new();
    let mut totals = no_totals();
    match decode_planned_tracks(
        plan,
        &FieldWriter {
            naming: plan.naming,
            lines: &Unsaid,
        },
        room,
        source,
        picture,
        &mut nothing,
        &mut totals,
    ) {
        Ok(()) => {}
        Err(fault) => return Err(end_early(format, &totals, fault, picture)),
    }
    let foot = foot_text(Layout::of_format(format), &totals, &total_line(&totals));
    match write_text(picture, &foot) {
        Ok(()) => Ok(totals),
        Err(_) => Err(Stopped::ImageFault),
    }
}

/// Writes the foot of a picture of which a stream was refused. After another fault nothing is written.
fn end_early<P: Sink>(
    format: Format,
    totals: &Totals,
    fault: Stopped<RefusedCapture>,
    picture: &mut P,
) -> Stopped<RefusedCapture>
    ensures { EndsEarly format totals.now (sink_at P.Sink picture.old) (sink_at P.Sink picture.new) fault result }
{
    match fault {
        Stopped::Refused(refused) => {
            let last = refused_line(refused.track, refused.block, &refused.fault);
            match write_text(
                picture,
                &foot_text(Layout::of_format(format), totals, &last),
            ) {
                Ok(()) => fault,
                Err(_) => Stopped::ImageFault,
            }
        }
        Stopped::ReadFault | Stopped::ImageFault | Stopped::NotesFault => fault,
    }
}

/// Writes what stands before the fields, in a picture that this command draws.
pub(crate) fn write_top<P: Sink>(
    command: &str,
    format: Format,
    picture: &mut P,
) -> Result<(), Failed>
    requires { length command.now ≤ 8 }
    ensures { Puts (sink_at P.Sink picture.old) (sink_at P.Sink picture.new) (top_by command.now format) result }
{
    let layout = Layout::of_format(format);
    match write_text(picture, &begin_text(command, format, layout)) {
        Ok(()) => write_grids(layout, picture),
        Err(failed) => Err(failed),
    }
}

/// Writes the numbers at the sides, and the empty grid of each head.
fn write_grids<P: Sink>(layout: Layout, picture: &mut P) -> Result<(), Failed>
    ensures { Puts (sink_at P.Sink picture.old) (sink_at P.Sink picture.new) (grids_text layout) result }
{
    match write_whole(picture, LABELS.as_bytes()) {
        Ok(()) => write_each_grid(layout, picture),
        Err(failed) => Err(failed),
    }
}

/// Writes the empty grid of each head.
fn write_each_grid<P: Sink>(layout: Layout, picture: &mut P) -> Result<(), Failed>
    ensures { Puts (sink_at P.Sink picture.old) (sink_at P.Sink picture.new)
        (flat_map (grid_text layout) (range_with_len 0 (layout.last.head + 1))) result }
{
    for head in 0..u32::from(layout.last.head) + 1 {
        match write_text(picture, &grid_text(layout, head)) {
            Ok(()) => {}
            Err(failed) => return Err(failed),
        }
    }
    Ok(())
}
