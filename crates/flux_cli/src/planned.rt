//! Disks that are read by a plan, from the streams of a source.

ghost use Rattle.std.specs.Prelude.{◌≡◌, ◌≢◌, ◌≤◌};
ghost use Rattle.flux_base.specs.Blames.{CountsBy};
ghost use Rattle.flux_base.specs.World.{counts_at};
ghost use Rattle.flux_base.specs.declared.status.Status.{Status};
ghost use Rattle.flux_cli.specs.Blamed.{source_blame};
ghost use Rattle.flux_cli.specs.BytesWork.{of_bytes};
ghost use Rattle.flux_cli.specs.Endings.{in_image as answer_in_image};
ghost use Rattle.flux_cli.specs.PlanWork.{planned_work, stop_text};
ghost use Rattle.flux_cli.specs.Runs.{Does};
ghost use Rattle.flux_cli.specs.World.{outside_at};
ghost use Rattle.flux_engine.specs.Room.{fresh};

use crate::endings::end_of_plan;
use disk_map::map_disk;
use flux_base::{CountingSink, Memory, Sink, Source, Status};
use flux_engine::{DiskRoom, Plan, RefusedCapture, Stopped, decode_planned};
use flux_words::Output;
use sector_images::Format;
use sector_report::{Line, Naming, Totals, refused_capture_line, refused_line};
use std::alloc::Global;

/// Decodes a disk by a plan, in a room of its own, as `decode` does.
pub(crate) fn decode_by_plan<S: Source, W: Sink, N: Sink>(
    alloc: Global,
    plan: Plan,
    output: Output,
    format: Format,
    source: &mut S,
    image: &mut W,
    notes: &mut N,
) -> Status
    requires some { 1 ≤ plan.captures }
    requires few { plan.captures ≤ 16 }
    ensures does { Does (of_bytes (planned_work plan output format)) result
        (outside_at S.Source W.Sink N.Sink source.old image.old notes.old)
        (outside_at S.Source W.Sink N.Sink source.new image.new notes.new) }
    ensures blames { CountsBy (source_blame result)
        (counts_at S.Source W.Sink N.Sink source.old image.old notes.old)
        (counts_at S.Source W.Sink N.Sink source.new image.new notes.new) }
{
    match DiskRoom::reserve(alloc, format) {
        Ok(mut room) => decode(&mut room, plan, output, source, image, notes),
        Err(Memory) => Status::Memory,
    }
}

/// Decodes a disk by a plan, and gives its image with its report, the report alone, or a
/// picture. Notes say why it is refused.
pub fn decode<S: Source, W: Sink, N: Sink>(
    room: &mut DiskRoom,
    plan: Plan,
    output: Output,
    source: &mut S,
    image: &mut W,
    notes: &mut N,
) -> Status
    requires fresh { room.old ≡ fresh room.old.format }
    requires some { 1 ≤ plan.captures }
    requires few { plan.captures ≤ 16 }
    ensures does { Does (of_bytes (planned_work plan output room.old.format)) result
        (outside_at S.Source W.Sink N.Sink source.old image.old notes.old)
        (outside_at S.Source W.Sink N.Sink source.new image.new notes.new) }
    ensures blames { CountsBy (source_blame result)
        (counts_at S.Source W.Sink N.Sink source.old image.old notes.old)
        (counts_at S.Source W.Sink N.Sink source.new image.new notes.new) }
    ensures no_shelf { result ≢ Status.ShelfFault }
    ensures memory { result ≢ Status.Memory }
{
    match output {
        Output::ImageAndReport => {
            let answer = decode_planned(plan, room, source, image, notes);
            end_of_plan(plan.naming, answer, notes)
        }
        Output::ReportAlone => {
            let answer = decode_planned(plan, room, source, &mut CountingSink::new(), image);
            end_of_plan(plan.naming, in_image(answer), notes)
        }
        Output::Picture => {
            let answer = map_disk(plan, room, source, image);
            end_of_plan(plan.naming, answer, notes)
        }
    }
}

/// The answer where the report stands in the image's place: a fault of its sink is one of the image.
fn in_image(
    answer: Result<Totals, Stopped<RefusedCapture>>,
) -> Result<Totals, Stopped<RefusedCapture>>
    ensures { result ≡ answer_in_image answer }
{
    match answer {
        Ok(totals) => Ok(totals),
        Err(Stopped::NotesFault) => Err(Stopped::ImageFault),
        Err(fault) => Err(fault),
    }
}

/// Why a stream was refused: with the capture's number where lines name captures.
pub(crate) fn stop_line(naming: Naming, stop: &RefusedCapture) -> Line
    ensures { result.bytes ≡ stop_text naming stop.now }
{
    match naming {
        Naming::Unnamed | Naming::ByClock => refused_line(stop.track, stop.block, &stop.fault),
        Naming::ByCapture | Naming::ByCaptureAndClock => {
            refused_capture_line(stop.track, stop.capture, stop.block, &stop.fault)
        }
    }
}
