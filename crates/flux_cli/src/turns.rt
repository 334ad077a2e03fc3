ghost use Rattle.std.specs.Prelude.{◌-◌, ◌<◌, ◌^◌, length};
ghost use Rattle.flux_base.specs.Blames.{CountsBy};
ghost use Rattle.flux_base.specs.Moments.{Puts};
ghost use Rattle.flux_base.specs.World.{sink_at, counts_at};
ghost use Rattle.flux_cli.specs.Blamed.{source_blame};
ghost use Rattle.flux_cli.specs.BytesWork.{of_bytes};
ghost use Rattle.flux_cli.specs.Runs.{Does};
ghost use Rattle.flux_cli.specs.Turns.{turn_lines, turns_text};
ghost use Rattle.flux_cli.specs.TurnsWork.{turns_work};
ghost use Rattle.flux_cli.specs.World.{outside_at};
ghost use Rattle.kryo_stream.specs.Room.{IsFresh};

use crate::endings::refuse;
use flux_base::{Failed, Sink, Source, Status};
use index_turns::TrackFlux;
use kryo_stream::{CaptureFault, StreamRoom};
use sector_report::{refused_line, transitions_line, turn_line, write_line};

/// Reads one stream, and prints its transitions and turns.
pub fn print_turns<S: Source, W: Sink, N: Sink>(
    room: &mut StreamRoom,
    source: &mut S,
    image: &mut W,
    notes: &mut N,
) -> Status
    requires { IsFresh room.old }
    ensures does { Does (of_bytes turns_work) result
        (outside_at S.Source W.Sink N.Sink source.old image.old notes.old)
        (outside_at S.Source W.Sink N.Sink source.new image.new notes.new) }
    ensures blames { CountsBy (source_blame result)
        (counts_at S.Source W.Sink N.Sink source.old image.old notes.old)
        (counts_at S.Source W.Sink N.Sink source.new image.new notes.new) }
{
    match room.read(source) {
        Ok(()) => match write_turns(room.flux(), image) {
            Ok(()) => Status::AllGood,
            Err(_) => Status::ImageFault,
        },
        Err(CaptureFault::ReadFault) => Status::ReadFault,
        Err(CaptureFault::Refused { block, fault }) => {
            refuse(&refused_line(0, block, &fault), notes)
        }
    }
}

/// Writes how many transitions a stream has, and a line for each of its turns.
pub fn write_turns<W: Sink>(flux: &TrackFlux, sink: &mut W) -> Result<(), Failed>
    requires times { length flux.now.times < 2 ^ 32 }
    requires indexes { length flux.now.indexes < 2 ^ 32 }
    ensures { Puts (sink_at W.Sink sink.old) (sink_at W.Sink sink.new) (turns_text flux.now.times flux.now.indexes)
        result }
{
    let line = transitions_line(flux.times().len() as u32);
    match write_line(sink, &line) {
        Ok(()) => write_turn_lines(flux, sink),
        Err(failed) => Err(failed),
    }
}

/// Writes a line for each turn.
fn write_turn_lines<W: Sink>(flux: &TrackFlux, sink: &mut W) -> Result<(), Failed>
    requires { length flux.now.indexes < 2 ^ 32 }
    ensures { Puts (sink_at W.Sink sink.old) (sink_at W.Sink sink.new)
        (turn_lines flux.now.indexes (length flux.now.indexes - 1)) result }
{
    for turn in 1..flux.indexes().len() as u32 {
        let line = turn_line(turn, flux.turn_ticks(turn));
        match write_line(sink, &line) {
            Ok(()) => {}
            Err(failed) => return Err(failed),
        }
    }
    Ok(())
}
