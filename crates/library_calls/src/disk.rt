ghost use Rattle.std.specs.Prelude.{◌≡◌, ℕ, ◌≤◌, List, Some};
ghost use Rattle.flux_base.specs.Blames.{CountsBy};
ghost use Rattle.flux_base.specs.World.{counts_at};
ghost use Rattle.library_calls.specs.Answers.{DecodesDisk, SaysOfInput, EngineCause, IsWholeOrRefused, engine_blame};
ghost use Rattle.library_calls.specs.Answers.{EndsInStreams, engine_answer as engine_answer_of};
ghost use Rattle.flux_engine.specs.Answers.{Stayed};
ghost use Rattle.flux_engine.specs.Needed.{ReadsWhereOpen};
ghost use Rattle.flux_engine.specs.Room.{fresh};
ghost use Rattle.kryo_stream.specs.Reads.{reads_at};

use crate::fault::EngineFault;
use flux_base::{Sink, Source};
use flux_engine::{DiskRoom, RefusedCapture, Stopped, decode_planned, decoding_plan};
use sector_report::Totals;

/// Decodes all tracks of a disk in order, as `decode_track` does each, and then writes the total line to
/// `notes`: it reads the disk by the plan of one stream of each track. No answer is for want of memory.
///
/// What stands after the last stream is not looked at. After a fault nothing more is read or written, and
/// the tracks before are written whole.
pub fn decode_disk<S: Source, W: Sink, N: Sink>(
    room: &mut DiskRoom,
    source: &mut S,
    image: &mut W,
    notes: &mut N,
) -> Result<Totals, EngineFault>
    requires { room.old ≡ fresh room.old.format }
    ensures decoded { DecodesDisk room.old.format (S.left source.old) (S.left source.new) (W.written image.old)
        (W.written image.new) (N.written notes.old) (N.written notes.new) result }
    ensures told { (bytes : List ℕ) → S.left source.old ≡ Some bytes
        → SaysOfInput room.old.format bytes (S.left source.new) (W.written image.old) (W.written image.new)
        (N.written notes.old) (N.written notes.new) result }

    // A source that tells its bytes is read only where those that it gave before end inside a stream.
    ensures needed { (bytes : List ℕ) → S.left source.old ≡ Some bytes
        → ReadsWhereOpen (EndsInStreams room.old.format) (reads_at S.Source source.old) (reads_at S.Source source.new) }

    ensures cause { EngineCause (S.faults source.old) (S.faults source.new) (W.faults image.old) (W.faults image.new)
        (N.faults notes.old) (N.faults notes.new) result }
    ensures blames { CountsBy (engine_blame result)
        (counts_at S.Source W.Sink N.Sink source.old image.old notes.old)
        (counts_at S.Source W.Sink N.Sink source.new image.new notes.new) }

    // Over a source and sinks that do not fail there is no other answer.
    ensures complete { Stayed (S.faults source.old) (S.faults source.new)
        → Stayed (W.faults image.old) (W.faults image.new) → Stayed (N.faults notes.old) (N.faults notes.new)
        → IsWholeOrRefused result }
    ensures source_later { S.faults source.old ≤ S.faults source.new }
    ensures image_later { W.faults image.old ≤ W.faults image.new }
    ensures notes_later { N.faults notes.old ≤ N.faults notes.new }
{
    let answer = decode_planned(decoding_plan(), room, source, image, notes);
    engine_answer(answer)
}

/// The answer for a disk of which each track has one stream: its faults name no capture.
fn engine_answer(answer: Result<Totals, Stopped<RefusedCapture>>) -> Result<Totals, EngineFault>
    ensures { result ≡ engine_answer_of answer }
{
    match answer {
        Ok(totals) => Ok(totals),
        Err(Stopped::ReadFault) => Err(EngineFault::ReadFault),
        Err(Stopped::ImageFault) => Err(EngineFault::ImageFault),
        Err(Stopped::NotesFault) => Err(EngineFault::NotesFault),
        Err(Stopped::Refused(refused)) => Err(EngineFault::Refused {
            track: refused.track,
            block: refused.block,
            fault: refused.fault,
        }),
    }
}
