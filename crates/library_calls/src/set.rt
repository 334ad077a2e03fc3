ghost use Rattle.std.specs.Prelude.{◌≡◌, ◌≤◌, ℕ, List, Some};
ghost use Rattle.flux_base.specs.Blames.{CountsBy};
ghost use Rattle.flux_base.specs.World.{counts_at};
ghost use Rattle.flux_engine.specs.Answers.{Stayed};
ghost use Rattle.flux_engine.specs.Blamed.{stop_blame};
ghost use Rattle.flux_engine.specs.Needed.{ReadsWhereOpen};
ghost use Rattle.flux_engine.specs.Room.{fresh};
ghost use Rattle.kryo_stream.specs.Reads.{reads_at};
ghost use Rattle.library_calls.specs.SetAnswers.{DecodesSet, IsWholeOrRefused, SaysOfSetInput, SetCause, plan_answer};
ghost use Rattle.library_calls.specs.Sets.{EndsInCaptures};

use crate::fault::SetFault;
use flux_base::{Sink, Source};
use flux_engine::{DiskRoom, RefusedCapture, Stopped, decode_planned, set_plan};
use sector_report::Totals;

/// Decodes all tracks of a disk in order, each from so many streams that stand one after another, and then writes the
/// total line to `notes`. Of each track one verdict for each sector is given over all its captures; its part of the
/// image is written, a piece for each sector, and then its lines, each in one piece. No answer is for want of memory.
///
/// What stands after the last stream is not looked at. After a fault nothing more is read or written, and
/// the tracks before are written whole. `Refused` names the first stream with a fault.
pub fn decode_set<S: Source, W: Sink, N: Sink>(
    room: &mut DiskRoom,
    count: u32,
    source: &mut S,
    image: &mut W,
    notes: &mut N,
) -> Result<Totals, SetFault>
    requires fresh { room.old ≡ fresh room.old.format }
    requires some { 1 ≤ count }
    requires few { count ≤ 16 }
    ensures decoded { DecodesSet room.old.format count (S.left source.old) (S.left source.new) (W.written image.old)
        (W.written image.new) (N.written notes.old) (N.written notes.new) result }
    ensures told { (bytes : List ℕ) → S.left source.old ≡ Some bytes
        → SaysOfSetInput room.old.format count bytes (S.left source.new) (W.written image.old) (W.written image.new)
        (N.written notes.old) (N.written notes.new) result }

    // A source that tells its bytes is read only where those that it gave before end inside a stream.
    ensures needed { (bytes : List ℕ) → S.left source.old ≡ Some bytes
        → ReadsWhereOpen (EndsInCaptures room.old.format count) (reads_at S.Source source.old)
        (reads_at S.Source source.new) }

    ensures cause { SetCause (S.faults source.old) (S.faults source.new) (W.faults image.old) (W.faults image.new)
        (N.faults notes.old) (N.faults notes.new) result }
    ensures blames { CountsBy (stop_blame (plan_answer result))
        (counts_at S.Source W.Sink N.Sink source.old image.old notes.old)
        (counts_at S.Source W.Sink N.Sink source.new image.new notes.new) }

    // Over a source and sinks that do not fail there is no other answer.
    ensures complete { Stayed (S.faults source.old) (S.faults source.new)
        → Stayed (W.faults image.old) (W.faults image.new) → Stayed (N.faults notes.old) (N.faults notes.new)
        → IsWholeOrRefused result }
    ensures source_later { S.faults source.old ≤ S.faults source.new }
    ensures image_later { W.faults image.old ≤ W.faults image.new }
    ensures notes_later { N.faults notes.old ≤ N.faults notes.new }
{
    set_answer(decode_planned(set_plan(count), room, source, image, notes))
}

/// The answer for a disk that is read by the plan of a set, as one for the set.
fn set_answer(answer: Result<Totals, Stopped<RefusedCapture>>) -> Result<Totals, SetFault>
    ensures { plan_answer result ≡ answer }
{
    match answer {
        Ok(totals) => Ok(totals),
        Err(Stopped::ReadFault) => Err(SetFault::ReadFault),
        Err(Stopped::ImageFault) => Err(SetFault::ImageFault),
        Err(Stopped::NotesFault) => Err(SetFault::NotesFault),
        Err(Stopped::Refused(refused)) => Err(SetFault::Refused {
            track: refused.track,
            capture: refused.capture,
            block: refused.block,
            fault: refused.fault,
        }),
    }
}
