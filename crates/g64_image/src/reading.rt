//! A file as an image and a report.

ghost use Rattle.std.specs.Prelude.{◌≡◌, ◌≤◌, ◌<◌, ℕ, List, None, Some, Option, length, IfOk};
ghost use Rattle.flux_base.specs.Blames.{CountsBy};
ghost use Rattle.flux_base.specs.World.{counts_at, sinks_counts};
ghost use Rattle.flux_engine.specs.Answers.{Stayed};
ghost use Rattle.flux_engine.specs.Blamed.{part_blame, stop_blame};
ghost use Rattle.flux_engine.specs.Needed.{ReadsUpTo};
ghost use Rattle.kryo_stream.specs.Reads.{reads_at};
ghost use Rattle.sector_images.specs.Places.{tracks};
ghost use Rattle.g64_image.specs.Answers.{FromCause, IsReadOrRefused, IsTakenFile, ReadsFile, SaysOfFile};
ghost use Rattle.g64_image.specs.Answers.{SaysOfFileBytes};
ghost use Rattle.g64_image.specs.Faults.{HasTables, first_fault as first_fault_of};
ghost use Rattle.g64_image.specs.Layout.{IsCommodore};
ghost use Rattle.g64_image.specs.Progress.{HasRead, WasStopped};
ghost use Rattle.g64_image.specs.Room.{IsRoomy};

use crate::check::{first_fault, track_bytes};
use crate::fault::G64Fault;
use crate::room::{G64Room, Tools};
use crate::track::read_ring;
use flux_base::{Sink, Source};
use flux_engine::{PartFault, Stopped, add_totals, fill, no_totals, write_part};
use sector_images::{Format, track_count, track_id, tracks_keep_bounds};
use sector_report::{Naming, Totals, total_line, write_line};

/// Reads a file to its end, or to one byte more than 4194304, and then writes its tracks in order as `decode_planned`
/// does: of each the track's part of the image to `image` and its lines to `notes`, and at last the total line. No
/// answer is for want of memory.
///
/// `Refused` names the file's first fault. Then, and after `ReadFault`, nothing was written. After `ImageFault` and
/// `NotesFault` the tracks before are written whole.
pub fn from_g64<S: Source, W: Sink, N: Sink>(
    room: &mut G64Room,
    source: &mut S,
    image: &mut W,
    notes: &mut N,
) -> Result<Totals, Stopped<G64Fault>>
    ensures read { ReadsFile room.old (S.left source.old) (S.left source.new) (W.written image.old)
        (W.written image.new) (N.written notes.old) (N.written notes.new) result }
    ensures told { (bytes : List ℕ) → S.left source.old ≡ Some bytes
        → SaysOfFileBytes room.old bytes (S.left source.new) (W.written image.old) (W.written image.new)
        (N.written notes.old) (N.written notes.new) result }

    // The source is read only where no more bytes than a file may have were given.
    ensures needed { ReadsUpTo 4194305 (reads_at S.Source source.old) (reads_at S.Source source.new) }

    ensures format { room.new ≡ room.old }
    ensures cause { FromCause (S.faults source.old) (S.faults source.new) (W.faults image.old) (W.faults image.new)
        (N.faults notes.old) (N.faults notes.new) result }
    ensures blames { CountsBy (stop_blame result)
        (counts_at S.Source W.Sink N.Sink source.old image.old notes.old)
        (counts_at S.Source W.Sink N.Sink source.new image.new notes.new) }

    // Over a source and sinks that do not fail there is no other answer.
    ensures complete { Stayed (S.faults source.old) (S.faults source.new)
        → Stayed (W.faults image.old) (W.faults image.new) → Stayed (N.faults notes.old) (N.faults notes.new)
        → IsReadOrRefused result }
    ensures source_later { S.faults source.old ≤ S.faults source.new }
    ensures image_later { W.faults image.old ≤ W.faults image.new }
    ensures notes_later { N.faults notes.old ≤ N.faults notes.new }
{
    let read = match fill(&mut room.file, source) {
        Ok(read) => read,
        Err(_) => return Err(Stopped::ReadFault),
    };
    read_file(
        room.format,
        &room.file[..read],
        &mut room.tools,
        image,
        notes,
    )
}

/// Looks for the file's fault, and where it has none writes all that it comes to.
fn read_file<W: Sink, N: Sink>(
    format: Format,
    file: &[u8],
    tools: &mut Tools,
    image: &mut W,
    notes: &mut N,
) -> Result<Totals, Stopped<G64Fault>>
    requires format { IsCommodore format }
    requires few { length file.now ≤ 4194305 }
    requires roomy { IsRoomy format tools.old.cells tools.old.book }
    ensures says { (left : Option (List ℕ)) → IsTakenFile file.now left
        → SaysOfFile format file.now left (W.written image.old) (W.written image.new) (N.written notes.old)
        (N.written notes.new) result }
    ensures blames { CountsBy (stop_blame result)
        (sinks_counts W.Sink N.Sink image.old notes.old)
        (sinks_counts W.Sink N.Sink image.new notes.new) }
    ensures roomy { IsRoomy format tools.new.cells tools.new.book }
{
    match first_fault(format, file) {
        Some(fault) => return Err(Stopped::Refused(fault)),
        None => {}
    }
    let totals = match write_tracks(format, file, tools, image, notes) {
        Ok(totals) => totals,
        Err(PartFault::ImageFault) => return Err(Stopped::ImageFault),
        Err(PartFault::NotesFault) => return Err(Stopped::NotesFault),
    };
    match write_line(notes, &total_line(&totals)) {
        Ok(()) => Ok(totals),
        Err(_) => Err(Stopped::NotesFault),
    }
}

/// Reads and writes the tracks of a file without a fault, and gives the totals of all.
fn write_tracks<W: Sink, N: Sink>(
    format: Format,
    file: &[u8],
    tools: &mut Tools,
    image: &mut W,
    notes: &mut N,
) -> Result<Totals, PartFault>
    requires format { IsCommodore format }
    requires tables { HasTables file.now }
    requires sound { first_fault_of format file.now ≡ None }
    requires roomy { IsRoomy format tools.old.cells tools.old.book }
    ensures ok { IfOk result
        (λ totals.
        HasRead format file.now (W.written image.old) (W.written image.new) (N.written notes.old) (N.written notes.new)
        (length (tracks format)) totals) }
    ensures err { WasStopped format file.now (W.written image.old) (W.written image.new) (N.written notes.old)
        (N.written notes.new) result }
    ensures blames { CountsBy (part_blame result)
        (sinks_counts W.Sink N.Sink image.old notes.old)
        (sinks_counts W.Sink N.Sink image.new notes.new) }
    ensures roomy { IsRoomy format tools.new.cells tools.new.book }
{
    tracks_keep_bounds();
    let mut totals = no_totals();
    for number in 0..track_count(format) {
        let track = track_id(format, number);
        read_ring(format, track, track_bytes(file, number), tools);
        match write_part(Naming::Unnamed, format, track, &tools.book, image, notes) {
            Ok(more) => add_totals(&mut totals, more),
            Err(fault) => return Err(fault),
        }
    }
    Ok(totals)
}
