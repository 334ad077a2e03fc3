ghost use Rattle.std.specs.Prelude.{◌≡◌, ◌+◌, ◌≤◌, ◌<◌, length, OnOk, OnErr, true, false};
ghost use Rattle.flux_base.specs.Blames.{CountsBy};
ghost use Rattle.flux_base.specs.World.{counts_at};
ghost use Rattle.library_calls.specs.Answers.{DecodesTrack, EngineCause, of_capture, of_sink, engine_blame};
ghost use Rattle.flux_engine.specs.Counts.{KeepsCounts};
ghost use Rattle.flux_engine.specs.Recordings.{track_at};
ghost use Rattle.kryo_stream.specs.Outcome.{IsReadWhereNeeded};
ghost use Rattle.kryo_stream.specs.Reads.{reads_at};
ghost use Rattle.sector_images.specs.Places.{tracks};

use crate::capture::read_capture;
use crate::fault::EngineFault;
use flux_base::{Sink, Source};
use flux_engine::{
    DiskRoom, PartFault, end_track, room_format, room_gathered, start_track, write_part,
};
use kryo_stream::CaptureFault;
use sector_images::{track_id, tracks_keep_bounds};
use sector_report::{Naming, Totals};

/// Decodes the next track of a disk: reads its stream, writes its part of the image, a piece for each
/// sector, in the order of their places there, and then its lines by the sectors' numbers, each in one
/// piece, and gives its totals. No answer is for want of memory.
///
/// The tracks come in order from number 0, and a room is not used again after a fault. `Refused` names the
/// first fault of the stream; then, and after `ReadFault`, nothing was written. After `ImageFault` the notes
/// are as before, and after `NotesFault` the image has this track's part whole.
pub fn decode_track<S: Source, W: Sink, N: Sink>(
    room: &mut DiskRoom,
    number: u32,
    source: &mut S,
    image: &mut W,
    notes: &mut N,
) -> Result<Totals, EngineFault>
    requires next { number ≡ room.old.next }
    requires track { number < length (tracks room.old.format) }
    requires sound { room.old.failed ≡ false }
    ensures decoded { DecodesTrack room.old.format (track_at room.old.format number) number (S.left source.old)
        (S.left source.new) room.old.used room.old.held room.new.held (W.written image.old) (W.written image.new)
        (N.written notes.old) (N.written notes.new) result }

    // The source is read only where the bytes at hand do not tell the answer.
    ensures needed { IsReadWhereNeeded (reads_at S.Source source.old) (reads_at S.Source source.new) room.old.used
        room.old.held }

    // The room after the call.
    ensures format { room.new.format ≡ room.old.format }
    ensures held { length room.new.held ≤ 4096 }
    ensures used { room.new.used ≡ true }
    ensures next { OnOk result (room.new.next ≡ number + 1) }
    ensures counted { KeepsCounts room.old room.new }
    ensures sound { OnOk result (room.new.failed ≡ false) }
    ensures failed { OnErr result (room.new.failed ≡ true) }

    ensures cause { EngineCause (S.faults source.old) (S.faults source.new) (W.faults image.old) (W.faults image.new)
        (N.faults notes.old) (N.faults notes.new) result }
    ensures blames { CountsBy (engine_blame result)
        (counts_at S.Source W.Sink N.Sink source.old image.old notes.old)
        (counts_at S.Source W.Sink N.Sink source.new image.new notes.new) }
    ensures source_later { S.faults source.old ≤ S.faults source.new }
    ensures image_later { W.faults image.old ≤ W.faults image.new }
    ensures notes_later { N.faults notes.old ≤ N.faults notes.new }
{
    start_track(room, number);
    match read_capture(room, number, 0, source) {
        Ok(()) => {}
        Err(fault) => return Err(of_track(number, fault)),
    }
    tracks_keep_bounds();
    let format = room_format(room);
    let track = track_id(format, number);
    let book = &room_gathered(room).book;
    match write_part(Naming::Unnamed, format, track, book, image, notes) {
        Ok(totals) => {
            end_track(room, true);
            Ok(totals)
        }
        Err(fault) => {
            end_track(room, false);
            Err(of_part(fault))
        }
    }
}

/// The fault of a track's one stream.
fn of_track(track: u32, fault: CaptureFault) -> EngineFault
    ensures { result ≡ of_capture track fault }
{
    match fault {
        CaptureFault::ReadFault => EngineFault::ReadFault,
        CaptureFault::Refused { block, fault } => EngineFault::Refused {
            track,
            block,
            fault,
        },
    }
}

/// The fault of a sink as the track was written.
fn of_part(fault: PartFault) -> EngineFault
    ensures { result ≡ of_sink fault }
{
    match fault {
        PartFault::ImageFault => EngineFault::ImageFault,
        PartFault::NotesFault => EngineFault::NotesFault,
    }
}
