//! The streams of a disk's tracks, written from an image.

ghost use Rattle.std.specs.Prelude.{◌≡◌, ℕ, ◌≤◌, ◌<◌, List, Some, length, take, is_err, IfOk, OnErr};
ghost use Rattle.std.specs.Io.KnownBytes.{Consumes, IsAtEnd};
ghost use Rattle.flux_base.specs.Blames.{CountsBy, no_counts, three_counts};
ghost use Rattle.flux_base.specs.Counts.{Counts};
ghost use Rattle.flux_base.specs.Moments.{Puts};
ghost use Rattle.flux_base.specs.World.{sink_at, source_counts, sink_counts};
ghost use Rattle.cell_bits.specs.State.{room};
ghost use Rattle.kryo_stream.specs.Reads.{reads_at};
ghost use Rattle.sector_images.specs.Formats.{row};
ghost use Rattle.flux_engine.specs.Answers.{Stayed};
ghost use Rattle.flux_engine.specs.Blamed.{write_blame};
ghost use Rattle.flux_engine.specs.Needed.{ReadsUpTo};
ghost use Rattle.flux_engine.specs.Rings.{HasRoomForRings, streams_of};
ghost use Rattle.flux_engine.specs.Writes.{IsWrittenOrWrongSize, SaysOfBytes, WriteCause, WritesDisk, TakesFewer};
ghost use Rattle.flux_engine.specs.Writes.{most_read};

use crate::ring_making::track_ring;
use crate::write_fault::WriteFault;
use crate::write_room::WriteRoom;
use cell_bits::Cells;
use flux_base::{Failed, Sink, Source};
use flux_writer::write_track;
use sector_images::{Format, image_size, nominal, track_count, track_id, tracks_keep_bounds};

/// Reads an image to its end, or to one byte more than an image of the format has, and writes the streams of
/// its tracks in order, one after another. No answer is for want of memory.
///
/// `WrongSize` comes exactly where the bytes that were read are not an image's in number. Then, and after
/// `ReadFault`, nothing was written. After `ImageFault` a part of the streams was written.
pub fn write_disk<S: Source, W: Sink>(
    room: &mut WriteRoom,
    source: &mut S,
    sink: &mut W,
) -> Result<(), WriteFault>
    ensures wrote { WritesDisk room.old (S.left source.old) (S.left source.new) (W.written sink.old)
        (W.written sink.new) result }
    ensures told { (bytes : List ℕ) → S.left source.old ≡ Some bytes
        → SaysOfBytes room.old bytes (S.left source.new) (W.written sink.old) (W.written sink.new) result }

    // The source is read only where no more bytes than an image has were given.
    ensures needed { ReadsUpTo (most_read room.old) (reads_at S.Source source.old) (reads_at S.Source source.new) }

    ensures format { room.new ≡ room.old }
    ensures cause { WriteCause (S.faults source.old) (S.faults source.new) (W.faults sink.old) (W.faults sink.new)
        result }
    ensures blames { CountsBy (write_blame result)
        (three_counts (source_counts S.Source source.old) (sink_counts W.Sink sink.old) no_counts)
        (three_counts (source_counts S.Source source.new) (sink_counts W.Sink sink.new) no_counts) }

    // Over a source and a sink that do not fail there is no other answer.
    ensures complete { Stayed (S.faults source.old) (S.faults source.new)
        → Stayed (W.faults sink.old) (W.faults sink.new) → IsWrittenOrWrongSize result }
    ensures source_later { S.faults source.old ≤ S.faults source.new }
    ensures sink_later { W.faults sink.old ≤ W.faults sink.new }
{
    let wanted = image_size(room.format);
    let read = match fill(&mut room.image, source) {
        Ok(read) => read as u32,
        Err(_) => return Err(WriteFault::ReadFault),
    };
    if read != wanted {
        return Err(WriteFault::WrongSize { read, wanted });
    }
    match write_tracks(
        room.format,
        &room.image[..read as usize],
        &mut room.ring,
        sink,
    ) {
        Ok(()) => Ok(()),
        Err(_) => Err(WriteFault::ImageFault),
    }
}

/// Reads until the buffer is full or the source has ended, and gives the number of bytes,
/// which stand at the buffer's front.
pub fn fill<S: Source>(buffer: &mut [u8], source: &mut S) -> Result<usize, Failed>
    ensures bound { IfOk result (λ count. count ≤ length buffer.new) }
    ensures len { length buffer.new ≡ length buffer.old }
    ensures ok { IfOk result (λ count. Consumes (S.left source.old) (S.left source.new) (take count buffer.new)) }
    ensures ended { IfOk result (λ count. count < length buffer.new → IsAtEnd (S.left source.new)) }
    ensures err { OnErr result (TakesFewer (S.left source.old) (S.left source.new) (length buffer.old)) }
    ensures needed { ReadsUpTo (length buffer.old) (reads_at S.Source source.old) (reads_at S.Source source.new) }
    ensures counts { Counts (is_err result) (source_counts S.Source source.old) (source_counts S.Source source.new) }
{
    let mut filled = 0;
    while filled < buffer.len() {
        match source.read(&mut buffer[filled..]) {
            Ok(0) => return Ok(filled),
            Ok(count) => filled += count,
            Err(failed) => return Err(failed),
        }
    }
    Ok(filled)
}

/// Writes the streams of all tracks of an image.
fn write_tracks<W: Sink>(
    format: Format,
    image: &[u8],
    ring: &mut Cells,
    sink: &mut W,
) -> Result<(), Failed>
    requires image { length image.now ≡ (row format).image_size }
    requires room { HasRoomForRings format ring.old }
    ensures puts { Puts (sink_at W.Sink sink.old) (sink_at W.Sink sink.new) (streams_of format image.now) result }
    ensures room { room ring.old ≤ room ring.new }
{
    tracks_keep_bounds();
    for number in 0..track_count(format) {
        let cell = nominal(format, track_id(format, number));
        match track_ring(format, number, image, ring) {
            Ok(()) => {}
            // There is room for the longest ring.
            Err(_) => unreachable!(),
        }
        match write_track(ring, cell, sink) {
            Ok(()) => {}
            Err(failed) => return Err(failed),
        }
    }
    Ok(())
}
