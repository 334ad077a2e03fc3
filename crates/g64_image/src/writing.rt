//! An image as a file.

ghost use Rattle.std.specs.Prelude.{◌≡◌, ℕ, ◌≤◌, List, Some, length};
ghost use Rattle.cell_bits.specs.State.{room};
ghost use Rattle.flux_base.specs.Blames.{CountsBy, no_counts, three_counts};
ghost use Rattle.flux_base.specs.Moments.{Puts};
ghost use Rattle.flux_base.specs.World.{sink_at, source_counts, sink_counts};
ghost use Rattle.flux_engine.specs.Answers.{Stayed};
ghost use Rattle.flux_engine.specs.Needed.{ReadsUpTo};
ghost use Rattle.flux_engine.specs.Blamed.{write_blame};
ghost use Rattle.flux_engine.specs.Writes.{IsWrittenOrWrongSize, WriteCause, most_read};
ghost use Rattle.kryo_stream.specs.Reads.{reads_at};
ghost use Rattle.sector_images.specs.Formats.{row};
ghost use Rattle.g64_image.specs.Answers.{SaysOfBytes, WritesFile};
ghost use Rattle.g64_image.specs.Layout.{IsCommodore, g64_file, records};

use crate::front::front;
use crate::record::track_record;
use crate::room::G64Room;
use cell_bits::Cells;
use flux_base::{Failed, Sink, Source, write_whole};
use flux_engine::{WriteFault, fill, track_ring};
use sector_images::{Format, image_size, track_count};

/// Reads an image to its end, or to one byte more than an image of the format has, and writes its file. No
/// answer is for want of memory.
///
/// `WrongSize` comes exactly where the bytes that were read are not an image's in number. Then, and after `ReadFault`,
/// nothing was written. After `ImageFault` a part of the file was written.
pub fn to_g64<S: Source, W: Sink>(
    room: &mut G64Room,
    source: &mut S,
    sink: &mut W,
) -> Result<(), WriteFault>
    ensures wrote { WritesFile room.old (S.left source.old) (S.left source.new) (W.written sink.old)
        (W.written sink.new) result }
    ensures told { (bytes : List ℕ) → S.left source.old ≡ Some bytes
        → SaysOfBytes room.old bytes (S.left source.new) (W.written sink.old) (W.written sink.new) result }

    // The source is read only where no more bytes than an image has were given.
    ensures needed { ReadsUpTo (most_read room.old) (reads_at S.Source source.old) (reads_at S.Source source.new) }

    ensures format { room.new ≡ room.old }
    ensures cause { WriteCause (S.faults source.old) (S.faults source.new) (W.faults sink.old) (W.faults sink.new)
        result }
    ensures blames { CountsBy (write_blame result)
        (three_counts (source_counts S.Source source.old) (sink_counts W.Sink sink.old) no_counts)
        (three_counts (source_counts S.Source source.new) (sink_counts W.Sink sink.new) no_counts) }

    // Over a source and a sink that do not fail there is no other answer.
    ensures complete { Stayed (S.faults source.old) (S.faults source.new)
        → Stayed (W.faults sink.old) (W.faults sink.new) → IsWrittenOrWrongSize result }
    ensures source_later { S.faults source.old ≤ S.faults source.new }
    ensures sink_later { W.faults sink.old ≤ W.faults sink.new }
{
    let wanted = image_size(room.format);
    let read = match fill(&mut room.image, source) {
        Ok(read) => read as u32,
        Err(_) => return Err(WriteFault::ReadFault),
    };
    if read != wanted {
        return Err(WriteFault::WrongSize { read, wanted });
    }
    match write_file(
        room.format,
        &room.image[..read as usize],
        &mut room.tools.cells,
        sink,
    ) {
        Ok(()) => Ok(()),
        Err(_) => Err(WriteFault::ImageFault),
    }
}

/// Writes the file of an image.
fn write_file<W: Sink>(
    format: Format,
    image: &[u8],
    ring: &mut Cells,
    sink: &mut W,
) -> Result<(), Failed>
    requires format { IsCommodore format }
    requires image { length image.now ≡ (row format).image_size }
    requires room { 1048560 ≤ room ring.old }
    ensures puts { Puts (sink_at W.Sink sink.old) (sink_at W.Sink sink.new) (g64_file format image.now) result }
    ensures room { room ring.old ≤ room ring.new }
{
    let front = front(format);
    match write_whole(sink, front.as_slice()) {
        Ok(()) => write_tracks(format, image, ring, sink),
        Err(failed) => Err(failed),
    }
}

/// Writes the tracks of the file of an image.
fn write_tracks<W: Sink>(
    format: Format,
    image: &[u8],
    ring: &mut Cells,
    sink: &mut W,
) -> Result<(), Failed>
    requires format { IsCommodore format }
    requires image { length image.now ≡ (row format).image_size }
    requires room { 1048560 ≤ room ring.old }
    ensures puts { Puts (sink_at W.Sink sink.old) (sink_at W.Sink sink.new) (records format image.now) result }
    ensures room { room ring.old ≤ room ring.new }
{
    for number in 0..track_count(format) {
        match track_ring(format, number, image, ring) {
            Ok(()) => {}
            // There is room for the longest ring.
            Err(_) => unreachable!(),
        }
        let track = track_record(ring);
        match write_whole(sink, track.as_slice()) {
            Ok(()) => {}
            Err(failed) => return Err(failed),
        }
    }
    Ok(())
}
