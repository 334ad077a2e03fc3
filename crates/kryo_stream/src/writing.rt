ghost use Rattle.std.specs.Prelude.{◌≡◌, ◌<◌, ◌+◌, ◌-◌, ◌/◌, ◌%◌, ◌++◌};
ghost use Rattle.std.proofs.Math.ListN.{replicate};
ghost use Rattle.byteorder.specs.Endian.{little_bytes};
ghost use Rattle.flux_base.specs.Moments.{Puts};
ghost use Rattle.flux_base.specs.World.{sink_at};
ghost use Rattle.kryo_stream.specs.declared.block.Block.TheVariants.{Index};
ghost use Rattle.kryo_stream.specs.Blocks.{Spells, out_of_band};
ghost use Rattle.kryo_stream.specs.Spelling.{spelling, flux_spelling, HasNopBytes};

use crate::block::Block;
use byteorder::{ByteOrder, LittleEndian};
use flux_base::{Failed, Sink, write_whole};

/// What an Info is filled with, as much of it as is written at once.
const BLANKS: [u8; 256] = [0x20; 256];

/// Writes a block, in the spelling that is ours where the protocol leaves a choice. After `Failed` a
/// shorter prefix of it was written.
pub fn write_block<W: Sink>(block: &Block, sink: &mut W) -> Result<(), Failed>
    requires nop { HasNopBytes block.now }
    ensures spelled { Spells (spelling block.now) block.now }
    ensures puts { Puts (sink_at W.Sink sink.old) (sink_at W.Sink sink.new) (spelling block.now) result }
{
    match *block {
        Block::Flux { ticks } => write_flux(ticks, sink),
        Block::Overflow => write_whole(sink, &[0x0B]),
        Block::Nop { bytes } => write_whole(sink, &[7 + bytes, 0, 0][..bytes as usize]),
        Block::StreamInfo { position, time } => write_whole(sink, &two_numbers(1, position, time)),
        Block::Index {
            position,
            sample,
            counter,
        } => write_whole(sink, &index_spelling(position, sample, counter)),
        Block::StreamEnd { position, code } => write_whole(sink, &two_numbers(3, position, code)),
        Block::Info { length } => write_info(length, sink),
        Block::End => write_whole(sink, &[0x0D, 0x0D, 0x0D, 0x0D]),
    }
}

/// Writes a flux value, in as few bytes as it fits.
fn write_flux<W: Sink>(ticks: u16, sink: &mut W) -> Result<(), Failed>
    ensures { Puts (sink_at W.Sink sink.old) (sink_at W.Sink sink.new) (flux_spelling ticks) result }
{
    let high = (ticks / 256) as u8;
    let low = (ticks % 256) as u8;
    match ticks {
        0x0E..=0xFF => write_whole(sink, &[low]),
        0..=0x7FF => write_whole(sink, &[high, low]),
        _ => write_whole(sink, &[0x0C, high, low]),
    }
}

/// The bytes of an out-of-band block of type `kind` with two numbers.
fn two_numbers(kind: u8, first: u32, second: u32) -> [u8; 12]
    ensures { result ≡ out_of_band kind 8 ++ little_bytes 4 first ++ little_bytes 4 second }
{
    let mut bytes = [0x0D, kind, 8, 0, 0, 0, 0, 0, 0, 0, 0, 0];
    LittleEndian::write_u32(&mut bytes[4..], first);
    LittleEndian::write_u32(&mut bytes[8..], second);
    bytes
}

/// The bytes of an Index block.
pub fn index_spelling(position: u32, sample: u32, counter: u32) -> [u8; 16]
    ensures { result ≡ spelling (Index position sample counter) }
{
    let mut bytes = [0x0D, 2, 12, 0, 0, 0, 0, 0, 0, 0, 0, 0, 0, 0, 0, 0];
    LittleEndian::write_u32(&mut bytes[4..], position);
    LittleEndian::write_u32(&mut bytes[8..], sample);
    LittleEndian::write_u32(&mut bytes[12..], counter);
    bytes
}

/// Writes an Info of `length` blanks.
fn write_info<W: Sink>(length: u16, sink: &mut W) -> Result<(), Failed>
    ensures { Puts (sink_at W.Sink sink.old) (sink_at W.Sink sink.new) (out_of_band 4 length ++ replicate length 32)
        result }
{
    let mut header = [0x0D, 4, 0, 0];
    LittleEndian::write_u16(&mut header[2..], length);
    match write_whole(sink, &header) {
        Ok(()) => write_blanks(length as usize, sink),
        Err(failed) => Err(failed),
    }
}

/// Writes so many blanks.
fn write_blanks<W: Sink>(count: usize, sink: &mut W) -> Result<(), Failed>
    ensures { Puts (sink_at W.Sink sink.old) (sink_at W.Sink sink.new) (replicate count 32) result }
{
    let mut rest = count;
    while rest > 0 {
        let piece = rest.min(BLANKS.len());
        match write_whole(sink, &BLANKS[..piece]) {
            Ok(()) => rest -= piece,
            Err(failed) => return Err(failed),
        }
    }
    Ok(())
}
