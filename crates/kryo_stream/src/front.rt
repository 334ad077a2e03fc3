ghost use Rattle.std.specs.Prelude.{◌≡◌, ◌≤◌, ◌<◌, ◌+◌, ◌^◌, ℕ, false, length, take, drop, get_or, slice_index, All};
ghost use Rattle.std.specs.Prelude.{IfOk, IfSome, IfNone, Some, Ok, true};
ghost use Rattle.byteorder.specs.Endian.{little_number};
ghost use Rattle.kryo_stream.specs.Bench.{IsSized};
ghost use Rattle.kryo_stream.specs.inside.Blocks.{IsShortFlux};
ghost use Rattle.kryo_stream.specs.inside.Keeping.{IsLongFlux};
ghost use Rattle.kryo_stream.specs.Pieces.{has, in_stream_piece, info_piece, stream_info_piece, index_piece};
ghost use Rattle.kryo_stream.specs.Pieces.{stream_end_piece, out_of_band_piece, piece_at};
ghost use Rattle.kryo_stream.specs.inside.Pieces.{IsText};
ghost use Rattle.kryo_stream.specs.Stream.{is_in_stream};
ghost use Rattle.kryo_stream.specs.inside.Tally.{MayFollow};

use crate::before::Before;
use crate::block::{Block, SpelledBlock};
use crate::fault::StreamFault;
use byteorder::{ByteOrder, LittleEndian};
use std::simd::prelude::*;

/// The byte that begins each out-of-band block.
const OUT_OF_BAND: u8 = 0x0D;

/// The type of an Info block.
const INFO: u8 = 0x04;

/// How many bytes the header of an out-of-band block takes: 0D, the type, and the size.
const HEADER: u32 = 4;

/// How many bytes are looked at at once.
pub const LANES: usize = 16;

/// The most bytes of one stream.
pub const LIMIT: u32 = 4194304;

/// The block at the front of the bytes, which are those of the input from the block on.
pub fn front(before: &Before, bytes: &[u8]) -> Result<SpelledBlock, StreamFault>
    requires offset { before.now.offset ≤ 4194304 }
    ensures value { result ≡ piece_at before.now.offset before.now.counted before.now.ended bytes.now }
    ensures sized { IfOk result IsSized }
{
    have(before.offset, 1, bytes)?;
    if bytes[0] == OUT_OF_BAND {
        have(before.offset, HEADER, bytes)?;
        return out_of_band(before, bytes);
    }
    if before.ended {
        return Err(StreamFault::DataAfterEnd);
    }
    in_stream(before.offset, bytes)
}

/// How many of the bytes may be those of transitions: the ones within the limit, and none where another block comes
/// first or the stream has ended.
pub fn flux_reach(before: &Before, bytes: &[u8]) -> usize
    requires offset { before.now.offset ≤ 4194304 }
    ensures inside { result ≤ length bytes.now }
    ensures room { before.now.offset + result ≤ 4194304 }
    ensures going { 0 < result → before.now.ended ≡ false }
{
    if before.ended {
        return 0;
    }
    match bytes {
        [] | [0x08..=0x0B | OUT_OF_BAND, ..] => 0,
        _ => bytes.len().min((LIMIT - before.offset) as usize),
    }
}

/// How many transitions of one byte the bytes begin with, of which the first is one: up to 16, which are all looked at
/// at once. Fewer than 16 bytes are taken one by one.
#[inline(always)]
pub fn short_row(bytes: &[u8]) -> usize
    requires first { 14 ≤ get_or bytes.now 0 0 }
    ensures some { 1 ≤ result }
    ensures few { result ≤ 16 }
    ensures inside { result ≤ length bytes.now }
    ensures short { All IsShortFlux (take result bytes.now) }
{
    if bytes.len() < LANES {
        return 1;
    }
    let longer = u8x16::from_slice(bytes)
        .simd_le(u8x16::splat(OUT_OF_BAND))
        .to_bitmask();
    if longer == 0 {
        return LANES;
    }
    longer.trailing_zeros() as usize
}

/// A transition of two or three bytes: its ticks, and how many bytes it takes.
#[derive(Clone, Copy)]
pub struct LongFlux {
    pub ticks: u16,
    pub bytes: usize,
}

/// The transition of two or three bytes that the bytes begin with, if it stands there whole.
#[inline(always)]
pub fn long_flux(bytes: &[u8]) -> Option<LongFlux>
    ensures reading { IfSome result (IsLongFlux bytes.now) }
    ensures some { IfSome result (λ long. 1 ≤ long.bytes) }
    ensures inside { IfSome result (λ long. long.bytes ≤ length bytes.now) }
    ensures sized { IfSome result (λ long. long.ticks < 2 ^ 16) }
{
    match bytes {
        [first @ 0x00..=0x07, second, ..] => Some(LongFlux {
            ticks: u16::from(*first) * 256 + u16::from(*second),
            bytes: 2,
        }),
        [0x0C, first, second, ..] => Some(LongFlux {
            ticks: u16::from(*first) * 256 + u16::from(*second),
            bytes: 3,
        }),
        _ => None,
    }
}

/// The in-stream block at the front of the bytes, if it stands there whole, within the limit and before the end of the
/// stream.
#[inline(always)]
pub fn whole_block(before: &Before, bytes: &[u8]) -> Option<SpelledBlock>
    requires offset { before.now.offset ≤ 4194304 }
    ensures reading { IfSome result
        (λ piece. piece_at before.now.offset before.now.counted before.now.ended bytes.now ≡ Ok piece) }
    ensures follows { IfSome result (MayFollow before.now) }
    ensures inside { IfSome result (λ piece. piece.bytes ≤ length bytes.now) }
    ensures sized { IfSome result IsSized }
    ensures in_stream { IfSome result (λ piece. is_in_stream piece.block ≡ true) }
{
    if before.ended || before.offset >= LIMIT {
        return None;
    }
    match bytes {
        [] | [OUT_OF_BAND, ..] => None,
        _ => in_stream(before.offset, bytes).ok(),
    }
}

/// The size of the Info block at the front of the bytes, if its header is there and it ends within the
/// limit.
pub fn text_size(before: &Before, bytes: &[u8]) -> Option<u16>
    requires offset { before.now.offset ≤ 4194304 }
    ensures text { IfSome result (IsText before.now.offset bytes.now) }
    ensures none { IfNone result ((size : ℕ) → IsText before.now.offset bytes.now size → ⊥) }
{
    match bytes {
        [OUT_OF_BAND, INFO, size @ ..] if size.len() >= 2 => {
            let size = LittleEndian::read_u16(size);
            if before.offset + HEADER + u32::from(size) > LIMIT {
                return None;
            }
            Some(size)
        }
        _ => None,
    }
}

/// Whether the block at the offset has so many bytes.
fn have(offset: u32, count: u32, bytes: &[u8]) -> Result<(), StreamFault>
    requires offset { offset ≤ 4194304 }
    requires count { count ≤ 65539 }
    ensures { result ≡ has offset count bytes.now }
{
    if offset + count > LIMIT {
        return Err(StreamFault::TooLong);
    }
    if bytes.len() < count as usize {
        return Err(StreamFault::Truncated);
    }
    Ok(())
}

/// The in-stream block that begins with the bytes.
#[inline]
fn in_stream(offset: u32, bytes: &[u8]) -> Result<SpelledBlock, StreamFault>
    requires offset { offset ≤ 4194304 }
    requires first { 1 ≤ length bytes.now }
    ensures value { result ≡ in_stream_piece offset (slice_index bytes.now 0) bytes.now }
    ensures sized { IfOk result IsSized }
    ensures in_stream { IfOk result (λ piece. is_in_stream piece.block ≡ true) }
{
    let (block, bytes) = match bytes[0] {
        first @ 0x00..=0x07 => {
            have(offset, 2, bytes)?;
            let ticks = u16::from(first) * 256 + u16::from(bytes[1]);
            (Block::Flux { ticks }, 2)
        }
        first @ 0x08..=0x0A => {
            have(offset, u32::from(first - 7), bytes)?;
            (Block::Nop { bytes: first - 7 }, usize::from(first - 7))
        }
        0x0B => (Block::Overflow, 1),
        0x0C => {
            have(offset, 3, bytes)?;
            let ticks = u16::from(bytes[1]) * 256 + u16::from(bytes[2]);
            (Block::Flux { ticks }, 3)
        }
        first => (
            Block::Flux {
                ticks: u16::from(first),
            },
            1,
        ),
    };
    Ok(SpelledBlock { block, bytes })
}

/// The out-of-band block whose header the bytes begin with.
fn out_of_band(before: &Before, bytes: &[u8]) -> Result<SpelledBlock, StreamFault>
    requires offset { before.now.offset ≤ 4194304 }
    requires header { 4 ≤ length bytes.now }
    ensures value { result
        ≡ out_of_band_piece before.now.offset before.now.counted (slice_index bytes.now 1)
        (little_number 2 (drop 2 bytes.now)) bytes.now }
    ensures sized { IfOk result IsSized }
{
    let size = LittleEndian::read_u16(&bytes[2..]);
    match (bytes[1], size) {
        (0x01, 8) => stream_info(before, bytes),
        (0x02, 12) => index(before, bytes),
        (0x03, 8) => stream_end(before, bytes),
        (INFO, _) => info(before.offset, size, bytes),
        (0x0D, 0x0D0D) => Ok(SpelledBlock {
            block: Block::End,
            bytes: 4,
        }),
        (0x01 | 0x02 | 0x03 | 0x0D, _) => Err(StreamFault::BadSize(size)),
        (kind, _) => Err(StreamFault::UnknownType(kind)),
    }
}

/// The StreamInfo block whose header the bytes begin with.
fn stream_info(before: &Before, bytes: &[u8]) -> Result<SpelledBlock, StreamFault>
    requires offset { before.now.offset ≤ 4194304 }
    requires header { 4 ≤ length bytes.now }
    ensures value { result ≡ stream_info_piece before.now.offset before.now.counted bytes.now }
    ensures sized { IfOk result IsSized }
{
    have(before.offset, 12, bytes)?;
    let position = LittleEndian::read_u32(&bytes[4..]);
    let time = LittleEndian::read_u32(&bytes[8..]);
    let counted = before.counted;
    if position != counted {
        return Err(StreamFault::WrongPosition {
            said: position,
            counted,
        });
    }
    let block = Block::StreamInfo { position, time };
    Ok(SpelledBlock { block, bytes: 12 })
}

/// The Index block whose header the bytes begin with.
fn index(before: &Before, bytes: &[u8]) -> Result<SpelledBlock, StreamFault>
    requires offset { before.now.offset ≤ 4194304 }
    requires header { 4 ≤ length bytes.now }
    ensures value { result ≡ index_piece before.now.offset bytes.now }
    ensures sized { IfOk result IsSized }
{
    have(before.offset, 16, bytes)?;
    let position = LittleEndian::read_u32(&bytes[4..]);
    let sample = LittleEndian::read_u32(&bytes[8..]);
    let counter = LittleEndian::read_u32(&bytes[12..]);
    let block = Block::Index {
        position,
        sample,
        counter,
    };
    Ok(SpelledBlock { block, bytes: 16 })
}

/// The StreamEnd block whose header the bytes begin with.
fn stream_end(before: &Before, bytes: &[u8]) -> Result<SpelledBlock, StreamFault>
    requires offset { before.now.offset ≤ 4194304 }
    requires header { 4 ≤ length bytes.now }
    ensures value { result ≡ stream_end_piece before.now.offset before.now.counted bytes.now }
    ensures sized { IfOk result IsSized }
{
    have(before.offset, 12, bytes)?;
    let position = LittleEndian::read_u32(&bytes[4..]);
    let code = LittleEndian::read_u32(&bytes[8..]);
    let counted = before.counted;
    if position != counted {
        return Err(StreamFault::WrongPosition {
            said: position,
            counted,
        });
    }
    if code != 0 {
        return Err(StreamFault::DeviceFault(code));
    }
    let block = Block::StreamEnd { position, code };
    Ok(SpelledBlock { block, bytes: 12 })
}

/// The Info block of this size whose header the bytes begin with, where they hold it whole.
fn info(offset: u32, size: u16, bytes: &[u8]) -> Result<SpelledBlock, StreamFault>
    requires offset { offset ≤ 4194304 }
    ensures value { result ≡ info_piece offset size bytes.now }
    ensures sized { IfOk result IsSized }
{
    let count = HEADER + u32::from(size);
    have(offset, count, bytes)?;
    Ok(SpelledBlock {
        block: Block::Info { length: size },
        bytes: count as usize,
    })
}
