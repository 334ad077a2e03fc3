ghost use Rattle.std.specs.Prelude.{◌≡◌, ℕ, ◌+◌, ◌*◌, ◌^◌, ◌<◌, ◌≤◌, ◌++◌, [], length};
ghost use Rattle.std.specs.Int.{to_be_bytes, w32};
ghost use Rattle.flux_base.specs.Bounds.{MOST_SECTOR_BYTES};
ghost use Rattle.check_values.specs.Sums.{data_xor};
ghost use Rattle.amiga_mfm.specs.Longs.{long_at, longs_of, raw_longs};
ghost use Rattle.amiga_mfm.specs.Sectors.{content_at};

use crate::half::{DATA_CELLS, joined};
use crate::layout::{HALF_CELLS, SECTOR_LONGS};
use arrayvec::ArrayVec;
use frame_law::{CellsFrom, SectorBuffer};

/// Bytes as longs, the high byte of each first.
pub(crate) fn longs_in(bytes: &[u8]) -> ArrayVec<u32, SECTOR_LONGS>
    requires { length bytes.now ≤ 512 }
    ensures { result.items ≡ longs_of bytes.now }
{
    let mut longs = ArrayVec::new();
    for index in 0..bytes.len() / 4 {
        let begin = 4 * index;
        let long = [
            bytes[begin],
            bytes[begin + 1],
            bytes[begin + 2],
            bytes[begin + 3],
        ];
        longs.push(u32::from_be_bytes(long));
    }
    longs
}

/// The long whose odd half is the 32 cells at the offset, and whose even half the 32 cells so many cells
/// further. Both lie in the list.
pub(crate) fn read_long(frame: &CellsFrom, offset: usize, further: usize) -> u32
    requires near { offset + further < 2 ^ 32 }
    requires whole { offset + further + 32 ≤ length frame.now }
    ensures { result ≡ long_at frame.now offset further }
{
    joined(
        frame.word_at(offset, HALF_CELLS as u8),
        frame.word_at(offset + further, HALF_CELLS as u8),
    )
}

/// The check value of so many halves of longs from the offset on, which lie in the list.
pub(crate) fn check_at(frame: &CellsFrom, offset: usize, count: u16) -> u32
    requires near { offset < 2 ^ 32 }
    requires whole { offset + 32 * count ≤ length frame.now }
    ensures { result ≡ data_xor (raw_longs frame.now offset count) }
{
    let mut sum = 0;
    for index in 0..count as usize {
        sum ^= frame.word_at(offset + HALF_CELLS * index, HALF_CELLS as u8);
    }
    sum & DATA_CELLS
}

/// Puts the bytes of the data at the place, which lie in the list, into the buffer.
pub(crate) fn take_data(frame: &CellsFrom, place: usize, buffer: &mut SectorBuffer)
    requires near { place < 2 ^ 31 }
    requires empty { buffer.old.items ≡ [] }
    requires whole { place + 8192 ≤ length frame.now }
    ensures { buffer.new.items ≡ content_at frame.now place }
{
    for index in 0..SECTOR_LONGS {
        let offset = place + HALF_CELLS * index;
        push_long(buffer, read_long(frame, offset, HALF_CELLS * SECTOR_LONGS));
    }
}

/// Appends the four bytes of a long, the high one first.
fn push_long(buffer: &mut SectorBuffer, long: u32)
    requires { length buffer.old.items + 4 ≤ MOST_SECTOR_BYTES }
    ensures { buffer.new.items ≡ buffer.old.items ++ to_be_bytes w32 long }
{
    let [first, second, third, fourth] = long.to_be_bytes();
    buffer.push(first);
    buffer.push(second);
    buffer.push(third);
    buffer.push(fourth);
}
