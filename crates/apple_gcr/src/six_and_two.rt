ghost use Rattle.std.specs.Prelude.{◌≡◌, ℕ, ◌*◌, ◌/◌, ◌%◌, ◌<◌, ◌+◌, [], length, get_or};
ghost use Rattle.apple_gcr.specs.SixAndTwo.{Carries, swapped, value_at as value_of_bytes};

use crate::layout::SECTOR_SIZE;
use arrayvec::ArrayVec;
use frame_law::SectorBuffer;

/// The values of a sector, six bits each: first those with the low bits of its bytes, then those with the high bits.
pub(crate) type Values = ArrayVec<u8, 342>;

/// How many values a sector has.
pub(crate) const VALUES: usize = 342;

/// How many of them have low bits, of up to three bytes each.
const LOW_VALUES: usize = 86;

/// The value at the index, of a sector's bytes.
pub(crate) fn value_at(bytes: &[u8], index: usize) -> u8
    requires { index < 342 }
    ensures value { result ≡ value_of_bytes bytes.now index }
    ensures fits { result < 64 }
{
    if index >= LOW_VALUES {
        return byte_or_zero(bytes, index - LOW_VALUES) / 4;
    }
    let first = swapped(byte_or_zero(bytes, index));
    let second = swapped(byte_or_zero(bytes, LOW_VALUES + index));
    let third = swapped(byte_or_zero(bytes, 2 * LOW_VALUES + index));
    first + 4 * second + 16 * third
}

/// The byte at the index, or 0 where there is none: the last two of the values with low bits have a pair of bits
/// to spare.
fn byte_or_zero(bytes: &[u8], index: usize) -> u8
    ensures { result ≡ get_or bytes.now index 0 }
{
    bytes.get(index).copied().unwrap_or(0)
}

/// The low two bits of a byte, swapped.
fn swapped(byte: u8) -> u8
    ensures { result ≡ swapped byte }
{
    2 * (byte % 2) + byte / 2 % 2
}

/// Puts the bytes that the values carry into the buffer, which was empty.
pub(crate) fn take_bytes(values: &[u8], buffer: &mut SectorBuffer)
    requires empty { buffer.old.items ≡ [] }
    requires size { length values.now ≡ 342 }
    requires fit { (k : ℕ) → get_or values.now k 0 < 64 }
    ensures { Carries values.now buffer.new.items }
{
    let mut bytes = [0; SECTOR_SIZE as usize];
    // A loop for each pair of low bits, so that none is asked for which.
    for index in 0..LOW_VALUES {
        bytes[index] = byte_of(values[LOW_VALUES + index], values[index]);
    }
    for index in LOW_VALUES..2 * LOW_VALUES {
        bytes[index] = byte_of(values[LOW_VALUES + index], values[index - LOW_VALUES] / 4);
    }
    for index in 2 * LOW_VALUES..SECTOR_SIZE as usize {
        bytes[index] = byte_of(
            values[LOW_VALUES + index],
            values[index - 2 * LOW_VALUES] / 16,
        );
    }
    match buffer.try_extend_from_slice(&bytes) {
        Ok(()) => {}
        // There is room for the longest sector.
        Err(_) => unreachable!(),
    }
}

/// The byte with these six high bits, and with the lowest two of the other number, swapped.
fn byte_of(high: u8, low: u8) -> u8
    requires high { high < 64 }
    ensures { result ≡ 4 * high + swapped low }
{
    4 * high + swapped(low)
}
