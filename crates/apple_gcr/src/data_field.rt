ghost use Rattle.std.specs.Prelude.{◌≡◌, ℕ, ◌+◌, ◌*◌, ◌^◌, ◌<◌, ◌≤◌, [], List, false, get_or, length, IfNone, IfSome};
ghost use Rattle.std.specs.Prelude.{IsTrue};
ghost use Rattle.apple_gcr.specs.DiskBytes.{byte_read, bytes_end, zeros_passed};
ghost use Rattle.apple_gcr.specs.Sectors.{Hold, data_end};
ghost use Rattle.apple_gcr.specs.SixAndTwo.{AreCoded};
ghost use Rattle.apple_nibbles.specs.Nibbles.{disk_byte, nibble};

use crate::disk_bytes::{ByteRule, FOUR, FOUR_CELLS, byte_from, byte_place, bytes_end};
use crate::layout::NIBBLES;
use crate::six_and_two::{VALUES, Values, take_bytes};
use apple_nibbles::{BYTE_CELLS, DATA_BYTE, DATA_BYTE_PLACE, disk_byte_at, value_of};
use frame_law::{CellsFrom, SectorBuffer};

/// Where the data end whose sync stands at the offset. None where they are not whole.
pub(crate) fn data_end(rule: ByteRule, frame: &CellsFrom, sync: usize) -> Option<usize>
    requires { sync < 2 ^ 31 }
    ensures some { IfSome result
        (λ end. (end ≡ data_end (zeros_passed rule) frame.now sync) × (end ≤ length frame.now)) }
    ensures none { IfNone result (length frame.now < data_end (zeros_passed rule) frame.now sync) }
{
    let opening_end = bytes_end(rule, frame, sync + DATA_BYTE_PLACE, 1)?;
    bytes_end(rule, frame, opening_end, NIBBLES)
}

/// Whether the sync at the place opens data, and they hold bytes. Then the buffer, which was empty, has them.
pub(crate) fn read_field(
    rule: ByteRule,
    frame: &CellsFrom,
    sync: usize,
    buffer: &mut SectorBuffer,
) -> bool
    requires near { sync < 2 ^ 31 }
    requires whole { data_end (zeros_passed rule) frame.now sync ≤ length frame.now }
    requires empty { buffer.old.items ≡ [] }
    ensures good { IsTrue result → Hold (zeros_passed rule) frame.now sync buffer.new.items }
    ensures bad { result ≡ false → (bytes : List ℕ) → ¬ Hold (zeros_passed rule) frame.now sync bytes }
{
    let opening = byte_place(rule, frame, sync + DATA_BYTE_PLACE);
    if disk_byte_at(frame, opening) != DATA_BYTE {
        return false;
    }
    let Some(values) = values_from(rule, frame, opening + BYTE_CELLS) else {
        return false;
    };
    take_bytes(&values, buffer);
    true
}

/// The values whose nibbles, each exclusive-or the value before it, and whose check value are read from the offset
/// on. None where a byte is no nibble or the check value is another.
fn values_from(rule: ByteRule, frame: &CellsFrom, from: usize) -> Option<Values>
    requires near { from < 2 ^ 32 }
    requires whole { bytes_end (zeros_passed rule) frame.now from 343 ≤ length frame.now }
    ensures some { IfSome result (λ values. AreCoded (byte_read (zeros_passed rule) frame.now from) values.items) }
    ensures none { IfNone result
        ((values : List ℕ) → ¬ AreCoded (byte_read (zeros_passed rule) frame.now from) values) }
{
    let mut values = Values::new();
    let mut value = 0;
    let mut place = from;
    let mut left = VALUES;
    while left > 0 {
        if let Some(codes) = four_codes(frame, place, left) {
            value ^= codes[0];
            values.push(value);
            value ^= codes[1];
            values.push(value);
            value ^= codes[2];
            values.push(value);
            value ^= codes[3];
            values.push(value);
            place += FOUR * BYTE_CELLS;
            left -= FOUR;
        } else {
            let (begin, byte) = byte_from(rule, frame, place);
            value ^= value_of(byte)?;
            values.push(value);
            place = begin + BYTE_CELLS;
            left -= 1;
        }
    }
    let check = value_of(disk_byte_at(frame, byte_place(rule, frame, place)))?;
    if check != value {
        return None;
    }
    Some(values)
}

/// The values of the four nibbles that stand one right behind the other from the offset on, where as many are left to
/// be read. None where fewer are, or one of the bytes is no nibble: what is read there is told byte by byte.
#[inline(always)]
fn four_codes(frame: &CellsFrom, from: usize, left: usize) -> Option<[u8; 4]>
    requires within { 4 ≤ left → from + 32 ≤ length frame.now }
    ensures enough { IfSome result (λ codes. 4 ≤ left) }
    ensures size { IfSome result (λ codes. length codes ≡ 4) }
    ensures nibbles { IfSome result (λ codes. (k : ℕ) → k < 4
        → (get_or codes k 0 < 64) × (nibble (get_or codes k 0) ≡ disk_byte frame.now (from + 8 * k))) }
{
    if left < FOUR {
        return None;
    }
    let cells = frame.word_at(from, FOUR_CELLS);
    Some([
        value_of((cells / 0x100_0000) as u8)?,
        value_of((cells / 0x1_0000 % 256) as u8)?,
        value_of((cells / 256 % 256) as u8)?,
        value_of((cells % 256) as u8)?,
    ])
}
