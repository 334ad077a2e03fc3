ghost use Rattle.std.specs.Prelude.{◌≡◌, ℕ, ◌+◌, ◌*◌, ◌^◌, ◌<◌, ◌≤◌, ◌++◌, [], List, length};
ghost use Rattle.check_values.specs.Crc.{crc};
ghost use Rattle.flux_base.specs.Bounds.{MOST_SECTOR_BYTES};
ghost use Rattle.ibm_fields.specs.Fields.{address_named, bytes_at, number_at as number_of_bytes};
ghost use Rattle.ibm_fields.specs.Fields.{size_named as bytes_named};

use check_values::crc16;
use flux_base::HeaderName;
use frame_law::{CellsFrom, SectorBuffer};

/// The four bytes at the offset: a sector's address, which is cylinder, head, sector and the code of its
/// length.
pub fn address_at(frame: &CellsFrom, offset: usize) -> [u8; 4]
    requires near { offset < 2 ^ 32 }
    requires whole { offset + 64 ≤ length frame.now }
    ensures { result ≡ bytes_at frame.now offset 4 }
{
    [
        frame.byte_at(offset),
        frame.byte_at(offset + 16),
        frame.byte_at(offset + 32),
        frame.byte_at(offset + 48),
    ]
}

/// The name of a header that has this address.
pub fn name_of(address: [u8; 4]) -> HeaderName
    ensures { address_named result ≡ address }
{
    let [cylinder, head, sector, size_code] = address;
    HeaderName::Address {
        cylinder,
        head,
        sector,
        size_code,
    }
}

/// The greatest code of a size, which is that of 8192 bytes.
const MOST_SIZE_CODE: u8 = 6;

/// How many bytes there are in the data of a header with this name, by the code of their size: 128 to 8192. None where
/// the code is greater than 6, and where the name has none.
pub fn size_named(name: HeaderName) -> Option<u16>
    ensures { result ≡ bytes_named name }
{
    let HeaderName::Address { size_code, .. } = name else {
        return None;
    };
    if size_code > MOST_SIZE_CODE {
        return None;
    }
    Some(128 << size_code)
}

/// The two bytes at the offset as a number, high byte first, as check values are written.
pub fn number_at(frame: &CellsFrom, offset: usize) -> u16
    requires near { offset < 2 ^ 32 }
    requires whole { offset + 32 ≤ length frame.now }
    ensures { result ≡ number_of_bytes frame.now offset }
{
    256 * u16::from(frame.byte_at(offset)) + u16::from(frame.byte_at(offset + 16))
}

/// Puts so many bytes from the offset on into the buffer.
pub fn take_bytes(frame: &CellsFrom, offset: usize, count: u16, buffer: &mut SectorBuffer)
    requires empty { buffer.old.items ≡ [] }
    requires most { count ≤ MOST_SECTOR_BYTES }
    requires near { offset < 2 ^ 32 }
    requires whole { offset + 16 * count ≤ length frame.now }
    ensures { buffer.new.items ≡ bytes_at frame.now offset count }
{
    let count = count as usize;
    let fours = count / 4;
    for four in 0..fours {
        push_four(buffer, frame.bytes_at(offset + 64 * four));
    }
    for index in 4 * fours..count {
        buffer.push(frame.byte_at(offset + 16 * index));
    }
}

/// The check value of so many bytes from the offset on, from the register's value `start`. The bytes are kept nowhere.
pub fn check_of_bytes(frame: &CellsFrom, offset: usize, count: u16, start: u16) -> u16
    requires near { offset < 2 ^ 32 }
    requires whole { offset + 16 * count ≤ length frame.now }
    ensures value { result ≡ crc start (bytes_at frame.now offset count) }

    // Where `start` is the check value of bytes before, the result is that of all of them.
    ensures joined { (first : ℕ) (before : List ℕ) → start ≡ crc first before
        → result ≡ crc first (before ++ bytes_at frame.now offset count) }
{
    let count = usize::from(count);
    let fours = count / 4;
    let mut check = start;
    for four in 0..fours {
        check = crc16(check, &frame.bytes_at(offset + 64 * four));
    }
    for index in 4 * fours..count {
        check = crc16(check, &[frame.byte_at(offset + 16 * index)]);
    }
    check
}

/// Appends four bytes.
fn push_four(buffer: &mut SectorBuffer, bytes: [u8; 4])
    requires { length buffer.old.items + 4 ≤ MOST_SECTOR_BYTES }
    ensures { buffer.new.items ≡ buffer.old.items ++ bytes }
{
    let [first, second, third, fourth] = bytes;
    buffer.push(first);
    buffer.push(second);
    buffer.push(third);
    buffer.push(fourth);
}
