ghost use Rattle.std.specs.Prelude.{◌≡◌, ℕ, ◌<◌, ◌≤◌, get_or, length, IfNone, IfSome};
ghost use Rattle.apple_gcr.specs.DiskBytes.{byte_read, zeros_passed};
ghost use Rattle.apple_gcr.specs.Sectors.{IsAddressOf, Names, header_end};
ghost use Rattle.flux_base.specs.declared.header_name.HeaderName.{HeaderName};

use crate::disk_bytes::{ByteRule, byte_place, bytes_end};
use crate::four_and_four::byte_of;
use crate::layout::{ADDRESS_BYTES, ADDRESS_PLACE};
use apple_nibbles::{BYTE_CELLS, disk_byte_at};
use arrayvec::ArrayVec;
use check_values::xor_bytes;
use flux_base::HeaderName;
use frame_law::CellsFrom;

/// The bytes of a header after its mark.
type Address = ArrayVec<u8, 8>;

/// Where the header at the front of the cells ends. None where it is not whole.
pub(crate) fn header_end(rule: ByteRule, frame: &CellsFrom) -> Option<usize>
    ensures some { IfSome result (λ end. (end ≡ header_end (zeros_passed rule) frame.now) × (end ≤ length frame.now)) }
    ensures none { IfNone result (length frame.now < header_end (zeros_passed rule) frame.now) }
{
    bytes_end(rule, frame, ADDRESS_PLACE, ADDRESS_BYTES)
}

/// What the header at the front of the cells, which is whole, names. None where it is none, or its check value is
/// another.
pub(crate) fn header_name(rule: ByteRule, frame: &CellsFrom) -> Option<HeaderName>
    requires { header_end (zeros_passed rule) frame.now ≤ length frame.now }
    ensures named { IfSome result (λ name. Names (zeros_passed rule) frame.now name) }
    ensures none { IfNone result ((name : HeaderName) → ¬ Names (zeros_passed rule) frame.now name) }
{
    let address = address_bytes(rule, frame);
    name_of(&address)
}

/// The bytes that are read after the header's mark.
fn address_bytes(rule: ByteRule, frame: &CellsFrom) -> Address
    requires { header_end (zeros_passed rule) frame.now ≤ length frame.now }
    ensures size { length result.items ≡ 8 }
    ensures read { (k : ℕ) → k < 8 → get_or result.items k 0 ≡ byte_read (zeros_passed rule) frame.now 24 k }
{
    let mut address = Address::new();
    let mut place = ADDRESS_PLACE;
    for _ in 0..ADDRESS_BYTES {
        let begin = byte_place(rule, frame, place);
        address.push(disk_byte_at(frame, begin));
        place = begin + BYTE_CELLS;
    }
    address
}

/// The name whose address the eight bytes are.
fn name_of(address: &[u8]) -> Option<HeaderName>
    requires { length address.now ≡ 8 }
    ensures named { IfSome result (λ name. IsAddressOf (λ k. get_or address.now k 0) name) }
    ensures none { IfNone result ((name : HeaderName) → ¬ IsAddressOf (λ k. get_or address.now k 0) name) }
{
    let volume = byte_of(address[0], address[1])?;
    let track = byte_of(address[2], address[3])?;
    let sector = byte_of(address[4], address[5])?;
    let check = byte_of(address[6], address[7])?;
    if check != xor_bytes(&[volume, track, sector]) {
        return None;
    }
    Some(HeaderName::TrackSector { track, sector })
}
