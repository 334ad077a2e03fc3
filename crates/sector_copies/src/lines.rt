//! The lines that show the contents of a sector.

ghost use Rattle.std.specs.Prelude.{◌≡◌, ◌+◌, ◌*◌, ◌<◌, ◌≤◌, ◌++◌, ◌∷◌, drop, flat_map, length, map, take};
ghost use Rattle.arrayvec.specs.ArrayVec.{array_vec_len};
ghost use Rattle.sector_copies.specs.Texts.{digit, head_text, mark, offset_text, row_bytes, row_text, shown, two_hex};
ghost use Rattle.std.specs.Str.{bytes_eq};

use arrayvec::ArrayVec;
use sector_report::{Line, Naming, put, put_named, put_place, put_u64};
use turn_merge::Place;

/// How many bytes a row shows.
const ROW_BYTES: usize = 16;

/// A row of bytes as it is printed, with its line feed.
pub(crate) type Row = ArrayVec<u8, 80>;

/// Where the sector's bytes stand in the image, and how many they are.
#[tactic(auto, unfolding(crate::specs::Texts::offset_text))]
pub(crate) fn offset_line(place: u32, size: u16) -> Line
    ensures { result.bytes ≡ offset_text place size }
{
    let mut line = Line::new();
    put_named(&mut line, "image offset ", place);
    put_named(&mut line, " bytes ", u32::from(size));
    put(&mut line, "\n");
    line
}

/// The number of a content from 0, how many good readings hold it, and where the first of them stands: the dump, the
/// clock, the revolution and the cell.
#[tactic(auto, unfolding(crate::specs::Texts::head_text))]
pub(crate) fn head_line(number: usize, readings: u64, first: Place) -> Line
    ensures { result.bytes ≡ head_text number readings first }
{
    let mut line = Line::new();
    put(&mut line, "copy ");
    put_u64(&mut line, number as u64);
    put(&mut line, " readings ");
    put_u64(&mut line, readings);
    put_place(&mut line, Naming::ByCaptureAndClock, first);
    put(&mut line, "\n");
    line
}

/// A row of a content by its number from 0: the offset, the bytes in hexadecimal and as characters. Before it stands
/// `>` where the bytes are not those of the first content.
#[tactic(auto, unfolding(crate::specs::Texts::row_text))]
pub(crate) fn row_line(first: &[u8], bytes: &[u8], number: usize) -> Row
    requires { number ≤ 64 }
    ensures { result.items ≡ row_text first.now bytes.now number }
{
    let here = row_bytes(bytes, number);
    let mut row = Row::new();
    put_mark(&mut row, is_same(row_bytes(first, number), here));
    put_hex(&mut row, (ROW_BYTES * number / 256) as u8);
    put_hex(&mut row, (ROW_BYTES * number % 256) as u8);
    row.push(b' ');
    put_bytes(&mut row, here);
    row.push(b' ');
    row.push(b' ');
    put_shown(&mut row, here);
    row.push(b'\n');
    row
}

/// The bytes of a row.
fn row_bytes(bytes: &[u8], number: usize) -> &[u8]
    requires { number ≤ 64 }
    ensures bytes { result.now ≡ row_bytes bytes.now number }
    ensures few { length result.now ≤ 16 }
{
    at_most_row(behind(bytes, ROW_BYTES * number))
}

/// The bytes from an offset on.
#[tactic(auto, using(crate::proofs::RowBytes::none_behind))]
fn behind(bytes: &[u8], offset: usize) -> &[u8]
    ensures { result.now ≡ drop offset bytes.now }
{
    if offset < bytes.len() {
        &bytes[offset..]
    } else {
        &[]
    }
}

/// The first bytes, as many as a row shows.
#[tactic(auto, using(crate::proofs::RowBytes::all_in_row))]
fn at_most_row(bytes: &[u8]) -> &[u8]
    ensures bytes { result.now ≡ take 16 bytes.now }
    ensures few { length result.now ≤ 16 }
{
    if bytes.len() > ROW_BYTES {
        &bytes[..ROW_BYTES]
    } else {
        bytes
    }
}

/// Whether two rows have the same bytes.
fn is_same(first: &[u8], bytes: &[u8]) -> bool
    ensures { result ≡ bytes_eq first.now bytes.now }
{
    first == bytes
}

/// Appends what stands before a row.
fn put_mark(row: &mut Row, same: bool)
    requires { array_vec_len row.old + 2 ≤ 80 }
    ensures items { row.new.items ≡ row.old.items ++ mark same }
    ensures len { array_vec_len row.new ≡ array_vec_len row.old + 2 }
{
    row.push(if same { b' ' } else { b'>' });
    row.push(b' ');
}

/// Appends a byte in two digits.
fn put_hex(row: &mut Row, byte: u8)
    requires { array_vec_len row.old + 2 ≤ 80 }
    ensures items { row.new.items ≡ row.old.items ++ two_hex byte }
    ensures len { array_vec_len row.new ≡ array_vec_len row.old + 2 }
{
    row.push(digit(byte / 16));
    row.push(digit(byte % 16));
}

/// The digit of a number below 16.
fn digit(number: u8) -> u8
    requires { number < 16 }
    ensures { result ≡ digit number }
{
    if number < 10 {
        number + b'0'
    } else {
        number + (b'a' - 10)
    }
}

/// Appends the bytes of a row, each with a blank before it.
fn put_bytes(row: &mut Row, bytes: &[u8])
    requires few { length bytes.now ≤ 16 }
    requires room { array_vec_len row.old + 48 ≤ 80 }
    ensures items { row.new.items ≡ row.old.items ++ flat_map (λ byte. 32 ∷ two_hex byte) bytes.now }
    ensures len { array_vec_len row.new ≤ array_vec_len row.old + 48 }
{
    for byte in bytes {
        row.push(b' ');
        put_hex(row, *byte);
    }
}

/// Appends the bytes of a row as characters.
fn put_shown(row: &mut Row, bytes: &[u8])
    requires few { length bytes.now ≤ 16 }
    requires room { array_vec_len row.old + 16 ≤ 80 }
    ensures items { row.new.items ≡ row.old.items ++ map shown bytes.now }
    ensures len { array_vec_len row.new ≤ array_vec_len row.old + 16 }
{
    for byte in bytes {
        row.push(shown(*byte));
    }
}

/// The character that a byte is, or a dot where that is none that can be seen.
fn shown(byte: u8) -> u8
    ensures { result ≡ shown byte }
{
    if byte < b' ' {
        b'.'
    } else if byte < 127 {
        byte
    } else {
        b'.'
    }
}
