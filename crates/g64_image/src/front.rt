//! What stands before the tracks of a written file.

ghost use Rattle.std.specs.Prelude.{◌≡◌, ◌≤◌, ◌+◌, ◌++◌, length};
ghost use Rattle.arrayvec.specs.ArrayVec.{array_vec_len};
ghost use Rattle.byteorder.specs.Endian.{little_bytes};
ghost use Rattle.g64_image.specs.Layout.{front as front_of, is_track as is_track_of, offset_entry as offset_in};
ghost use Rattle.g64_image.specs.Layout.{speed_entry as speed_in, speed_of as speed_at, table};
ghost use Rattle.g64_image.specs.Layout.{written_place as place_of_track};

use arrayvec::ArrayVec;
use byteorder::{ByteOrder, LittleEndian};
use sector_images::{Format, track_count};

/// The bytes with which each file begins.
pub(crate) const SIGNATURE: &[u8; 8] = b"GCR-1541";

/// The half tracks of a written file, and the most of any.
pub(crate) const HALF_TRACKS: u8 = 84;

/// The signature, the version 0, 84 half tracks, and 7928 as the greatest size of a track.
const HEADER: &[u8; 12] = b"GCR-1541\x00\x54\xF8\x1E";

/// The header's 12 bytes and two tables of 84 entries.
pub(crate) type Front = ArrayVec<u8, 684>;

/// What stands before the tracks of a written file.
pub(crate) fn front(format: Format) -> Front
    ensures { result.items ≡ front_of format }
{
    let mut bytes = Front::new();
    put(&mut bytes, HEADER);
    put_offsets(format, &mut bytes);
    put_speeds(format, &mut bytes);
    bytes
}

/// Appends bytes.
fn put(bytes: &mut Front, piece: &[u8])
    requires { array_vec_len bytes.old + length piece.now ≤ 684 }
    ensures items { bytes.new.items ≡ bytes.old.items ++ piece.now }
    ensures len { array_vec_len bytes.new ≡ array_vec_len bytes.old + length piece.now }
{
    match bytes.try_extend_from_slice(piece) {
        Ok(()) => {}
        Err(_) => unreachable!(),
    }
}

/// Appends an entry of a table.
fn put_entry(bytes: &mut Front, entry: u32)
    requires { array_vec_len bytes.old + 4 ≤ 684 }
    ensures items { bytes.new.items ≡ bytes.old.items ++ little_bytes 4 entry }
    ensures len { array_vec_len bytes.new ≡ array_vec_len bytes.old + 4 }
{
    let mut field = [0; 4];
    LittleEndian::write_u32(&mut field, entry);
    put(bytes, &field);
}

/// Appends the table of offsets.
fn put_offsets(format: Format, bytes: &mut Front)
    requires { array_vec_len bytes.old ≡ 12 }
    ensures items { bytes.new.items ≡ bytes.old.items ++ table (offset_in format) }
    ensures len { array_vec_len bytes.new ≡ 348 }
{
    for half in 0..HALF_TRACKS {
        let entry = offset_entry(format, half);
        put_entry(bytes, entry);
    }
}

/// Appends the table of speeds.
fn put_speeds(format: Format, bytes: &mut Front)
    requires { array_vec_len bytes.old ≡ 348 }
    ensures items { bytes.new.items ≡ bytes.old.items ++ table (speed_in format) }
{
    for half in 0..HALF_TRACKS {
        let entry = speed_entry(format, half);
        put_entry(bytes, entry);
    }
}

/// Where the file has a half track, and 0 where it has none.
fn offset_entry(format: Format, half: u8) -> u32
    ensures { result ≡ offset_in format half }
{
    if is_track(format, half) {
        written_place(half / 2)
    } else {
        0
    }
}

/// The speed of a half track, and 0 where it is none of the format's tracks.
fn speed_entry(format: Format, half: u8) -> u32
    ensures { result ≡ speed_in format half }
{
    if is_track(format, half) {
        speed_of(half / 2)
    } else {
        0
    }
}

/// Whether a half track is one of the format's tracks.
fn is_track(format: Format, half: u8) -> bool
    ensures { result ≡ is_track_of format half }
{
    half.is_multiple_of(2) && u32::from(half / 2) < track_count(format)
}

/// Where a written file has a track, from 0.
fn written_place(track: u8) -> u32
    ensures { result ≡ place_of_track track }
{
    684 + 7930 * u32::from(track)
}

/// The speed of a track, from 0.
fn speed_of(track: u8) -> u32
    ensures { result ≡ speed_at track }
{
    match track {
        0..=16 => 3,
        17..=23 => 2,
        24..=29 => 1,
        _ => 0,
    }
}
