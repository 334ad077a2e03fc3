//! A track of a written file.

ghost use Rattle.std.specs.Prelude.{◌≡◌, ◌≤◌, ◌+◌, ◌/◌, ◌++◌, length, replicate};
ghost use Rattle.arrayvec.specs.ArrayVec.{array_vec_len};
ghost use Rattle.byteorder.specs.Endian.{little_bytes};
ghost use Rattle.g64_image.specs.Layout.{bytes_of_cells, track_record as record_of};

use arrayvec::ArrayVec;
use byteorder::{ByteOrder, LittleEndian};
use cell_bits::Cells;

/// What a track is filled up with.
const PADDING: [u8; 7928] = [0xFF; 7928];

/// A track's length in two bytes, and its bytes.
pub(crate) type Record = ArrayVec<u8, 7930>;

/// The length of a ring in bytes, the bytes whose bits are its cells, and FF up to the greatest size.
pub(crate) fn track_record(ring: &Cells) -> Record
    requires { length ring.now.cells / 8 ≤ 7928 }
    ensures { result.items ≡ record_of ring.now.cells }
{
    let length = ring.len() / 8;
    let mut track = Record::new();
    put_length(&mut track, length as u16);
    put_cells(&mut track, ring);
    put_padding(&mut track, 7928 - length);
    track
}

/// Appends the number of bytes.
fn put_length(track: &mut Record, length: u16)
    requires { array_vec_len track.old + 2 ≤ 7930 }
    ensures items { track.new.items ≡ track.old.items ++ little_bytes 2 length }
    ensures len { array_vec_len track.new ≡ array_vec_len track.old + 2 }
{
    let mut field = [0; 2];
    LittleEndian::write_u16(&mut field, length);
    put(track, &field);
}

/// Appends so many bytes FF.
fn put_padding(track: &mut Record, count: usize)
    requires few { count ≤ 7928 }
    requires room { array_vec_len track.old + count ≤ 7930 }
    ensures { track.new.items ≡ track.old.items ++ replicate count 0xFF }
{
    put(track, &PADDING[..count]);
}

/// Appends bytes.
fn put(track: &mut Record, piece: &[u8])
    requires { array_vec_len track.old + length piece.now ≤ 7930 }
    ensures items { track.new.items ≡ track.old.items ++ piece.now }
    ensures len { array_vec_len track.new ≡ array_vec_len track.old + length piece.now }
{
    match track.try_extend_from_slice(piece) {
        Ok(()) => {}
        Err(_) => unreachable!(),
    }
}

/// Appends the bytes whose bits are the ring's cells, high bit first.
fn put_cells(track: &mut Record, ring: &Cells)
    requires { array_vec_len track.old + length ring.now.cells / 8 ≤ 7930 }
    ensures items { track.new.items ≡ track.old.items ++ bytes_of_cells ring.now.cells }
    ensures len { array_vec_len track.new ≡ array_vec_len track.old + length ring.now.cells / 8 }
{
    for index in 0..ring.len() / 8 {
        track.push(ring.word_at(8 * index, 8) as u8);
    }
}
