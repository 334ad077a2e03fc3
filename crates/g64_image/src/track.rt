//! One walk over the cells of a track that is kept as a ring.

ghost use Rattle.std.specs.Prelude.{◌≡◌, ◌≤◌, ◌+◌, ◌*◌, ◌++◌, length, OnOk, IsOk};
ghost use Rattle.cell_bits.specs.State.{room};
ghost use Rattle.flux_engine.specs.Gathering.{IsEmptyBook};
ghost use Rattle.sector_images.specs.Places.{IsTrack};
ghost use Rattle.g64_image.specs.Gathering.{GathersTo, HasRingReadings};
ghost use Rattle.g64_image.specs.Layout.{cells_of_bytes};
ghost use Rattle.g64_image.specs.Room.{IsRoomy};

use crate::room::Tools;
use cell_bits::Cells;
use disk_recordings::{DiskId, recording_of};
use flux_base::{Memory, TrackId};
use flux_engine::note_reading;
use frame_law::{Recording, SectorBuffer, next_reading};
use sector_images::Format;
use turn_merge::{Book, Clock, Place};

/// Notes all readings of a track in the book: those of a ring of the cells that are the bits of these bytes. The first
/// cells follow the last once more, so that a sector is read whole that lies across the seam.
pub(crate) fn read_ring(format: Format, track: TrackId, bytes: &[u8], tools: &mut Tools)
    requires track { IsTrack format track }
    requires few { length bytes.now ≤ 65535 }
    requires roomy { IsRoomy format tools.old.cells tools.old.book }
    ensures gathered { HasRingReadings format track (cells_of_bytes bytes.now) tools.new.book }
    ensures roomy { IsRoomy format tools.new.cells tools.new.book }
{
    tools.cells.clear();
    push_bytes(&mut tools.cells, bytes);
    let end = tools.cells.len();
    push_bytes(&mut tools.cells, bytes);
    let recording = recording_of(format, DiskId::ANY);
    tools.book.clear(recording.sectors(track));
    gather(&recording, track, &tools.cells, end, &mut tools.book);
}

/// Appends the cells that are the bits of the bytes, high bit first.
fn push_bytes(cells: &mut Cells, bytes: &[u8])
    requires { 8 * length bytes.now ≤ cells.old.spare }
    ensures cells { cells.new.cells ≡ cells.old.cells ++ cells_of_bytes bytes.now }
    ensures len { length cells.new.cells ≡ length cells.old.cells + 8 * length bytes.now }
    ensures room { room cells.old ≤ room cells.new }
{
    for index in 0..bytes.len() {
        match cells.push_word(u32::from(bytes[index]), 8) {
            Ok(()) => {}
            // There is room for them.
            Err(Memory) => unreachable!(),
        }
    }
}

/// Notes all readings at places below the end, in a book that has none yet.
fn gather<R: Recording>(recording: &R, track: TrackId, cells: &Cells, end: usize, book: &mut Book)
    requires track { R.has_track recording.now track }
    requires few { end ≤ 1048560 }
    requires book { IsEmptyBook
        (record { first = R.first_sector recording.now; count = R.sectors recording.now track; size = R.sector_size recording.now })
        book.old }
    ensures { GathersTo (R.header_at recording.now track) (R.sector_at recording.now track) cells.now.cells end book.old
        book.new }
{
    let mut buffer = SectorBuffer::new();
    let mut from = 0;
    while let Some((cell, reading)) = next_reading(recording, cells, from, track, &mut buffer) {
        if cell >= end {
            return;
        }
        let place = Place {
            capture: 0,
            clock: Clock::Following,
            turn: 0,
            cell: cell as u64,
        };
        note_reading(book, reading, place, buffer.as_slice());
        from = cell + 1;
    }
}
