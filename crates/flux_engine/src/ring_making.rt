//! The ring of a track, with the bytes of an image in its sectors.

ghost use Rattle.std.specs.Prelude.{◌≡◌, ◌*◌, ◌≤◌, ◌<◌, [], length, OnOk, OnErr, IsOk, Some};
ghost use Rattle.disk_recordings.specs.Agreement.{IsIdPlace};
ghost use Rattle.cell_bits.specs.State.{room};
ghost use Rattle.track_rings.specs.Rings.{AreSectors};
ghost use Rattle.sector_images.specs.Formats.{row};
ghost use Rattle.sector_images.specs.Places.{IsTrack, tracks};
ghost use Rattle.flux_engine.specs.Recordings.{sectors_of as sectors_in};
ghost use Rattle.flux_engine.specs.Rings.{IsRing, disk_id, id_at, ring_cells_of, ring_of, track_bytes};

use arrayvec::ArrayVec;
use cell_bits::Cells;
use disk_recordings::{DiskId, IdPlace, id_place, recording_of, sectors_of, tracks_have_rings};
use flux_base::{MOST_TRACK_BYTES, Memory, TrackId};
use frame_law::Recording;
use sector_images::{Format, image_place, track_id, tracks_keep_bounds};

/// The bytes of a track's sectors, in the order of the sectors' numbers.
type TrackBytes = ArrayVec<u8, MOST_TRACK_BYTES>;

/// Makes `cells` the ring of a track of the format, with the bytes of an image in its sectors. The track has
/// a number from 0 in the format's order. A disk of one of Commodore's drives gets the id that its image has:
/// a 1541's or 1571's in sector 0 of track 18 at the bytes A2 and A3, an 8050's or 8250's in sector 0 of track 39
/// at the bytes 18 and 19. After `Memory` the cells are empty.
pub fn track_ring(
    format: Format,
    number: u32,
    image: &[u8],
    cells: &mut Cells,
) -> Result<(), Memory>
    requires track { number < length (tracks format) }
    requires image { length image.now ≡ (row format).image_size }
    ensures ok { OnOk result (cells.new.cells ≡ ring_of format image.now number) }

    // The ring has the format's cells, and its ones are one to four cells apart.
    ensures ring { OnOk result (IsRing (ring_cells_of format number) cells.new.cells) }
    ensures err { OnErr result (cells.new.cells ≡ []) }

    // Memory cannot come where there was room for the ring.
    ensures succeeds { ring_cells_of format number ≤ room cells.old → IsOk result }
    ensures room { room cells.old ≤ room cells.new }
{
    let track = track_id(format, number);
    let bytes = sector_bytes(format, track, image);
    tracks_have_rings();
    recording_of(format, id_of(format, image)).ring(track, &bytes, cells)
}

/// The bytes of all sectors of a track.
fn sector_bytes(format: Format, track: TrackId, image: &[u8]) -> TrackBytes
    requires track { IsTrack format track }
    requires image { length image.now ≡ (row format).image_size }
    ensures bytes { result.items ≡ track_bytes format track image.now }
    ensures sectors { AreSectors (sectors_in format track).count (sectors_in format track).size result.items }
{
    tracks_keep_bounds();
    let sectors = sectors_of(format, track);
    let mut bytes = TrackBytes::new();
    for index in 0..sectors.count {
        let place = image_place(format, track, sectors.first + index) as usize;
        match bytes.try_extend_from_slice(&image[place..place + usize::from(sectors.size)]) {
            Ok(()) => {}
            // No track has more bytes.
            Err(_) => unreachable!(),
        }
    }
    bytes
}

/// The id that the image has, where disks of the format have one.
fn id_of(format: Format, image: &[u8]) -> DiskId
    requires image { length image.now ≡ (row format).image_size }
    ensures { result ≡ disk_id format image.now }
{
    match id_place(format) {
        Some(place) => id_at(format, image, place),
        None => DiskId::ANY,
    }
}

/// The id that the image has at this place.
fn id_at(format: Format, image: &[u8], place: IdPlace) -> DiskId
    requires image { length image.now ≡ (row format).image_size }
    requires place { IsIdPlace format place }
    ensures { result ≡ id_at (Some place) format image.now }
{
    tracks_keep_bounds();
    let directory = image_place(format, place.track, 0);
    let first = directory as usize + usize::from(place.byte);
    DiskId {
        first: image[first],
        second: image[first + 1],
    }
}
