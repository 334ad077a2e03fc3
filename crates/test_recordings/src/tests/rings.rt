//! Rings, and what is read in them.
ghost use Rattle.flux_base.specs.declared.track.TrackId.{TrackId};

use super::frames::{Search, assert_found, push_part};
use cell_bits::Cells;
use flux_base::TrackId;
use frame_law::{Reading, Recording, SectorBuffer, next_reading};
use std::alloc::{AllocError, Global};
use std::process::Abort;
use std::test::Fail;

/// What a track has of its own.
#[derive(Clone, Copy)]
pub struct Numbers {
    /// The number of its first sector, how many it has, and of how many bytes.
    pub first: u8,
    pub sectors: u8,
    pub size: u16,
    /// The cells of its ring, where the first header begins, and how many lie between the beginnings of neighbouring
    /// headers.
    pub cells: u32,
    pub place: usize,
    pub step: usize,
}

/// A place, and so many cells from there on as a number, high bit first.
pub type Word = (usize, u8, u32);

/// Bytes as by chance: the high ones of numbers that follow from one another.
pub fn bytes_by_chance(alloc: Global, count: usize) -> Result<Vec<u8>, AllocError> {
    let mut bytes = Vec::new(alloc);
    let mut number = 1u32;
    for _ in 0..count {
        number = number.wrapping_mul(1_103_515_245).wrapping_add(12345);
        bytes.push((number >> 24) as u8)?;
    }
    Ok(bytes)
}

/// The ring of the track with these bytes.
pub fn ring_of<R: Recording>(
    rt: &impl Abort,
    alloc: Global,
    recording: &R,
    track: TrackId,
    bytes: &[u8],
) -> Result<Cells, Fail>
    requires { R.has_track recording.now track }
{
    let sectors = usize::from(recording.sectors(track));
    assert!(rt; bytes.len() == sectors * usize::from(recording.sector_size()));
    let mut ring = Cells::new(alloc);
    recording.ring(track, bytes, &mut ring)?;
    Ok(ring)
}

/// The ring of the track whose bytes are all this one.
pub fn filled_ring<R: Recording>(
    rt: &impl Abort,
    alloc: Global,
    recording: &R,
    track: TrackId,
    byte: u8,
) -> Result<Cells, Fail>
    requires { R.has_track recording.now track }
{
    let sectors = usize::from(recording.sectors(track));
    let bytes = vec![in alloc; byte; sectors * usize::from(recording.sector_size())]?;
    ring_of(rt, alloc, recording, track, &bytes)
}

/// The cells have the track's sectors where the numbers say, with these bytes, and no other.
pub fn assert_sectors<R: Recording>(
    rt: &impl Abort,
    recording: &R,
    track: TrackId,
    numbers: &Numbers,
    bytes: &[u8],
    cells: &Cells,
)
    requires { R.has_track recording.now track }
{
    let size = usize::from(numbers.size);
    let mut buffer = SectorBuffer::new();
    let mut from = 0;
    let mut place = numbers.place;
    for index in 0..numbers.sectors {
        let sector = numbers.first.wrapping_add(index);
        let found = next_reading(recording, cells, from, track, &mut buffer);
        assert_eq!(rt;
            found,
            Some((place, Reading::Good { sector })),
            "of {track:?}"
        );
        let at = usize::from(index) * size;
        assert!(rt;
            bytes.get(at..at + size) == Some(buffer.as_slice()),
            "sector {sector} of {track:?}"
        );
        from = place.wrapping_add(1);
        place = place.wrapping_add(numbers.step);
    }
    let last = next_reading(recording, cells, from, track, &mut buffer);
    assert_eq!(rt; (last, buffer.len()), (None, 0));
}

/// The ring of the track with these bytes, which has the track's numbers, and of which all sectors come back.
pub fn read_back<R: Recording>(
    rt: &impl Abort,
    alloc: Global,
    recording: &R,
    track: TrackId,
    numbers: &Numbers,
    bytes: &[u8],
) -> Result<Cells, Fail>
    requires { R.has_track recording.now track }
{
    let ring = ring_of(rt, alloc, recording, track, bytes)?;
    let own = (recording.sectors(track), recording.ring_cells(track));
    assert_eq!(rt; own, (numbers.sectors, numbers.cells));
    assert_eq!(rt; ring.len(), numbers.cells as usize);
    assert_sectors(rt, recording, track, numbers, bytes, &ring);
    Ok(ring)
}

/// The same with bytes as by chance.
pub fn read_back_by_chance<R: Recording>(
    rt: &impl Abort,
    alloc: Global,
    recording: &R,
    track: TrackId,
    numbers: &Numbers,
) -> Result<Cells, Fail>
    requires { R.has_track recording.now track }
{
    let count = usize::from(numbers.sectors) * usize::from(numbers.size);
    let bytes = bytes_by_chance(alloc, count)?;
    read_back(rt, alloc, recording, track, numbers, &bytes)
}

/// Each search in the two rings, one after the other, finds what it says.
pub fn assert_found_in_joined<R: Recording>(
    rt: &impl Abort,
    alloc: Global,
    recording: &R,
    track: TrackId,
    rings: [&Cells; 2],
    searches: &[Search],
) -> Result<(), Fail>
    requires { R.has_track recording.now track }
{
    let mut cells = Cells::new(alloc);
    for ring in rings {
        push_part(&mut cells, ring, 0, ring.len())?;
    }
    assert_found(rt, recording, track, &cells, searches);
    Ok(())
}

/// So many cells from the place on, 1 to 32, where there are as many.
fn word_at(cells: &Cells, place: usize, count: u8) -> Option<u32> {
    let end = place.checked_add(usize::from(count))?;
    if 1 <= count && count <= 32 && end <= cells.len() {
        Some(cells.word_at(place, count))
    } else {
        None
    }
}

/// The words stand in the cells.
pub fn assert_words(rt: &impl Abort, cells: &Cells, words: &[Word]) {
    for (place, count, want) in words {
        let word = word_at(cells, *place, *count);
        assert_eq!(rt; word, Some(*want), "the word at {place}");
    }
}

/// From the place on these bytes stand in the cells, each as the data cells of 16.
pub fn assert_data_bytes(rt: &impl Abort, cells: &Cells, place: usize, bytes: &[u8]) {
    let mut at = place;
    for byte in bytes {
        assert!(rt; at < cells.len() && 16 <= cells.len() - at);
        assert_eq!(rt; cells.data_byte_at(at), *byte, "the byte at {at}");
        at = at.wrapping_add(16);
    }
}
