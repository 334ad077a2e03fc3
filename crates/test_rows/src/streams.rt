//! The streams of tracks.
ghost use Rattle.std.specs.Prelude.{◌≡◌, ◌*◌, length};
ghost use Rattle.flux_base.specs.declared.track.TrackId.{TrackId};

use cell_bits::Cells;
use flux_base::{Memory, TrackId};
use frame_law::Recording;
use std::alloc::{AllocError, Global};

/// The shortest good stream: two transitions, with an Index block before and after them. No sector is in it.
pub const SHORT: [u8; 50] = [
    0x0D, 2, 12, 0, 0, 0, 0, 0, 0, 0, 0, 0, 0, 0, 0, 0, 0x60, 0x60, 0x0D, 2, 12, 0, 2, 0, 0, 0, 5,
    0, 0, 0, 24, 0, 0, 0, 0x0D, 3, 8, 0, 2, 0, 0, 0, 0, 0, 0, 0, 0x0D, 0x0D, 0x0D, 0x0D,
];

/// So many shortest streams.
pub fn short_streams(alloc: Global, count: usize) -> Result<Vec<u8>, AllocError> {
    let mut bytes = Vec::new(alloc);
    for _ in 0..count {
        bytes.extend_from_slice(&SHORT)?;
    }
    Ok(bytes)
}

/// Bytes of tracks in which each sector differs from the next one and from the same one of the next track.
pub fn content_of(alloc: Global, count: usize) -> Result<Vec<u8>, AllocError> {
    let mut bytes = Vec::new(alloc);
    for number in 0..count {
        bytes.push((number % 251) as u8)?;
    }
    Ok(bytes)
}

/// The ring of a track with these bytes of its sectors.
pub fn ring_of<R: Recording>(
    alloc: Global,
    recording: &R,
    track: TrackId,
    content: &[u8],
) -> Result<Cells, Memory>
    requires track { R.has_track recording.now track }
    requires content { length content.now ≡ R.sectors recording.now track * R.sector_size recording.now }
{
    let mut ring = Cells::new(alloc);
    match recording.ring(track, content, &mut ring) {
        Ok(()) => Ok(ring),
        Err(Memory) => Err(Memory),
    }
}

/// A stream that is being made.
#[derive(Drop)]
struct Capture {
    bytes: Vec<u8>,
    /// The ticks of a cell.
    ticks: u8,
    /// The bytes of blocks that are in the stream.
    position: u32,
    /// The cells after the last transition.
    distance: u8,
}

impl Capture {
    /// Appends an Index block, and then the ring's ones as flux blocks.
    fn turn(&mut self, ring: &Cells) -> Result<(), Memory> {
        self.index()?;
        for place in 0..ring.len() {
            self.distance = self.distance.saturating_add(1);
            if ring.cell(place) {
                self.flux()?;
                self.distance = 0;
            }
        }
        Ok(())
    }

    fn index(&mut self) -> Result<(), Memory> {
        self.bytes.extend_from_slice(&[0x0D, 2, 12, 0])?;
        self.bytes.extend_from_slice(&self.position.to_le_bytes())?;
        self.bytes.extend_from_slice(&[0; 8])?;
        Ok(())
    }

    /// A flux block of one byte, or of two from 256 ticks on.
    fn flux(&mut self) -> Result<(), Memory> {
        let ticks = u16::from(self.distance).saturating_mul(u16::from(self.ticks));
        let [high, low] = ticks.to_be_bytes();
        if high > 0 {
            self.bytes.push(high)?;
            self.position = self.position.saturating_add(1);
        }
        self.bytes.push(low)?;
        self.position = self.position.saturating_add(1);
        Ok(())
    }

    /// The whole stream.
    fn end(mut self) -> Result<Vec<u8>, Memory> {
        self.bytes.extend_from_slice(&[0x0D; 4])?;
        Ok(self.bytes)
    }
}

/// A stream of three turns, each over a ring of its own, whose cells have so many ticks.
pub fn three_rings(
    alloc: Global,
    ticks: u8,
    first: &Cells,
    second: &Cells,
    third: &Cells,
) -> Result<Vec<u8>, Memory> {
    let mut capture = Capture {
        bytes: Vec::new(alloc),
        ticks,
        position: 0,
        distance: 0,
    };
    capture.turn(first)?;
    capture.turn(second)?;
    capture.turn(third)?;
    capture.end()
}
