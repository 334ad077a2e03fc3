//! Tracks and disks that are decoded.
ghost use Rattle.std.specs.Prelude.{◌<◌, length};
ghost use Rattle.sector_images.specs.Places.{tracks};

use apple_gcr::AppleGcr;
use cell_bits::Cells;
use flux_base::{Memory, MemorySink, MemorySource, TrackId};
use flux_engine::DiskRoom;
use frame_law::Recording;
use ibm_fm::IbmFm;
use ibm_mfm::IbmMfm;
use library_calls::{EngineFault, decode_disk, decode_track};
use sector_images::Format;
use sector_report::Totals;
use std::alloc::Global;
use std::process::Abort;
use std::test::Fail;

pub const TRACK: TrackId = TrackId {
    cylinder: 0,
    head: 0,
};

/// What decoding comes to: totals, an image as runs of so many bytes of one value, and how the lines begin and end.
#[derive(Clone, Copy)]
pub struct Wanted {
    pub totals: Totals,
    pub image: &'static [(usize, u8)],
    pub first: &'static [u8],
    pub last: &'static [u8],
}

const NONE: Totals = Totals {
    sectors: 0,
    good: 0,
    bad: 0,
    missing: 0,
    contradictory: 0,
};

const IBM_3740: Wanted = Wanted {
    totals: Totals {
        sectors: 26,
        good: 26,
        ..NONE
    },
    image: &[(3328, 0xE5)],
    first: b"00.0 01 good 3 0 1 1264\n",
    last: b"00.0 26 good 3 0 1 76464\n",
};

/// A disk of which the first track alone has sectors.
const ONE_OF_77: Wanted = Wanted {
    totals: Totals {
        sectors: 2002,
        good: 26,
        missing: 1976,
        ..NONE
    },
    image: &[(3328, 0xE5), (252928, 0)],
    last: b"76.0 26 missing 0 0\ntotal 2002 good 26 bad 0 missing 1976 contradictory 0\n",
    ..IBM_3740
};

pub const IBM_1440: Wanted = Wanted {
    totals: Totals {
        sectors: 18,
        good: 18,
        ..NONE
    },
    image: &[(9216, 0xF6)],
    first: b"00.0 01 good 3 0 1 2528\n",
    last: b"00.0 18 good 3 0 1 188032\n",
};

/// A track whose sectors are filled with their numbers, in the order of DOS 3.3.
const APPLE_DO: Wanted = Wanted {
    totals: Totals {
        sectors: 16,
        good: 16,
        ..NONE
    },
    image: &[
        (256, 0),
        (256, 13),
        (256, 11),
        (256, 9),
        (256, 7),
        (256, 5),
        (256, 3),
        (256, 1),
        (256, 14),
        (256, 12),
        (256, 10),
        (256, 8),
        (256, 6),
        (256, 4),
        (256, 2),
        (256, 15),
    ],
    first: b"00.0 00 good 3 0 1 330\n00.0 01 good 3 0 1 3434\n",
    last: b"\n",
};

/// The same track in the order of ProDOS.
const APPLE_PO: Wanted = Wanted {
    image: &[
        (256, 0),
        (256, 2),
        (256, 4),
        (256, 6),
        (256, 8),
        (256, 10),
        (256, 12),
        (256, 14),
        (256, 1),
        (256, 3),
        (256, 5),
        (256, 7),
        (256, 9),
        (256, 11),
        (256, 13),
        (256, 15),
    ],
    ..APPLE_DO
};

/// A byte of padding, and a stream of one turn with two transitions that make no sector.
pub const PADDED_TURN: &[u8] =
    b"\x0D\x0D\x02\x0C\0\0\0\0\0\0\0\0\0\0\0\0\0\x60\x60\x0D\x02\x0C\0\x02\0\0\0\x05\0\0\0\x18\0\0\0\
    \x0D\x03\x08\0\x02\0\0\0\0\0\0\0\x0D\x0D\x0D\x0D";

/// Appends the bytes of an Index block with this stream position.
fn push_index(bytes: &mut Vec<u8>, position: u32) -> Result<(), Memory> {
    bytes.extend_from_slice(&[0x0D, 0x02, 0x0C, 0x00])?;
    bytes.extend_from_slice(&position.to_le_bytes())?;
    bytes.extend_from_slice(&[0; 8])?;
    Ok(())
}

/// Appends the ring's ones as blocks of two bytes, with so many ticks a cell, and gives the number of bytes.
fn push_ring(bytes: &mut Vec<u8>, ring: &Cells, ticks: u16) -> Result<u32, Memory> {
    let mut count = 0u32;
    let mut interval = 0u16;
    for place in 0..ring.len() {
        interval = interval.saturating_add(ticks);
        if ring.cell(place) {
            bytes.extend_from_slice(&interval.to_be_bytes())?;
            count = count.saturating_add(2);
            interval = 0;
        }
    }
    Ok(count)
}

/// A stream that turns three times over a ring with cells of so many ticks.
pub fn three_turns(alloc: Global, ring: &Cells, ticks: u16) -> Result<Vec<u8>, Memory> {
    let mut bytes = Vec::new(alloc);
    let mut position = 0u32;
    for _ in 0..3 {
        push_index(&mut bytes, position)?;
        position = position.saturating_add(push_ring(&mut bytes, ring, ticks)?);
    }
    bytes.extend_from_slice(&[0x0D; 4])?;
    Ok(bytes)
}

/// What decoding a track or a disk came to.
#[derive(Drop)]
pub struct Decoded {
    totals: Result<Totals, EngineFault>,
    image: MemorySink,
    notes: MemorySink,
}

/// Decodes the first track of a disk.
pub fn decode_first(alloc: Global, format: Format, bytes: Vec<u8>) -> Result<Decoded, Fail>
    requires { 0 < length (tracks format) }
{
    let mut source = MemorySource::new(bytes, 4096, Vec::new(alloc));
    let mut image = MemorySink::new(alloc, 10_000, Vec::new(alloc))?;
    let mut notes = MemorySink::new(alloc, 4096, Vec::new(alloc))?;
    let mut room = DiskRoom::reserve(alloc, format)?;
    let totals = decode_track(&mut room, 0, &mut source, &mut image, &mut notes);
    Ok(Decoded {
        totals,
        image,
        notes,
    })
}

fn decode_all(alloc: Global, format: Format, bytes: Vec<u8>) -> Result<Decoded, Fail> {
    let mut source = MemorySource::new(bytes, 4096, Vec::new(alloc));
    let mut image = MemorySink::new(alloc, 300_000, Vec::new(alloc))?;
    let mut notes = MemorySink::new(alloc, 100_000, Vec::new(alloc))?;
    let mut room = DiskRoom::reserve(alloc, format)?;
    let totals = decode_disk(&mut room, &mut source, &mut image, &mut notes);
    Ok(Decoded {
        totals,
        image,
        notes,
    })
}

/// Whether the bytes are these runs, one after another.
fn are_runs(bytes: &[u8], runs: &[(usize, u8)]) -> bool {
    let mut rest = bytes;
    for (count, byte) in runs {
        let Some((run, behind)) = rest.split_at_checked(*count) else {
            return false;
        };
        if run.iter().any(|there| *there != *byte) {
            return false;
        }
        rest = behind;
    }
    rest.is_empty()
}

impl Decoded {
    pub fn is(&self, rt: &impl Abort, wanted: &Wanted) {
        assert_eq!(rt; self.totals, Ok(wanted.totals));
        assert!(rt; are_runs(self.image.bytes(), wanted.image));
        assert!(rt; self.notes.bytes().starts_with(wanted.first));
        assert!(rt; self.notes.bytes().ends_with(wanted.last));
    }
}

/// Decodes three turns of a track's ring with cells of so many ticks.
fn comes_to(
    rt: &impl Abort,
    alloc: Global,
    format: Format,
    ring: &Cells,
    ticks: u16,
    wanted: &Wanted,
) -> Result<(), Fail>
    requires { 0 < length (tracks format) }
{
    decode_first(alloc, format, three_turns(alloc, ring, ticks)?)?.is(rt, wanted);
    Ok(())
}

#[test]
fn tracks_come_to_their_images_and_lines(rt: HostRuntime) -> Result<(), Fail> {
    let alloc = rt.alloc();
    let mut content = [0u8; 4096];
    for place in 0..4096usize {
        content[place] = (place / 256) as u8;
    }
    let mut ring = Cells::new(alloc);
    IbmFm::IBM_3740.ring(TRACK, &[0xE5; 3328], &mut ring)?;
    comes_to(&rt, alloc, Format::Ibm3740, &ring, 48, &IBM_3740)?;
    IbmMfm::PC_18.ring(TRACK, &[0xF6; 9216], &mut ring)?;
    comes_to(&rt, alloc, Format::Ibm1440, &ring, 24, &IBM_1440)?;
    AppleGcr::STRICT.ring(TRACK, &content, &mut ring)?;
    comes_to(&rt, alloc, Format::AppleDo, &ring, 96, &APPLE_DO)?;
    comes_to(&rt, alloc, Format::ApplePo, &ring, 96, &APPLE_PO)
}

#[test]
fn a_disk_comes_to_all_its_tracks(rt: HostRuntime) -> Result<(), Fail> {
    let alloc = rt.alloc();
    let mut ring = Cells::new(alloc);
    IbmFm::IBM_3740.ring(TRACK, &[0xE5; 3328], &mut ring)?;
    let mut bytes = three_turns(alloc, &ring, 48)?;
    for _ in 1..77 {
        bytes.extend_from_slice(PADDED_TURN)?;
    }
    decode_all(alloc, Format::Ibm3740, bytes)?.is(&rt, &ONE_OF_77);
    Ok(())
}
