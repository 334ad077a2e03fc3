//! Rings of tracks, and images that are written.
use apple_gcr::AppleGcr;
use cell_bits::Cells;
use commodore_gcr::{CommodoreDrive, CommodoreGcr};
use flux_base::{MemorySink, MemorySource, TrackId};
use flux_engine::{WriteFault, WriteRoom, track_ring, write_disk};
use frame_law::{Reading, Recording, SectorBuffer};
use sector_images::Format;
use std::alloc::Global;
use std::process::Abort;
use std::test::Fail;

const TRACK: TrackId = TrackId {
    cylinder: 0,
    head: 0,
};

// The third quarter kilobyte of an image in the order of DOS 3.3 is logical sector 2, which physical sector 11 holds.
#[test]
fn a_ring_has_its_sectors_bytes(rt: HostRuntime) -> Result<(), Fail> {
    let alloc = rt.alloc();
    let mut image = vec![in alloc; 0u8; 143360]?;
    for byte in &mut image[512..768] {
        *byte = 0x5A;
    }
    let mut ring = Cells::new(alloc);
    track_ring(Format::AppleDo, 0, &image, &mut ring)?;
    assert_eq!(rt; ring.len(), 49994);
    holds(&rt, &ring, 34474, 11, 0x5A);
    holds(&rt, &ring, 330, 0, 0);
    Ok(())
}

/// Reads a sector at a place of a ring, whose bytes all are this one.
fn holds(rt: &impl Abort, ring: &Cells, place: usize, number: u8, byte: u8) {
    let mut buffer = SectorBuffer::new();
    let read = AppleGcr::STRICT.read_at(ring, place, TRACK, &mut buffer);
    assert!(rt;
        matches!(read, Reading::Good { sector } if sector == number),
        "at {place}"
    );
    assert!(rt;
        buffer.as_slice().iter().all(|there| *there == byte),
        "at {place}"
    );
}

// The ids stand in track 18, sector 0.
#[test]
fn a_ring_has_the_ids_of_its_disk(rt: HostRuntime) -> Result<(), Fail> {
    let alloc = rt.alloc();
    let mut image = vec![in alloc; 0u8; 174848]?;
    image[91554] = 0x41;
    image[91555] = 0x42;
    let mut ring = Cells::new(alloc);
    track_ring(Format::C1541, 0, &image, &mut ring)?;
    let mut other = Cells::new(alloc);
    let disk = CommodoreGcr {
        drive: CommodoreDrive::C1541,
        id1: 0x41,
        id2: 0x42,
    };
    disk.ring(TRACK, &[0; 5376], &mut other)?;
    have_equal_cells(&rt, &ring, &other);
    Ok(())
}

fn have_equal_cells(rt: &impl Abort, ring: &Cells, other: &Cells) {
    assert_eq!(rt; ring.len(), other.len());
    for place in 0..ring.len() {
        if place < other.len() {
            assert_eq!(rt; ring.cell(place), other.cell(place), "at {place}");
        }
    }
}

/// An image of an Apple disk: of so many bytes, of whose reads some fail, into a sink with room for so many. Then the
/// answer, the bytes of the image that were not read, and those that were written.
struct Row {
    bytes: usize,
    failing: &'static [u64],
    room: usize,
    answer: WriteFault,
    rest: usize,
    written: usize,
}

/// One byte more than an image has is read.
const LONG: Row = Row {
    bytes: 143370,
    failing: &[],
    room: 0,
    answer: WriteFault::WrongSize {
        read: 143361,
        wanted: 143360,
    },
    rest: 9,
    written: 0,
};

const ROWS: &[Row] = &[
    LONG,
    Row {
        bytes: 143361,
        rest: 0,
        ..LONG
    },
    Row {
        bytes: 143359,
        answer: WriteFault::WrongSize {
            read: 143359,
            wanted: 143360,
        },
        rest: 0,
        ..LONG
    },
    Row {
        bytes: 0,
        answer: WriteFault::WrongSize {
            read: 0,
            wanted: 143360,
        },
        rest: 0,
        ..LONG
    },
    Row {
        bytes: 143361,
        failing: &[1],
        answer: WriteFault::ReadFault,
        rest: 43361,
        ..LONG
    },
    // The sink takes no more than the first track and some of the second.
    Row {
        bytes: 143360,
        room: 200_000,
        answer: WriteFault::ImageFault,
        rest: 0,
        written: 200_000,
        ..LONG
    },
];

fn stops(rt: &impl Abort, alloc: Global, row: &Row) -> Result<(), Fail> {
    let image = vec![in alloc; 0u8; row.bytes]?;
    let mut source = MemorySource::new(image, 100_000, row.failing.to_vec(alloc)?);
    let mut sink = MemorySink::new(alloc, row.room, Vec::new(alloc))?;
    let mut room = WriteRoom::reserve(alloc, Format::AppleDo)?;
    let answer = write_disk(&mut room, &mut source, &mut sink);
    stopped(rt, answer, &source, &sink, row);
    Ok(())
}

/// Compares what writing a disk came to. The sink is called only where there is room in it.
fn stopped(
    rt: &impl Abort,
    answer: Result<(), WriteFault>,
    source: &MemorySource,
    sink: &MemorySink,
    row: &Row,
) {
    let bytes = row.bytes;
    assert_eq!(rt; answer, Err(row.answer), "of {bytes} bytes");
    assert_eq!(rt;
        (source.rest().len(), sink.bytes().len(), sink.calls() == 0),
        (row.rest, row.written, row.room == 0),
        "of {bytes} bytes"
    );
}

#[test]
fn images_stop_where_they_are_not_whole_or_their_sink_fails(rt: HostRuntime) -> Result<(), Fail> {
    for row in ROWS {
        stops(&rt, rt.alloc(), row)?;
    }
    Ok(())
}
