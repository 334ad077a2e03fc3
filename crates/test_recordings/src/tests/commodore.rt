//! The Commodore 1541's and 1571's disks.
use super::frames::{
    HandMade, Other, Row, Search, assert_found, assert_found_in_cut, assert_others, assert_read,
    push_cells, push_gap,
};
use super::rings::{
    Numbers, Word, assert_found_in_joined, assert_words, filled_ring, read_back_by_chance,
};
use cell_bits::Cells;
use commodore_gcr::{CommodoreDrive, CommodoreGcr};
use flux_base::{HeaderName, Memory, TrackId};
use frame_law::Reading;
use std::test::Fail;

/// Track 18, on which sectors 0 to 18 stand.
const TRACK: TrackId = TrackId {
    cylinder: 17,
    head: 0,
};

const DISK: CommodoreGcr = CommodoreGcr {
    drive: CommodoreDrive::C1541,
    id1: 0x41,
    id2: 0x42,
};

/// The code of each nibble, five cells.
const CODES: [u8; 16] = [
    0b01010, 0b01011, 0b10010, 0b10011, 0b01110, 0b01111, 0b10110, 0b10111, 0b01001, 0b11001,
    0b11010, 0b11011, 0b01101, 0b11101, 0b11110, 0b10101,
];

/// Five zeros are no code, whatever the other code is.
const NO_BYTE: u32 = 0b00000_01010;

/// A byte that has cells which are no code in the place of its own.
#[derive(Clone, Copy, PartialEq, Eq)]
enum Broken {
    Nothing,
    Id,
    Content,
    Check,
}

/// A header and data, made by hand.
#[derive(Clone, Copy)]
struct Frame {
    /// The ones before the header's bytes, and these.
    ones: u16,
    header: [u8; 6],
    /// So many cells stand between the header and the data's ten ones, half of them before so many zeros and
    /// before another block's sync and first byte. Codes never have three zeros in a row, so a frame is broken
    /// in this gap alone.
    gap: u16,
    zeros: u16,
    other: Option<u8>,
    /// The data's first byte, 255 bytes FF, the last byte, and their check value.
    first: u8,
    last: u8,
    check: u8,
    broken: Broken,
}

/// Sector 0 of track 18, with the id 41 42, so with the check value 00 ^ 12 ^ 42 ^ 41 = 11.
const PLAIN: Frame = Frame {
    ones: 10,
    header: [0x08, 0x11, 0x00, 0x12, 0x42, 0x41],
    gap: 122,
    zeros: 0,
    other: None,
    first: 0x07,
    last: 0x5E,
    check: 0xA1,
    broken: Broken::Nothing,
};

/// Sector 18, with the check value 12 ^ 12 ^ 42 ^ 41 = 03.
const LAST_SECTOR: Frame = Frame {
    header: [0x08, 0x03, 0x12, 0x12, 0x42, 0x41],
    ..PLAIN
};

/// The ten cells of a byte, its high nibble first.
fn coded(byte: u8) -> u32 {
    let high = u32::from(CODES[usize::from(byte / 16)]);
    let low = u32::from(CODES[usize::from(byte % 16)]);
    high * 32 + low
}

fn push_byte(cells: &mut Cells, byte: u8, broken: bool) -> Result<(), Memory> {
    cells.push_word(if broken { NO_BYTE } else { coded(byte) }, 10)
}

fn push_header(cells: &mut Cells, frame: &Frame) -> Result<(), Memory> {
    push_cells(cells, frame.ones, true)?;
    let [first, check, sector, track, id2, id1] = frame.header;
    for byte in [first, check, sector, track] {
        push_byte(cells, byte, false)?;
    }
    push_byte(cells, id2, frame.broken == Broken::Id)?;
    push_byte(cells, id1, false)
}

fn push_data(cells: &mut Cells, frame: &Frame) -> Result<(), Memory> {
    push_cells(cells, 10, true)?;
    push_byte(cells, frame.first, false)?;
    for _ in 0..255u8 {
        push_byte(cells, 0xFF, false)?;
    }
    push_byte(cells, frame.last, frame.broken == Broken::Content)?;
    push_byte(cells, frame.check, frame.broken == Broken::Check)
}

fn push_other(cells: &mut Cells, other: Option<u8>) -> Result<(), Memory> {
    match other {
        Some(byte) => {
            push_cells(cells, 10, true)?;
            push_byte(cells, byte, false)
        }
        None => Ok(()),
    }
}

impl HandMade for Frame {
    fn push(&self, cells: &mut Cells) -> Result<(), Memory> {
        push_header(cells, self)?;
        push_gap(cells, self.gap / 2)?;
        push_cells(cells, self.zeros, false)?;
        push_other(cells, self.other)?;
        push_gap(cells, self.gap - self.gap / 2)?;
        push_data(cells, self)
    }
}

const GOOD: Reading = Reading::Good { sector: 0 };

const BAD: Reading = Reading::Bad { sector: 0 };

const HEADERS: &[Row<Frame>] = &[
    (
        "another id",
        Frame {
            header: [0x08, 0x12, 0x00, 0x12, 0x00, 0x00],
            ..PLAIN
        },
        GOOD,
    ),
    (
        "another first byte",
        Frame {
            header: [0x07, 0x11, 0x00, 0x12, 0x42, 0x41],
            ..PLAIN
        },
        Reading::Nothing,
    ),
    (
        "a check value without the id",
        Frame {
            header: [0x08, 0x12, 0x00, 0x12, 0x42, 0x41],
            ..PLAIN
        },
        Reading::Nothing,
    ),
    (
        "a check value with the first byte",
        Frame {
            header: [0x08, 0x19, 0x00, 0x12, 0x42, 0x41],
            ..PLAIN
        },
        Reading::Nothing,
    ),
    (
        "the cylinder in the place of the track's number",
        Frame {
            header: [0x08, 0x12, 0x00, 0x11, 0x42, 0x41],
            ..PLAIN
        },
        Reading::Nothing,
    ),
    (
        "the track's last sector",
        LAST_SECTOR,
        Reading::Good { sector: 18 },
    ),
    (
        "a sector that the zone does not have",
        Frame {
            header: [0x08, 0x02, 0x13, 0x12, 0x42, 0x41],
            ..PLAIN
        },
        Reading::Nothing,
    ),
];

const FRAMES: &[Row<Frame>] = &[
    ("the frame as it is", PLAIN, GOOD),
    ("nine ones", Frame { ones: 9, ..PLAIN }, Reading::Nothing),
    ("eleven ones", Frame { ones: 11, ..PLAIN }, Reading::Nothing),
    (
        "no code in the header",
        Frame {
            broken: Broken::Id,
            ..PLAIN
        },
        Reading::Nothing,
    ),
    (
        "no code in the data",
        Frame {
            broken: Broken::Content,
            ..PLAIN
        },
        BAD,
    ),
    (
        "no code in the check value",
        Frame {
            broken: Broken::Check,
            ..PLAIN
        },
        BAD,
    ),
    (
        "another first byte of the data",
        Frame {
            first: 0x08,
            ..PLAIN
        },
        BAD,
    ),
    (
        "another check value of the data",
        Frame {
            check: 0xA0,
            ..PLAIN
        },
        BAD,
    ),
    (
        "a check value with the first byte of the data",
        Frame {
            check: 0xA6,
            ..PLAIN
        },
        BAD,
    ),
    (
        "data 1023 cells behind the header",
        Frame { gap: 1023, ..PLAIN },
        GOOD,
    ),
    (
        "data 1024 cells behind the header",
        Frame { gap: 1024, ..PLAIN },
        BAD,
    ),
    (
        "another header's sync before the data",
        Frame {
            other: Some(0x08),
            ..PLAIN
        },
        BAD,
    ),
    (
        "seven zeros before the data",
        Frame { zeros: 7, ..PLAIN },
        GOOD,
    ),
    (
        "eight zeros before the data",
        Frame { zeros: 8, ..PLAIN },
        BAD,
    ),
];

/// The track of the same cylinder on a 1571's second side, which is 53: with the check value 35 ^ 42 ^ 41 = 36.
const SECOND_SIDE: TrackId = TrackId {
    cylinder: 17,
    head: 1,
};

const SIDES: &[Row<Frame>] = &[
    (
        "the track's number on the second side",
        Frame {
            header: [0x08, 0x36, 0x00, 0x35, 0x42, 0x41],
            ..PLAIN
        },
        GOOD,
    ),
    (
        "the track's number on the first side",
        PLAIN,
        Reading::Nothing,
    ),
];

/// Sector 0 of track 17, with the check value 00 ^ 11 ^ 42 ^ 41 = 12.
const TRACK_17: Frame = Frame {
    header: [0x08, 0x12, 0x00, 0x11, 0x42, 0x41],
    ..PLAIN
};

const OTHERS: &[Other<Frame>] = &[
    (
        "track 17",
        TRACK_17,
        HeaderName::TrackSector {
            track: 17,
            sector: 0,
        },
        true,
    ),
    (
        "track 17, and another check value of the data",
        Frame {
            check: 0xA0,
            ..TRACK_17
        },
        HeaderName::TrackSector {
            track: 17,
            sector: 0,
        },
        false,
    ),
    (
        "track 17, and another block before its data",
        Frame {
            other: Some(0x09),
            ..TRACK_17
        },
        HeaderName::TrackSector {
            track: 17,
            sector: 0,
        },
        true,
    ),
    (
        "sector 19 of 19, check value 02",
        Frame {
            header: [0x08, 0x02, 0x13, 0x12, 0x42, 0x41],
            ..PLAIN
        },
        HeaderName::TrackSector {
            track: 18,
            sector: 19,
        },
        true,
    ),
];

#[test]
fn tells_headers_of_no_sector(rt: HostRuntime) -> Result<(), Fail> {
    assert_others(&rt, rt.alloc(), &DISK, TRACK, OTHERS)
}

#[test]
fn reads_frames_made_by_hand(rt: HostRuntime) -> Result<(), Fail> {
    assert_read(&rt, rt.alloc(), &DISK, TRACK, HEADERS)?;
    assert_read(&rt, rt.alloc(), &DISK, SECOND_SIDE, SIDES)?;
    assert_read(&rt, rt.alloc(), &DISK, TRACK, FRAMES)
}

/// The second header stands before the first one's data, which are its own.
const TWO_HEADERS: &[Search] = &[
    (0, Some((30, BAD))),
    (31, Some((130, Reading::Good { sector: 18 }))),
];

/// Without its last cell the frame is not whole.
const CUT: &[Search] = &[(31, Some((130, Reading::Bad { sector: 18 })))];

#[test]
fn reads_headers_without_their_data(rt: HostRuntime) -> Result<(), Fail> {
    let mut cells = Cells::new(rt.alloc());
    push_header(&mut cells, &Frame { ones: 40, ..PLAIN })?;
    let second = Frame {
        ones: 40,
        ..LAST_SECTOR
    };
    second.push(&mut cells)?;
    assert_found(&rt, &DISK, TRACK, &cells, TWO_HEADERS);
    assert_found_in_cut(&rt, rt.alloc(), &DISK, TRACK, &cells, CUT)
}

const FIRST_TRACK: TrackId = TrackId {
    cylinder: 0,
    head: 0,
};

const JOINED: &[Search] = &[
    (0, Some((30, Reading::Good { sector: 0 }))),
    (31, Some((2958, Reading::Good { sector: 1 }))),
    (120078, Some((120078, Reading::Good { sector: 20 }))),
    (120079, None),
];

#[test]
fn reads_two_joined_rings(rt: HostRuntime) -> Result<(), Fail> {
    let disk = CommodoreGcr {
        drive: CommodoreDrive::C1541,
        id1: 0x5E,
        id2: 0x5E,
    };
    let ring = filled_ring(&rt, rt.alloc(), &disk, FIRST_TRACK, 0x5E)?;
    assert_eq!(rt; ring.len(), 61488);
    assert_found_in_joined(&rt, rt.alloc(), &disk, FIRST_TRACK, [&ring, &ring], JOINED)
}

/// The bytes 08 11 00 12 42 41 0F 0F after 40 ones, then the gap.
const HEADER_BLOCK: &[Word] = &[
    (8, 32, 0xFFFF_FFFF),
    (40, 32, 0x5256_B529),
    (72, 32, 0x7274_9CB5),
    (104, 32, 0x5555_5555),
];

#[test]
fn writes_a_header_block(rt: HostRuntime) -> Result<(), Fail> {
    let ring = filled_ring(&rt, rt.alloc(), &DISK, TRACK, 0)?;
    assert_eq!(rt; ring.len(), 57000);
    assert_words(&rt, &ring, HEADER_BLOCK);
    Ok(())
}

/// A zone's first and last cylinder, and the numbers of its tracks.
const ZONES: [([u8; 2], Numbers); 4] = [
    (
        [0, 16],
        Numbers {
            first: 0,
            sectors: 21,
            size: 256,
            cells: 61488,
            place: 30,
            step: 2928,
        },
    ),
    (
        [17, 23],
        Numbers {
            first: 0,
            sectors: 19,
            size: 256,
            cells: 57000,
            place: 30,
            step: 3000,
        },
    ),
    (
        [24, 29],
        Numbers {
            first: 0,
            sectors: 18,
            size: 256,
            cells: 53280,
            place: 30,
            step: 2960,
        },
    ),
    (
        [30, 39],
        Numbers {
            first: 0,
            sectors: 17,
            size: 256,
            cells: 49912,
            place: 30,
            step: 2936,
        },
    ),
];

#[test]
fn reads_the_first_and_the_last_track_of_each_zone_back(rt: HostRuntime) -> Result<(), Fail> {
    for (cylinders, numbers) in &ZONES {
        for cylinder in *cylinders {
            assert!(rt; cylinder < 40);
            for head in 0..2u8 {
                let track = TrackId { cylinder, head };
                read_back_by_chance(&rt, rt.alloc(), &DISK, track, numbers)?;
            }
        }
    }
    Ok(())
}
