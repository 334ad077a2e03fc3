//! Amiga disks.
use super::frames::{
    HandMade, Other, Row, Search, assert_found, assert_others, assert_read, front,
};
use super::rings::{
    Numbers, Word, assert_found_in_joined, assert_words, read_back, read_back_by_chance,
};
use amiga_mfm::AmigaMfm;
use cell_bits::Cells;
use flux_base::{HeaderName, Memory, TrackId};
use frame_law::{Reading, Recording, SectorBuffer, next_reading};
use std::test::Fail;

const TRACK: TrackId = TrackId {
    cylinder: 0,
    head: 0,
};

const DISK: AmigaMfm = AmigaMfm::DoubleDensity;

/// 32 cells whose clock cells are ones, and whose data cells are zeros.
const ZEROS: u32 = 0xAAAA_AAAA;

/// A frame made by hand. Halves of longs are given by their data cells, and written with ones in all clock cells.
#[derive(Clone, Copy)]
struct Frame {
    info: [u32; 2],
    /// The cells of one half of the label; the other seven are zeros.
    label: u32,
    header_check: [u32; 2],
    data_check: [u32; 2],
    /// The cells of half 100 of the data, the odd one of long 100, and of half 255, the last one; the others are
    /// zeros.
    data: u32,
    last: u32,
}

/// Sector 0 of track 0: the info is FF00000B, the label and the data are zeros.
const PLAIN: Frame = Frame {
    info: [0x5500_0005, 0x5500_0001],
    label: ZEROS,
    header_check: [0, 4],
    data_check: [0, 0],
    data: ZEROS,
    last: ZEROS,
};

fn push_halves(cells: &mut Cells, halves: [u32; 2]) -> Result<(), Memory> {
    cells.push_word(ZEROS | halves[0], 32)?;
    cells.push_word(ZEROS | halves[1], 32)
}

fn push_zeros(cells: &mut Cells, halves: u8) -> Result<(), Memory> {
    for _ in 0..halves {
        cells.push_word(ZEROS, 32)?;
    }
    Ok(())
}

impl HandMade for Frame {
    fn push(&self, cells: &mut Cells) -> Result<(), Memory> {
        cells.push_word(0x4489_4489, 32)?;
        push_halves(cells, self.info)?;
        push_zeros(cells, 3)?;
        cells.push_word(self.label, 32)?;
        push_zeros(cells, 4)?;
        push_halves(cells, self.header_check)?;
        push_halves(cells, self.data_check)?;
        push_zeros(cells, 100)?;
        cells.push_word(self.data, 32)?;
        push_zeros(cells, 154)?;
        cells.push_word(self.last, 32)
    }
}

const GOOD: Reading = Reading::Good { sector: 0 };

const BAD: Reading = Reading::Bad { sector: 0 };

const FRAMES: &[Row<Frame>] = &[
    ("the frame as it is", PLAIN, GOOD),
    (
        "sector 10",
        Frame {
            info: [0x5500_0500, 0x5500_0001],
            header_check: [0, 0x501],
            ..PLAIN
        },
        Reading::Good { sector: 10 },
    ),
    (
        "sector 11",
        Frame {
            info: [0x5500_0500, 0x5500_0100],
            header_check: [0, 0x400],
            ..PLAIN
        },
        Reading::Nothing,
    ),
    (
        "FE as the first byte",
        Frame {
            info: [0x5500_0005, 0x5400_0001],
            header_check: [0, 0x0100_0004],
            ..PLAIN
        },
        Reading::Nothing,
    ),
    (
        "track 1",
        Frame {
            info: [0x5500_0005, 0x5501_0001],
            header_check: [0, 0x0001_0004],
            ..PLAIN
        },
        Reading::Nothing,
    ),
    (
        "no sector to the gap, which is not looked at",
        Frame {
            info: [0x5500_0000, 0x5500_0000],
            header_check: [0, 0],
            ..PLAIN
        },
        GOOD,
    ),
    (
        "a label that is in the check value",
        Frame {
            label: ZEROS | 0x4000_0001,
            header_check: [0, 0x4000_0005],
            ..PLAIN
        },
        GOOD,
    ),
    (
        "a label that is not in the check value",
        Frame {
            label: ZEROS | 0x4000_0001,
            ..PLAIN
        },
        Reading::Nothing,
    ),
    (
        "another check value of the header",
        Frame {
            header_check: [0, 5],
            ..PLAIN
        },
        Reading::Nothing,
    ),
    (
        "a check value of the header with an odd bit",
        Frame {
            header_check: [1, 4],
            ..PLAIN
        },
        Reading::Nothing,
    ),
    (
        "seven zeros in the header",
        Frame {
            label: 0xAAAA_80D5,
            header_check: [0, 0x51],
            ..PLAIN
        },
        GOOD,
    ),
    (
        "eight zeros in the header",
        Frame {
            label: 0xAAAA_8055,
            header_check: [0, 0x51],
            ..PLAIN
        },
        Reading::Nothing,
    ),
    (
        "another check value of the data",
        Frame {
            data_check: [0, 0x1000_0000],
            ..PLAIN
        },
        BAD,
    ),
    (
        "a check value of the data with an odd bit",
        Frame {
            data_check: [0x1000_0000, 0],
            ..PLAIN
        },
        BAD,
    ),
    (
        "a last half that is in the check value",
        Frame {
            last: ZEROS | 0x1000_0000,
            data_check: [0, 0x1000_0000],
            ..PLAIN
        },
        GOOD,
    ),
    (
        "seven zeros in the data",
        Frame {
            data: 0xAAAA_80D5,
            data_check: [0, 0x55],
            ..PLAIN
        },
        GOOD,
    ),
    (
        "eight zeros in the data",
        Frame {
            data: 0xAAAA_8055,
            data_check: [0, 0x55],
            ..PLAIN
        },
        BAD,
    ),
];

const SECTOR_11: Frame = Frame {
    info: [0x5500_0500, 0x5500_0100],
    header_check: [0, 0x400],
    ..PLAIN
};

const OTHERS: &[Other<Frame>] = &[
    (
        "sector 11",
        SECTOR_11,
        HeaderName::TrackSector {
            track: 0,
            sector: 11,
        },
        true,
    ),
    (
        "sector 11, and another check value of the data",
        Frame {
            data_check: [0, 1],
            ..SECTOR_11
        },
        HeaderName::TrackSector {
            track: 0,
            sector: 11,
        },
        false,
    ),
    (
        "track 1",
        Frame {
            info: [0x5500_0005, 0x5501_0001],
            header_check: [0, 0x0001_0004],
            ..PLAIN
        },
        HeaderName::TrackSector {
            track: 1,
            sector: 0,
        },
        true,
    ),
];

#[test]
fn tells_headers_of_no_sector(rt: HostRuntime) -> Result<(), Fail> {
    assert_others(&rt, rt.alloc(), &DISK, TRACK, OTHERS)
}

#[test]
fn reads_frames_made_by_hand(rt: HostRuntime) -> Result<(), Fail> {
    assert_read(&rt, rt.alloc(), &DISK, TRACK, FRAMES)
}

/// The long 88028802 in a sector of zeros.
fn byte_within(index: usize) -> u8 {
    match index {
        400 | 402 => 0x88,
        401 | 403 => 0x02,
        _ => 0,
    }
}

/// The cells 44894489 have the data cells 44014401, the odd half of the long 88028802.
const SYNC_WITHIN: Frame = Frame {
    data: 0x4489_4489,
    data_check: [0, 0x4401_4401],
    ..PLAIN
};

#[test]
fn a_sync_within_data_is_none(rt: HostRuntime) -> Result<(), Fail> {
    let mut cells = Cells::new(rt.alloc());
    SYNC_WITHIN.push(&mut cells)?;
    let mut buffer = SectorBuffer::new();
    let first = next_reading(&DISK, &cells, 0, TRACK, &mut buffer);
    assert_eq!(rt; first, Some((0, GOOD)));
    for (index, byte) in buffer.iter().enumerate() {
        assert_eq!(rt; *byte, byte_within(index), "byte {index}");
    }
    let sync = cells.find_word(1, cells.len(), 0x4489_4489, 32);
    assert_eq!(rt; sync, Some(3680));
    assert_found(&rt, &DISK, TRACK, &cells, &[(1, None)]);
    Ok(())
}

/// So many cells of a frame, and what is read in them.
const CUTS: [(usize, Reading); 5] = [
    (8672, GOOD),
    (8671, BAD),
    (8640, BAD),
    (480, BAD),
    (479, Reading::Nothing),
];

#[test]
fn a_cut_frame_is_bad(rt: HostRuntime) -> Result<(), Fail> {
    let mut whole = Cells::new(rt.alloc());
    PLAIN.push(&mut whole)?;
    assert_eq!(rt; whole.len(), 8672);
    for (length, want) in CUTS {
        let cut = front(rt.alloc(), &whole, length)?;
        let reading = DISK.read_at(&cut, 0, TRACK, &mut SectorBuffer::new());
        assert_eq!(rt; reading, want, "{length} cells");
    }
    Ok(())
}

const NUMBERS: Numbers = Numbers {
    first: 0,
    sectors: 11,
    size: 512,
    cells: 100_000,
    place: 32,
    step: 8704,
};

/// The sync, the info FF00000B and the check value 00000004 of the header; the check value 51514445 of the data, and
/// the halves 50500044 and 01014401 of the first long A1A14489; the gap's end.
const WORDS: &[Word] = &[
    (32, 32, 0x4489_4489),
    (64, 32, 0x552A_AAA5),
    (96, 32, 0x552A_AAA9),
    (416, 32, 0xAAAA_AAA4),
    (480, 32, 0x5151_4445),
    (512, 32, 0x5252_AA44),
    (4608, 32, 0xA929_44A9),
    (99968, 32, 0xAAAA_AAAA),
];

const JOINED: &[Search] = &[
    (0, Some((32, Reading::Good { sector: 0 }))),
    (33, Some((8736, Reading::Good { sector: 1 }))),
    (187072, Some((187072, Reading::Good { sector: 10 }))),
    (187073, None),
];

#[test]
fn reads_two_joined_rings(rt: HostRuntime) -> Result<(), Fail> {
    let mut bytes = [0xA1, 0xA1, 0x44, 0x89].to_vec(rt.alloc())?;
    bytes.resize(5632, 0)?;
    let ring = read_back(&rt, rt.alloc(), &DISK, TRACK, &NUMBERS, &bytes)?;
    assert_words(&rt, &ring, WORDS);
    assert_found_in_joined(&rt, rt.alloc(), &DISK, TRACK, [&ring, &ring], JOINED)
}

const LAST_TRACK: TrackId = TrackId {
    cylinder: 79,
    head: 1,
};

/// Twice as many sectors, and a gap of 532 bytes.
const HIGH_DENSITY: Numbers = Numbers {
    sectors: 22,
    cells: 200_000,
    ..NUMBERS
};

#[test]
fn reads_each_sector_back(rt: HostRuntime) -> Result<(), Fail> {
    let ring = read_back_by_chance(&rt, rt.alloc(), &DISK, LAST_TRACK, &NUMBERS)?;
    // These are another track's headers.
    assert_found(&rt, &DISK, TRACK, &ring, &[(0, None)]);
    Ok(())
}

#[test]
fn reads_each_sector_of_high_density_back(rt: HostRuntime) -> Result<(), Fail> {
    let disk = AmigaMfm::HighDensity;
    let ring = read_back_by_chance(&rt, rt.alloc(), &disk, LAST_TRACK, &HIGH_DENSITY)?;
    assert_words(&rt, &ring, LAST_HEADER);
    Ok(())
}

/// The last sector's sync, and its info FF9F1501, from which one sector is to go.
const LAST_HEADER: &[Word] = &[
    (182_816, 32, 0x4489_4489),
    (182_848, 32, 0x5545_2AAA),
    (182_880, 32, 0x5515_1529),
];
