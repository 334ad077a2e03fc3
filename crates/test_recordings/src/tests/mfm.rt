//! The PC's disks, the Atari ST's and the Amstrad CPC's.
mod others;

use super::frames::{
    HandMade, Row, Search, assert_found, assert_found_in_cut, assert_read, push_gap,
};
use super::rings::{
    Numbers, Word, assert_data_bytes, assert_found_in_joined, assert_words, filled_ring,
    read_back_by_chance,
};
use cell_bits::{Cells, MFM_A1_MARK, MFM_C2_MARK};
use check_values::{Crc16, crc16};
use flux_base::{Memory, TrackId};
use frame_law::{Reading, Recording, SectorBuffer};
use ibm_mfm::IbmMfm;
use std::process::Abort;
use std::test::Fail;

const DISK: IbmMfm = IbmMfm::PC_9;

const TRACK: TrackId = TrackId {
    cylinder: 0,
    head: 0,
};

/// A header and data, made by hand.
#[derive(Clone, Copy)]
struct Frame {
    /// The head, the sector's number, and the code of its length.
    head: u8,
    sector: u8,
    size: u8,
    /// The cells of the length's byte, 0 for those of MFM.
    size_cells: u32,
    /// Added to the header's check value.
    header_error: u16,
    /// So many cells stand between the header and the data, half of them before other bytes.
    gap: u16,
    other: Other,
    /// The first byte of the data. Its other bytes are so many bytes FF, the last of which is `last`, of these cells.
    first: u8,
    bytes: u16,
    last: u8,
    last_cells: u32,
    /// Added to the data's check value.
    data_error: u16,
}

/// What stands in the middle of the gap.
#[derive(Clone, Copy)]
enum Other {
    Nothing,
    TwoMarks,
    /// A sync and this byte.
    Sync(u8),
}

const PLAIN: Frame = Frame {
    head: TRACK.head,
    sector: 7,
    size: 2,
    size_cells: 0,
    header_error: 0,
    gap: 544,
    other: Other::Nothing,
    first: 0xFB,
    bytes: 512,
    last: 0xFF,
    last_cells: 0x5555,
    data_error: 0,
};

fn push_number(cells: &mut Cells, number: u16) -> Result<(), Memory> {
    cells.push_mfm((number / 256) as u8)?;
    cells.push_mfm((number % 256) as u8)
}

fn push_marks(cells: &mut Cells, count: u8) -> Result<(), Memory> {
    for _ in 0..count {
        cells.push_word(MFM_A1_MARK, 16)?;
    }
    Ok(())
}

fn push_size(cells: &mut Cells, frame: &Frame) -> Result<(), Memory> {
    match frame.size_cells {
        0 => cells.push_mfm(frame.size),
        size_cells => cells.push_word(size_cells, 16),
    }
}

fn push_header(cells: &mut Cells, frame: &Frame) -> Result<(), Memory> {
    push_marks(cells, 3)?;
    cells.push_mfm(0xFE)?;
    cells.push_mfm(TRACK.cylinder)?;
    cells.push_mfm(frame.head)?;
    cells.push_mfm(frame.sector)?;
    push_size(cells, frame)?;
    let address = [0xFE, TRACK.cylinder, frame.head, frame.sector, frame.size];
    let check = crc16(crc16(0xFFFF, &[0xA1, 0xA1, 0xA1]), &address);
    push_number(cells, check.wrapping_add(frame.header_error))
}

fn push_data(cells: &mut Cells, frame: &Frame) -> Result<(), Memory> {
    push_marks(cells, 3)?;
    cells.push_mfm(frame.first)?;
    let mut check = Crc16::new(crc16(0xFFFF, &[0xA1, 0xA1, 0xA1]));
    check.add(frame.first);
    for _ in 1..frame.bytes {
        cells.push_mfm(0xFF)?;
        check.add(0xFF);
    }
    cells.push_word(frame.last_cells, 16)?;
    check.add(frame.last);
    push_number(cells, check.value().wrapping_add(frame.data_error))
}

fn push_other(cells: &mut Cells, other: Other) -> Result<(), Memory> {
    match other {
        Other::Nothing => Ok(()),
        Other::TwoMarks => push_marks(cells, 2),
        Other::Sync(byte) => {
            push_marks(cells, 3)?;
            cells.push_mfm(byte)
        }
    }
}

impl HandMade for Frame {
    fn push(&self, cells: &mut Cells) -> Result<(), Memory> {
        push_header(cells, self)?;
        push_gap(cells, self.gap / 2)?;
        push_other(cells, self.other)?;
        push_gap(cells, self.gap - self.gap / 2)?;
        push_data(cells, self)
    }
}

const GOOD: Reading = Reading::Good { sector: 7 };

const BAD: Reading = Reading::Bad { sector: 7 };

const FRAMES: &[Row<Frame>] = &[
    ("the frame as it is", PLAIN, GOOD),
    (
        "another check value of the header",
        Frame {
            header_error: 1,
            ..PLAIN
        },
        Reading::Nothing,
    ),
    (
        "a length that is not 512 bytes",
        Frame { size: 1, ..PLAIN },
        Reading::Nothing,
    ),
    ("sector 0", Frame { sector: 0, ..PLAIN }, Reading::Nothing),
    (
        "sector 10",
        Frame {
            sector: 10,
            ..PLAIN
        },
        Reading::Nothing,
    ),
    (
        "eight zeros in the header",
        Frame {
            size_cells: 0x8004,
            ..PLAIN
        },
        Reading::Nothing,
    ),
    (
        "seven zeros in the header",
        Frame {
            size_cells: 0x8084,
            ..PLAIN
        },
        GOOD,
    ),
    (
        "another check value of the data",
        Frame {
            data_error: 0x100,
            ..PLAIN
        },
        BAD,
    ),
    (
        "deleted data",
        Frame {
            first: 0xF8,
            ..PLAIN
        },
        GOOD,
    ),
    (
        "a first byte that opens no data",
        Frame {
            first: 0xFE,
            ..PLAIN
        },
        BAD,
    ),
    (
        "data 1023 cells behind the header",
        Frame { gap: 1023, ..PLAIN },
        GOOD,
    ),
    (
        "data 1024 cells behind the header",
        Frame { gap: 1024, ..PLAIN },
        BAD,
    ),
    (
        "two marks before the data",
        Frame {
            other: Other::TwoMarks,
            ..PLAIN
        },
        GOOD,
    ),
    (
        "another sync before the data",
        Frame {
            other: Other::Sync(0xFE),
            ..PLAIN
        },
        BAD,
    ),
    (
        "seven zeros in the data",
        Frame {
            last: 0,
            last_cells: 0x80AA,
            ..PLAIN
        },
        GOOD,
    ),
    (
        "eight zeros in the data",
        Frame {
            last: 0,
            last_cells: 0x00AA,
            ..PLAIN
        },
        BAD,
    ),
];

#[test]
fn reads_frames_made_by_hand(rt: HostRuntime) -> Result<(), Fail> {
    assert_read(&rt, rt.alloc(), &DISK, TRACK, FRAMES)
}

/// The second header stands before the first one's data, which are its own.
const TWO_HEADERS: &[Search] = &[
    (0, Some((0, BAD))),
    (1, Some((160, Reading::Good { sector: 8 }))),
];

/// Without its last cell the frame is not whole.
const CUT: &[Search] = &[(1, Some((160, Reading::Bad { sector: 8 })))];

#[test]
fn reads_headers_without_their_data(rt: HostRuntime) -> Result<(), Fail> {
    let mut cells = Cells::new(rt.alloc());
    push_header(&mut cells, &PLAIN)?;
    Frame { sector: 8, ..PLAIN }.push(&mut cells)?;
    assert_found(&rt, &DISK, TRACK, &cells, TWO_HEADERS);
    assert_found_in_cut(&rt, rt.alloc(), &DISK, TRACK, &cells, CUT)
}

/// The index mark, and the marks before the first header.
const MARKS: &[Word] = &[
    (1472, 16, MFM_C2_MARK),
    (2528, 32, 0x4489_4489),
    (2560, 16, 0x4489),
];

/// The first header of cylinder 0 and head 0, with its check value.
const FIRST_HEADER: [u8; 7] = [0xFE, 0x00, 0x00, 0x01, 0x02, 0xCA, 0x6F];

const JOINED: &[Search] = &[
    (0, Some((2528, Reading::Good { sector: 1 }))),
    (2529, Some((12992, Reading::Good { sector: 2 }))),
    (186240, Some((186240, Reading::Good { sector: 9 }))),
    (186241, None),
];

#[test]
fn reads_two_joined_rings(rt: HostRuntime) -> Result<(), Fail> {
    let ring = filled_ring(&rt, rt.alloc(), &DISK, TRACK, 0xF6)?;
    assert_eq!(rt; ring.len(), 100000);
    assert_words(&rt, &ring, MARKS);
    assert_data_bytes(&rt, &ring, 2576, &FIRST_HEADER);
    assert_found_in_joined(&rt, rt.alloc(), &DISK, TRACK, [&ring, &ring], JOINED)
}

/// A disk, the numbers of its first track, and that track's first header with its check value.
#[derive(Clone, Copy)]
struct Disk {
    disk: IbmMfm,
    numbers: Numbers,
    header: [u8; 7],
}

/// A gap of 80 bytes, twelve of 00, four of the index mark, a gap of 50 and twelve of 00 stand before the marks of the
/// first header.
const PC_9: Numbers = Numbers {
    first: 1,
    sectors: 9,
    size: 512,
    cells: 100_000,
    place: 2528,
    step: 10464,
};

const DISKS: [Disk; 7] = [
    Disk {
        disk: IbmMfm::PC_8,
        numbers: Numbers { sectors: 8, ..PC_9 },
        header: FIRST_HEADER,
    },
    Disk {
        disk: IbmMfm::PC_9,
        numbers: PC_9,
        header: FIRST_HEADER,
    },
    Disk {
        disk: IbmMfm::PC_15,
        numbers: Numbers {
            sectors: 15,
            cells: 166_656,
            step: 10528,
            ..PC_9
        },
        header: FIRST_HEADER,
    },
    Disk {
        disk: IbmMfm::PC_18,
        numbers: Numbers {
            sectors: 18,
            cells: 200_000,
            step: 10912,
            ..PC_9
        },
        header: FIRST_HEADER,
    },
    Disk {
        disk: IbmMfm::ATARI_10,
        numbers: Numbers {
            sectors: 10,
            step: 9664,
            ..PC_9
        },
        header: FIRST_HEADER,
    },
    Disk {
        disk: IbmMfm::CPC_DATA,
        numbers: Numbers {
            first: 0xC1,
            step: 10496,
            ..PC_9
        },
        header: [0xFE, 0x00, 0x00, 0xC1, 0x02, 0xDC, 0x3B],
    },
    Disk {
        disk: IbmMfm::CPC_SYSTEM,
        numbers: Numbers {
            first: 0x41,
            step: 10496,
            ..PC_9
        },
        header: [0xFE, 0x00, 0x00, 0x41, 0x02, 0xC7, 0xA3],
    },
];

#[test]
fn reads_each_disk_s_sectors_back(rt: HostRuntime) -> Result<(), Fail> {
    for disk in &DISKS {
        assert!(rt; disk.disk.fills_track());
        let ring = read_back_by_chance(&rt, rt.alloc(), &disk.disk, TRACK, &disk.numbers)?;
        assert_data_bytes(&rt, &ring, 2576, &disk.header);
    }
    Ok(())
}

/// Frames of the disk's first and last sector are read, and none of another length or of the sectors beside them.
fn reads_own_sectors(rt: &impl Abort, cells: &mut Cells, disk: &Disk) -> Result<(), Memory> {
    assert!(rt; disk.disk.fills_track());
    let first = disk.numbers.first;
    let last = first.wrapping_add(disk.numbers.sectors.wrapping_sub(1));
    let rows = [
        (first, 2, true),
        (last, 2, true),
        (last, 1, false),
        (last, 3, false),
        (first.wrapping_sub(1), 2, false),
        (last.wrapping_add(1), 2, false),
    ];
    for (sector, size, is_own) in rows {
        let want = if is_own {
            Reading::Good { sector }
        } else {
            Reading::Nothing
        };
        let frame = Frame {
            sector,
            size,
            ..PLAIN
        };
        cells.clear();
        frame.push(cells)?;
        let reading = disk.disk.read_at(cells, 0, TRACK, &mut SectorBuffer::new());
        assert_eq!(rt; reading, want, "sector {sector} of size {size}");
    }
    Ok(())
}

#[test]
fn reads_no_sectors_of_other_disks(rt: HostRuntime) -> Result<(), Fail> {
    let mut cells = Cells::new(rt.alloc());
    for disk in &DISKS {
        reads_own_sectors(&rt, &mut cells, disk)?;
    }
    Ok(())
}

const LAST_TRACK: TrackId = TrackId {
    cylinder: 79,
    head: 1,
};

#[test]
fn reads_no_headers_of_another_track(rt: HostRuntime) -> Result<(), Fail> {
    let ring = filled_ring(&rt, rt.alloc(), &IbmMfm::PC_18, LAST_TRACK, 0xF6)?;
    let own = [(0, Some((2528, Reading::Good { sector: 1 })))];
    assert_found(&rt, &IbmMfm::PC_18, LAST_TRACK, &ring, &own);
    assert_found(&rt, &IbmMfm::PC_18, TRACK, &ring, &[(0, None)]);
    Ok(())
}
