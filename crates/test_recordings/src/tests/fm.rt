//! The IBM 3740 diskette and Acorn's disks.
mod others;

use super::frames::{
    HandMade, Rewritten, Row, Search, assert_found, assert_found_in_cut, assert_read,
    assert_rewritten, push_cells,
};
use super::rings::{
    Numbers, assert_data_bytes, assert_found_in_joined, assert_words, filled_ring,
    read_back_by_chance,
};
use cell_bits::{Cells, FM_DATA_MARK, FM_DELETED_DATA_MARK, FM_ID_MARK, FM_INDEX_MARK};
use check_values::{Crc16, crc16};
use flux_base::{Memory, TrackId};
use frame_law::Reading;
use ibm_fm::IbmFm;
use std::test::Fail;

const DISK: IbmFm = IbmFm::IBM_3740;

const TRACK: TrackId = TrackId {
    cylinder: 0,
    head: 0,
};

/// A header and data, made by hand.
#[derive(Clone, Copy)]
struct Frame {
    /// The cylinder, the sector's number, and the code of its length.
    cylinder: u8,
    sector: u8,
    size: u8,
    /// The cells of the length's byte, 0 for those of FM.
    size_cells: u32,
    /// Added to the header's check value.
    header_error: u16,
    /// So many cells of ones stand between the header and the data, half of them before another mark.
    gap: u16,
    other: u32,
    /// So many zeros stand before the data's half of the gap.
    seam: u16,
    /// The data's mark, its byte and so many bytes FF, the last of which is `last`, of these cells.
    mark: u32,
    mark_byte: u8,
    bytes: u16,
    last: u8,
    last_cells: u32,
    /// Added to the data's check value.
    data_error: u16,
}

const PLAIN: Frame = Frame {
    cylinder: TRACK.cylinder,
    sector: 7,
    size: 0,
    size_cells: 0,
    header_error: 0,
    gap: 272,
    other: 0,
    seam: 0,
    mark: FM_DATA_MARK,
    mark_byte: 0xFB,
    bytes: 128,
    last: 0xFF,
    last_cells: 0xFFFF,
    data_error: 0,
};

fn push_number(cells: &mut Cells, number: u16) -> Result<(), Memory> {
    cells.push_fm((number / 256) as u8)?;
    cells.push_fm((number % 256) as u8)
}

fn push_size(cells: &mut Cells, frame: &Frame) -> Result<(), Memory> {
    match frame.size_cells {
        0 => cells.push_fm(frame.size),
        size_cells => cells.push_word(size_cells, 16),
    }
}

fn push_header(cells: &mut Cells, frame: &Frame) -> Result<(), Memory> {
    cells.push_word(FM_ID_MARK, 16)?;
    cells.push_fm(frame.cylinder)?;
    cells.push_fm(TRACK.head)?;
    cells.push_fm(frame.sector)?;
    push_size(cells, frame)?;
    let check = crc16(
        0xFFFF,
        &[0xFE, frame.cylinder, TRACK.head, frame.sector, frame.size],
    );
    push_number(cells, check.wrapping_add(frame.header_error))
}

fn push_data(cells: &mut Cells, frame: &Frame) -> Result<(), Memory> {
    cells.push_word(frame.mark, 16)?;
    let mut check = Crc16::new(0xFFFF);
    check.add(frame.mark_byte);
    for _ in 1..frame.bytes {
        cells.push_fm(0xFF)?;
        check.add(0xFF);
    }
    cells.push_word(frame.last_cells, 16)?;
    check.add(frame.last);
    push_number(cells, check.value().wrapping_add(frame.data_error))
}

impl HandMade for Frame {
    fn push(&self, cells: &mut Cells) -> Result<(), Memory> {
        push_header(cells, self)?;
        push_cells(cells, self.gap / 2, true)?;
        if self.other != 0 {
            cells.push_word(self.other, 16)?;
        }
        push_cells(cells, self.seam, false)?;
        push_cells(cells, self.gap - self.gap / 2, true)?;
        push_data(cells, self)
    }
}

const GOOD: Reading = Reading::Good { sector: 7 };

const BAD: Reading = Reading::Bad { sector: 7 };

const FRAMES: &[Row<Frame>] = &[
    ("the frame as it is", PLAIN, GOOD),
    (
        "another check value of the header",
        Frame {
            header_error: 1,
            ..PLAIN
        },
        Reading::Nothing,
    ),
    (
        "a length that is not 128 bytes",
        Frame { size: 1, ..PLAIN },
        Reading::Nothing,
    ),
    ("sector 0", Frame { sector: 0, ..PLAIN }, Reading::Nothing),
    (
        "sector 27",
        Frame {
            sector: 27,
            ..PLAIN
        },
        Reading::Nothing,
    ),
    (
        "eight zeros in the header",
        Frame {
            size_cells: 0x00AA,
            ..PLAIN
        },
        Reading::Nothing,
    ),
    (
        "seven zeros in the header",
        Frame {
            size_cells: 0x80AA,
            ..PLAIN
        },
        GOOD,
    ),
    (
        "another check value of the data",
        Frame {
            data_error: 0x100,
            ..PLAIN
        },
        BAD,
    ),
    (
        "a deleted data mark",
        Frame {
            mark: FM_DELETED_DATA_MARK,
            mark_byte: 0xF8,
            ..PLAIN
        },
        GOOD,
    ),
    (
        "a check value of the other mark",
        Frame {
            mark_byte: 0xF8,
            ..PLAIN
        },
        BAD,
    ),
    (
        "data 1023 cells behind the header",
        Frame { gap: 1023, ..PLAIN },
        GOOD,
    ),
    (
        "data 1024 cells behind the header",
        Frame { gap: 1024, ..PLAIN },
        BAD,
    ),
    (
        "an index mark before the data mark",
        Frame {
            other: FM_INDEX_MARK,
            ..PLAIN
        },
        BAD,
    ),
    (
        "an ID mark before the data mark",
        Frame {
            other: FM_ID_MARK,
            ..PLAIN
        },
        BAD,
    ),
    (
        "an index mark in place of the data mark",
        Frame {
            mark: FM_INDEX_MARK,
            mark_byte: 0xFC,
            ..PLAIN
        },
        BAD,
    ),
    (
        "seven zeros in the data",
        Frame {
            last: 0,
            last_cells: 0x80AA,
            ..PLAIN
        },
        GOOD,
    ),
    (
        "eight zeros in the data",
        Frame {
            last: 0,
            last_cells: 0x00AA,
            ..PLAIN
        },
        BAD,
    ),
];

#[test]
fn reads_frames_made_by_hand(rt: HostRuntime) -> Result<(), Fail> {
    assert_read(&rt, rt.alloc(), &DISK, TRACK, FRAMES)
}

/// The data are at most 1023 cells behind the header, which has 112 cells, and a mark has 16.
const REWRITTEN: &[Rewritten<Frame>] = &[
    ("the frame as it is", PLAIN, Some(384)),
    (
        "a false mark in the seam",
        Frame {
            other: FM_ID_MARK,
            ..PLAIN
        },
        Some(400),
    ),
    (
        "30 zeros in the seam",
        Frame { seam: 30, ..PLAIN },
        Some(414),
    ),
    ("31 zeros in the seam", Frame { seam: 31, ..PLAIN }, None),
    (
        "data at the reach's end",
        Frame { gap: 1023, ..PLAIN },
        Some(1135),
    ),
    ("data past it", Frame { gap: 1024, ..PLAIN }, None),
    (
        "eight zeros in the data",
        Frame {
            last: 0x00,
            last_cells: 0x0000,
            ..PLAIN
        },
        None,
    ),
    (
        "another check value of the data",
        Frame {
            data_error: 1,
            ..PLAIN
        },
        None,
    ),
];

#[test]
fn reads_data_that_were_written_again(rt: HostRuntime) -> Result<(), Fail> {
    assert_rewritten(&rt, rt.alloc(), &DISK, TRACK, REWRITTEN)
}

/// A frame's header without its data.
struct HeaderAlone(Frame);

impl HandMade for HeaderAlone {
    fn push(&self, cells: &mut Cells) -> Result<(), Memory> {
        push_header(cells, &self.0)
    }
}

/// A header without its data is bad.
const ACORN_HEADERS: &[Row<HeaderAlone>] = &[
    (
        "sector 0",
        HeaderAlone(Frame {
            sector: 0,
            size: 1,
            ..PLAIN
        }),
        Reading::Bad { sector: 0 },
    ),
    (
        "sector 9",
        HeaderAlone(Frame {
            sector: 9,
            size: 1,
            ..PLAIN
        }),
        Reading::Bad { sector: 9 },
    ),
    (
        "sector 10",
        HeaderAlone(Frame {
            sector: 10,
            size: 1,
            ..PLAIN
        }),
        Reading::Nothing,
    ),
    (
        "a length of 128 bytes",
        HeaderAlone(Frame {
            sector: 9,
            size: 0,
            ..PLAIN
        }),
        Reading::Nothing,
    ),
    (
        "a length of 512 bytes",
        HeaderAlone(Frame {
            sector: 9,
            size: 2,
            ..PLAIN
        }),
        Reading::Nothing,
    ),
];

#[test]
fn acorn_s_headers_have_their_own_numbers(rt: HostRuntime) -> Result<(), Fail> {
    assert_read(&rt, rt.alloc(), &IbmFm::ACORN, TRACK, ACORN_HEADERS)
}

/// The second header stands before the first one's data, which are its own.
const TWO_HEADERS: &[Search] = &[
    (0, Some((0, BAD))),
    (1, Some((112, Reading::Good { sector: 8 }))),
];

/// Without its last cell the frame is not whole.
const CUT: &[Search] = &[(1, Some((112, Reading::Bad { sector: 8 })))];

#[test]
fn reads_headers_without_their_data(rt: HostRuntime) -> Result<(), Fail> {
    let mut cells = Cells::new(rt.alloc());
    push_header(&mut cells, &PLAIN)?;
    Frame { sector: 8, ..PLAIN }.push(&mut cells)?;
    assert_found(&rt, &DISK, TRACK, &cells, TWO_HEADERS);
    assert_found_in_cut(&rt, rt.alloc(), &DISK, TRACK, &cells, CUT)
}

/// The first header of cylinder 0, with its check value.
const FIRST_HEADER: [u8; 7] = [0xFE, 0x00, 0x00, 0x01, 0x00, 0xD2, 0xC3];

const JOINED: &[Search] = &[
    (0, Some((1264, Reading::Good { sector: 1 }))),
    (1264, Some((1264, Reading::Good { sector: 1 }))),
    (1265, Some((4272, Reading::Good { sector: 2 }))),
    (159792, Some((159792, Reading::Good { sector: 26 }))),
    (159793, None),
];

#[test]
fn reads_two_joined_rings(rt: HostRuntime) -> Result<(), Fail> {
    let ring = filled_ring(&rt, rt.alloc(), &DISK, TRACK, 0xF6)?;
    assert_eq!(rt; ring.len(), 83328);
    assert_words(&rt, &ring, &[(1264, 16, 0xF57E)]);
    assert_data_bytes(&rt, &ring, 1264, &FIRST_HEADER);
    assert_found_in_joined(&rt, rt.alloc(), &DISK, TRACK, [&ring, &ring], JOINED)
}

/// A gap of 40 bytes, six of 00, the index mark, a gap of 26 and six of 00 stand before the first header.
const IBM_3740: Numbers = Numbers {
    first: 1,
    sectors: 26,
    size: 128,
    cells: 83328,
    place: 1264,
    step: 3008,
};

/// A gap of 16 bytes and six of 00 stand before the first header.
const ACORN: Numbers = Numbers {
    first: 0,
    sectors: 10,
    size: 256,
    cells: 50000,
    place: 352,
    step: 4960,
};

/// A disk, the numbers of its first track, and that track's first header with its check value.
const DISKS: [(IbmFm, Numbers, [u8; 7]); 2] = [
    (IbmFm::IBM_3740, IBM_3740, FIRST_HEADER),
    (
        IbmFm::ACORN,
        ACORN,
        [0xFE, 0x00, 0x00, 0x00, 0x01, 0xF1, 0xD3],
    ),
];

#[test]
fn reads_each_disk_s_sectors_back(rt: HostRuntime) -> Result<(), Fail> {
    for (disk, numbers, header) in &DISKS {
        assert!(rt; disk.fills_track());
        let ring = read_back_by_chance(&rt, rt.alloc(), disk, TRACK, numbers)?;
        assert_data_bytes(&rt, &ring, numbers.place, header);
    }
    Ok(())
}

const LAST_TRACK: TrackId = TrackId {
    cylinder: 76,
    head: 0,
};

#[test]
fn reads_no_headers_of_another_track(rt: HostRuntime) -> Result<(), Fail> {
    let ring = filled_ring(&rt, rt.alloc(), &DISK, LAST_TRACK, 0xF6)?;
    let own = [(0, Some((1264, Reading::Good { sector: 1 })))];
    assert_found(&rt, &DISK, LAST_TRACK, &ring, &own);
    assert_found(&rt, &DISK, TRACK, &ring, &[(0, None)]);
    Ok(())
}
