//! Apple's disks.
mod others;

use super::frames::{
    HandMade, Row, Search, assert_found, assert_found_in_cut, assert_read, push_cells, push_gap,
    push_part,
};
use super::rings::{
    Numbers, Word, assert_found_in_joined, assert_sectors, assert_words, read_back,
};
use apple_gcr::AppleGcr;
use cell_bits::Cells;
use flux_base::{Memory, TrackId};
use frame_law::{Reading, Recording, SectorBuffer};
use std::alloc::{AllocError, Global};
use std::process::Abort;
use std::test::Fail;

const TRACK: TrackId = TrackId {
    cylinder: 0,
    head: 0,
};

/// An address field and a data field, made by hand.
#[derive(Clone, Copy)]
struct Frame {
    /// The eight bytes after D5 AA 96: volume, track; sector, check value.
    address: (u32, u32),
    /// So many cells stand between the fields, half of them before what stands in their middle.
    gap: u16,
    middle: Middle,
    /// What opens the data.
    mark: u32,
    /// The data's bytes are zeros, whose nibbles are 96, but for one of the 343, by its index and its byte.
    changed: (u16, u32),
    /// So many zeros stand before a byte.
    late: (Late, u16),
}

/// A byte that zeros may stand before.
#[derive(Clone, Copy, PartialEq, Eq)]
enum Late {
    /// The second byte of D5 AA 96.
    AddressMark,
    /// One of the eight bytes after it.
    Address(u32),
    /// The third byte of the data's mark.
    Opening,
    /// One of the 343 nibbles.
    Nibble(u16),
}

/// What stands in the middle of the gap.
#[derive(Clone, Copy)]
enum Middle {
    /// So many zeros between ones.
    Zeros(u16),
    /// Three bytes.
    Mark(u32),
}

/// Volume 254, track 0, sector 7: the check value is F9.
const PLAIN: Frame = Frame {
    address: (0xFFFE_AAAA, 0xABAF_FEFB),
    gap: 62,
    middle: Middle::Zeros(1),
    mark: 0xD5_AAAD,
    changed: (0, 0x96),
    late: (Late::Opening, 0),
};

/// The zeros that the frame has before a byte, if any.
fn push_late(cells: &mut Cells, frame: &Frame, before: Late) -> Result<(), Memory> {
    let (byte, count) = frame.late;
    push_cells(cells, if byte == before { count } else { 0 }, false)
}

fn push_middle(cells: &mut Cells, middle: Middle) -> Result<(), Memory> {
    match middle {
        Middle::Zeros(count) => push_cells(cells, count, false),
        Middle::Mark(mark) => cells.push_word(mark, 24),
    }
}

fn push_header(cells: &mut Cells, frame: &Frame) -> Result<(), Memory> {
    cells.push_word(0xD5, 8)?;
    push_late(cells, frame, Late::AddressMark)?;
    cells.push_word(0xAA96, 16)?;
    for index in 0..8u32 {
        push_late(cells, frame, Late::Address(index))?;
        let bytes = if index < 4 {
            frame.address.0
        } else {
            frame.address.1
        };
        cells.push_word(bytes >> (24 - 8 * (index % 4)), 8)?;
    }
    Ok(())
}

fn push_data(cells: &mut Cells, frame: &Frame) -> Result<(), Memory> {
    cells.push_word(frame.mark >> 8, 16)?;
    push_late(cells, frame, Late::Opening)?;
    cells.push_word(frame.mark, 8)?;
    for index in 0..343u16 {
        let byte = if index == frame.changed.0 {
            frame.changed.1
        } else {
            0x96
        };
        push_late(cells, frame, Late::Nibble(index))?;
        cells.push_word(byte, 8)?;
    }
    Ok(())
}

impl HandMade for Frame {
    fn push(&self, cells: &mut Cells) -> Result<(), Memory> {
        push_header(cells, self)?;
        push_gap(cells, self.gap / 2)?;
        push_middle(cells, self.middle)?;
        push_gap(cells, self.gap - self.gap / 2)?;
        push_data(cells, self)
    }
}

const GOOD: Reading = Reading::Good { sector: 7 };

const BAD: Reading = Reading::Bad { sector: 7 };

/// So many zeros are passed over before these bytes, seven where the byte before ends with a one. One more is the
/// eighth in a row. What is read then comes last.
const PASSED: &[(Late, u16, Reading)] = &[
    (Late::Opening, 6, BAD),
    (Late::Nibble(0), 7, BAD),
    (Late::Nibble(1), 6, BAD),
    (Late::Nibble(171), 6, BAD),
    (Late::Nibble(342), 6, BAD),
    (Late::Address(0), 6, Reading::Nothing),
    (Late::Address(1), 7, Reading::Nothing),
    (Late::Address(2), 6, Reading::Nothing),
    (Late::Address(3), 6, Reading::Nothing),
    (Late::Address(4), 6, Reading::Nothing),
    (Late::Address(5), 7, Reading::Nothing),
    (Late::Address(6), 7, Reading::Nothing),
    (Late::Address(7), 6, Reading::Nothing),
    // The mark stands without a gap.
    (Late::AddressMark, 0, Reading::Nothing),
];

/// What the controller reads, and what is read strictly, where so many zeros stand before a byte.
fn read_late(cells: &mut Cells, byte: Late, count: u16) -> Result<[Reading; 2], Memory> {
    let frame = Frame {
        late: (byte, count),
        ..PLAIN
    };
    cells.clear();
    frame.push(cells)?;
    let mut buffer = SectorBuffer::new();
    Ok([
        AppleGcr::CONTROLLER.read_at(cells, 0, TRACK, &mut buffer),
        AppleGcr::STRICT.read_at(cells, 0, TRACK, &mut buffer),
    ])
}

#[test]
fn passes_over_zeros_as_the_controller_does(rt: HostRuntime) -> Result<(), Fail> {
    let mut cells = Cells::new(rt.alloc());
    for (row, (byte, most, broken)) in PASSED.iter().enumerate() {
        for count in 0..9 {
            let passed = if count <= *most { GOOD } else { *broken };
            let strict = if count == 0 { GOOD } else { *broken };
            let readings = read_late(&mut cells, *byte, count)?;
            assert_eq!(rt; readings, [passed, strict], "row {row}, {count} zeros");
        }
    }
    Ok(())
}

const FRAMES: &[Row<Frame>] = &[
    ("the frame as it is", PLAIN, GOOD),
    (
        "volume 1, check value 6",
        Frame {
            address: (0xAAAB_AAAA, 0xABAF_ABAE),
            ..PLAIN
        },
        GOOD,
    ),
    (
        "volume 1, check value F9",
        Frame {
            address: (0xAAAB_AAAA, 0xABAF_FEFB),
            ..PLAIN
        },
        Reading::Nothing,
    ),
    (
        "track 1, check value F8",
        Frame {
            address: (0xFFFE_AAAB, 0xABAF_FEFA),
            ..PLAIN
        },
        Reading::Nothing,
    ),
    (
        "sector 16, check value EE",
        Frame {
            address: (0xFFFE_AAAA, 0xAABA_FFEE),
            ..PLAIN
        },
        Reading::Nothing,
    ),
    (
        "the volume's first half lacks bit 7",
        Frame {
            address: (0x7FFE_AAAA, 0xABAF_FEFB),
            ..PLAIN
        },
        Reading::Nothing,
    ),
    (
        "the sector's second half lacks bit 7",
        Frame {
            address: (0xFFFE_AAAA, 0xAB2F_FEFB),
            ..PLAIN
        },
        Reading::Nothing,
    ),
    (
        "data 1023 cells behind the header",
        Frame { gap: 1022, ..PLAIN },
        GOOD,
    ),
    (
        "data 1024 cells behind the header",
        Frame { gap: 1023, ..PLAIN },
        BAD,
    ),
    (
        "another mark before that of the data",
        Frame {
            middle: Middle::Mark(0xD5_AAB5),
            ..PLAIN
        },
        BAD,
    ),
    (
        "D5 A9 AD before the mark of the data",
        Frame {
            middle: Middle::Mark(0xD5_A9AD),
            ..PLAIN
        },
        GOOD,
    ),
    (
        "another mark in place of that of the data",
        Frame {
            mark: 0xD5_AAAE,
            ..PLAIN
        },
        BAD,
    ),
    (
        "seven zeros in the gap",
        Frame {
            middle: Middle::Zeros(7),
            ..PLAIN
        },
        GOOD,
    ),
    (
        "eight zeros in the gap",
        Frame {
            middle: Middle::Zeros(8),
            ..PLAIN
        },
        BAD,
    ),
    (
        "a byte that is no nibble",
        Frame {
            changed: (100, 0x95),
            ..PLAIN
        },
        BAD,
    ),
    (
        "a nibble without its first cell",
        Frame {
            changed: (100, 0x16),
            ..PLAIN
        },
        BAD,
    ),
    (
        "another nibble",
        Frame {
            changed: (100, 0x97),
            ..PLAIN
        },
        BAD,
    ),
    (
        "another last nibble",
        Frame {
            changed: (342, 0x97),
            ..PLAIN
        },
        BAD,
    ),
];

#[test]
fn reads_frames_made_by_hand(rt: HostRuntime) -> Result<(), Fail> {
    assert_read(&rt, rt.alloc(), &AppleGcr::STRICT, TRACK, FRAMES)?;
    assert_read(&rt, rt.alloc(), &AppleGcr::CONTROLLER, TRACK, FRAMES)
}

/// Sector 8: the check value is F6.
const NEXT: Frame = Frame {
    address: (0xFFFE_AAAA, 0xAEAA_FBFE),
    ..PLAIN
};

/// The second header stands before the first one's data, which are its own.
const TWO_HEADERS: &[Search] = &[
    (0, Some((0, BAD))),
    (1, Some((88, Reading::Good { sector: 8 }))),
];

/// Without its last cell the frame is not whole.
const CUT: &[Search] = &[(1, Some((88, Reading::Bad { sector: 8 })))];

#[test]
fn reads_headers_without_their_data(rt: HostRuntime) -> Result<(), Fail> {
    let mut cells = Cells::new(rt.alloc());
    push_header(&mut cells, &PLAIN)?;
    NEXT.push(&mut cells)?;
    assert_found(&rt, &AppleGcr::STRICT, TRACK, &cells, TWO_HEADERS);
    assert_found_in_cut(&rt, rt.alloc(), &AppleGcr::STRICT, TRACK, &cells, CUT)
}

const NUMBERS: Numbers = Numbers {
    first: 0,
    sectors: 16,
    size: 256,
    cells: 49994,
    place: 330,
    step: 3104,
};

/// From the place on these bytes stand in the ring, each as eight cells.
fn assert_disk_bytes(rt: &impl Abort, ring: &Cells, place: usize, bytes: &[u8]) {
    let mut at = place;
    for byte in bytes {
        assert_words(rt, ring, &[(at, 8, u32::from(*byte))]);
        at = at.wrapping_add(8);
    }
}

/// The ring with the byte ED in the places of the nibbles 84 and 86.
fn with_pairs_set(alloc: Global, ring: &Cells) -> Result<Cells, Memory> {
    let mut changed = Cells::new(alloc);
    push_part(&mut changed, ring, 0, 1198)?;
    changed.push_word(0xED, 8)?;
    push_part(&mut changed, ring, 1206, 1214)?;
    changed.push_word(0xED, 8)?;
    push_part(&mut changed, ring, 1222, ring.len())?;
    Ok(changed)
}

/// A self-sync before the first address field, and the bytes after the first data field.
const WORDS: &[Word] = &[(320, 10, 0x3FC), (3270, 24, 0xDE_AAEB)];

/// The first address field.
const FIRST_FIELD: &[u8] = &[
    0xD5, 0xAA, 0x96, 0xFF, 0xFE, 0xAA, 0xAA, 0xAA, 0xAA, 0xFF, 0xFE, 0xDE, 0xAA, 0xEB,
];

const JOINED: &[Search] = &[
    (0, Some((330, Reading::Good { sector: 0 }))),
    (331, Some((3434, Reading::Good { sector: 1 }))),
    (96884, Some((96884, Reading::Good { sector: 15 }))),
    (96885, None),
];

/// The first ring's sectors are zeros, and the sectors of both are found, one ring after the other.
fn assert_zeros_joined(
    rt: &impl Abort,
    alloc: Global,
    zeros: &[u8],
    rings: [&Cells; 2],
) -> Result<(), Fail> {
    assert_sectors(rt, &AppleGcr::STRICT, TRACK, &NUMBERS, zeros, rings[0]);
    assert_found_in_joined(rt, alloc, &AppleGcr::STRICT, TRACK, rings, JOINED)
}

#[test]
fn reads_two_joined_rings(rt: HostRuntime) -> Result<(), Fail> {
    let zeros = vec![in rt.alloc(); 0u8; 4096]?;
    let ring = read_back(&rt, rt.alloc(), &AppleGcr::STRICT, TRACK, &NUMBERS, &zeros)?;
    assert_words(&rt, &ring, WORDS);
    assert_disk_bytes(&rt, &ring, 330, FIRST_FIELD);
    assert_disk_bytes(&rt, &ring, 526, &[0x96; 343]);
    assert_zeros_joined(&rt, rt.alloc(), &zeros, [&ring, &ring])?;

    // With the two pairs of bits set that belong to no byte the values 84 and 85 are 30, so that the nibbles 84
    // and 86 code 30, and the nibble 85 codes 0.
    let changed = with_pairs_set(rt.alloc(), &ring)?;
    assert_zeros_joined(&rt, rt.alloc(), &zeros, [&changed, &ring])
}

/// Sector 0 begins with the byte 01, and has 02 at 87, 03 at 174 and 80 at 255.
fn content_byte(index: u16) -> u8 {
    match index {
        0 => 0x01,
        87 => 0x02,
        174 => 0x03,
        255 => 0x80,
        1..256 => 0x00,
        _ => (index % 251) as u8,
    }
}

fn content(alloc: Global) -> Result<Vec<u8>, AllocError> {
    let mut bytes = Vec::new(alloc);
    for index in 0..4096 {
        bytes.push(content_byte(index))?;
    }
    Ok(bytes)
}

const LAST_TRACK: TrackId = TrackId {
    cylinder: 34,
    head: 0,
};

#[test]
fn reads_each_sector_back(rt: HostRuntime) -> Result<(), Fail> {
    let bytes = content(rt.alloc())?;
    let ring = read_back(
        &rt,
        rt.alloc(),
        &AppleGcr::STRICT,
        LAST_TRACK,
        &NUMBERS,
        &bytes,
    )?;

    // So the values 0, 1, 2 and 341 are 02, 04, 30 and 20, and the first nibbles code 02, 02 ^ 04, 04 ^ 30, 30.
    assert_disk_bytes(&rt, &ring, 526, &[0x9A, 0x9F, 0xF3, 0xED, 0x96]);
    assert_disk_bytes(&rt, &ring, 3246, &[0x96, 0xD6, 0xD6]);

    // These are another track's headers.
    assert_found(&rt, &AppleGcr::STRICT, TRACK, &ring, &[(0, None)]);
    Ok(())
}
