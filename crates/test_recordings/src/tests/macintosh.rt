//! The Macintosh's disks.
use super::frames::{
    HandMade, Other, Row, Search, assert_found_in_cut, assert_others, assert_read, push_cells,
    push_gap,
};
use super::rings::{
    Numbers, Word, assert_found_in_joined, assert_words, read_back, read_back_by_chance,
};
use cell_bits::Cells;
use flux_base::{HeaderName, Memory, TrackId};
use frame_law::Reading;
use macintosh_gcr::MacintoshGcr;
use std::test::Fail;

const TRACK: TrackId = TrackId {
    cylinder: 64,
    head: 1,
};

/// A header and a data field, made by hand.
#[derive(Clone, Copy)]
struct Frame {
    /// The first four bytes after D5 AA 96, and the fifth.
    header: (u32, u32),
    /// So many cells stand between the fields, half of them before zeros between ones.
    gap: u16,
    zeros: u16,
    /// What opens the data.
    mark: u32,
    content: Content,
    /// Of the 704 bytes of the data one is another, by its index and its byte.
    changed: (usize, u32),
}

/// The bytes of the sector are zeros.
#[derive(Clone, Copy)]
enum Content {
    /// So are the tags: all sums stay zeros, and all nibbles are 96.
    Zeros,
    /// The first tag is 1, and so then is the sum `c`: stored are 1 and 1, and then 1 as the second byte of each group.
    /// The check values are 0, 1, 0 and 0.
    FirstTag,
}

impl Content {
    /// The nibble at the index: that of the sector first.
    fn nibble(self, index: usize) -> u32 {
        match (self, index) {
            (_, 0) => 0x9B,
            (Content::Zeros, _) => 0x96,
            (Content::FirstTag, 2 | 701) => 0x97,
            (Content::FirstTag, _) if index < 700 && index % 4 == 3 => 0x97,
            (Content::FirstTag, _) => 0x96,
        }
    }
}

/// Cylinder 64, head 1, sector 3: the values are 0, 3, 32 + 1, and 22 for two heads, and the check value is 0.
const PLAIN: Frame = Frame {
    header: (0x969B_D7D9, 0x96),
    gap: 62,
    zeros: 1,
    mark: 0xD5_AAAD,
    content: Content::Zeros,
    changed: (0, 0x9B),
};

fn push_data(cells: &mut Cells, frame: &Frame) -> Result<(), Memory> {
    cells.push_word(frame.mark, 24)?;
    for index in 0..704 {
        let byte = if index == frame.changed.0 {
            frame.changed.1
        } else {
            frame.content.nibble(index)
        };
        cells.push_word(byte, 8)?;
    }
    Ok(())
}

impl HandMade for Frame {
    fn push(&self, cells: &mut Cells) -> Result<(), Memory> {
        cells.push_word(0xD5_AA96, 24)?;
        cells.push_word(self.header.0, 32)?;
        cells.push_word(self.header.1, 8)?;
        push_gap(cells, self.gap / 2)?;
        push_cells(cells, self.zeros, false)?;
        push_gap(cells, self.gap - self.gap / 2)?;
        push_data(cells, self)
    }
}

const GOOD: Reading = Reading::Good { sector: 3 };

const BAD: Reading = Reading::Bad { sector: 3 };

const FRAMES: &[Row<Frame>] = &[
    ("the frame as it is", PLAIN, GOOD),
    (
        "the format of a disk of one head, check value 20",
        Frame {
            header: (0x969B_D79A, 0xD6),
            ..PLAIN
        },
        GOOD,
    ),
    (
        "another check value of the header",
        Frame {
            header: (0x969B_D7D9, 0x97),
            ..PLAIN
        },
        Reading::Nothing,
    ),
    (
        "head 0, check value 20",
        Frame {
            header: (0x969B_97D9, 0xD6),
            ..PLAIN
        },
        Reading::Nothing,
    ),
    (
        "cylinder 0, check value 1",
        Frame {
            header: (0x969B_D6D9, 0x97),
            ..PLAIN
        },
        Reading::Nothing,
    ),
    (
        "sector 8 of eight, check value B",
        Frame {
            header: (0x96A7_D7D9, 0xAD),
            ..PLAIN
        },
        Reading::Nothing,
    ),
    (
        "data 1023 cells behind the header",
        Frame { gap: 1022, ..PLAIN },
        GOOD,
    ),
    (
        "data 1024 cells behind the header",
        Frame { gap: 1023, ..PLAIN },
        BAD,
    ),
    ("seven zeros in the gap", Frame { zeros: 7, ..PLAIN }, GOOD),
    ("eight zeros in the gap", Frame { zeros: 8, ..PLAIN }, BAD),
    (
        "another mark",
        Frame {
            mark: 0xD5_AAAE,
            ..PLAIN
        },
        BAD,
    ),
    (
        "the data of another sector",
        Frame {
            changed: (0, 0x9D),
            ..PLAIN
        },
        BAD,
    ),
    (
        "a byte that is no nibble",
        Frame {
            changed: (100, 0x95),
            ..PLAIN
        },
        BAD,
    ),
    (
        "another nibble",
        Frame {
            changed: (100, 0x97),
            ..PLAIN
        },
        BAD,
    ),
    (
        "spare bits set",
        Frame {
            changed: (697, 0x9B),
            ..PLAIN
        },
        GOOD,
    ),
    (
        "the check values' top bits",
        Frame {
            changed: (700, 0x97),
            ..PLAIN
        },
        BAD,
    ),
    (
        "the check value of c",
        Frame {
            changed: (701, 0x97),
            ..PLAIN
        },
        BAD,
    ),
    (
        "the check value of b",
        Frame {
            changed: (702, 0x97),
            ..PLAIN
        },
        BAD,
    ),
    (
        "the check value of a",
        Frame {
            changed: (703, 0x97),
            ..PLAIN
        },
        BAD,
    ),
    (
        "a tag",
        Frame {
            content: Content::FirstTag,
            ..PLAIN
        },
        GOOD,
    ),
];

const OTHERS: &[Other<Frame>] = &[
    (
        "head 0, check value 20",
        Frame {
            header: (0x969B_97D9, 0xD6),
            ..PLAIN
        },
        HeaderName::TrackSectorSide {
            track: 0,
            sector: 3,
            side: 1,
            format: 0x22,
        },
        true,
    ),
    (
        "sector 8 of eight, check value B, whose data name sector 3",
        Frame {
            header: (0x96A7_D7D9, 0xAD),
            ..PLAIN
        },
        HeaderName::TrackSectorSide {
            track: 0,
            sector: 8,
            side: 33,
            format: 0x22,
        },
        false,
    ),
];

#[test]
fn tells_headers_of_no_sector(rt: HostRuntime) -> Result<(), Fail> {
    assert_others(&rt, rt.alloc(), &MacintoshGcr::DoubleSided, TRACK, OTHERS)
}

#[test]
fn reads_frames_made_by_hand(rt: HostRuntime) -> Result<(), Fail> {
    assert_read(&rt, rt.alloc(), &MacintoshGcr::DoubleSided, TRACK, FRAMES)
}

/// Without its last cell the frame is not whole.
const CUT: &[Search] = &[(0, Some((0, BAD)))];

#[test]
fn reads_no_sector_that_is_cut(rt: HostRuntime) -> Result<(), Fail> {
    let mut cells = Cells::new(rt.alloc());
    PLAIN.push(&mut cells)?;
    assert_found_in_cut(
        &rt,
        rt.alloc(),
        &MacintoshGcr::DoubleSided,
        TRACK,
        &cells,
        CUT,
    )
}

const NUMBERS: Numbers = Numbers {
    first: 0,
    sectors: 8,
    size: 512,
    cells: 51384,
    place: 160,
    step: 5988,
};

/// The header of sector 0, whose check value is 3, and what closes it, its data's mark and first nibbles, and what
/// closes them; the self-syncs before the first header and after the last sector.
const WORDS: &[Word] = &[
    (0, 10, 0x3FC),
    (150, 10, 0x3FC),
    (160, 24, 0xD5_AA96),
    (184, 32, 0x9696_D7D9),
    (216, 8, 0x9B),
    (224, 24, 0xDE_AAFF),
    (248, 10, 0x3FC),
    (308, 24, 0xD5_AAAD),
    (332, 16, 0x9696),
    (5964, 24, 0xDE_AAFF),
    (47904, 10, 0x3FC),
    (51374, 10, 0x3FC),
];

const JOINED: &[Search] = &[
    (0, Some((160, Reading::Good { sector: 0 }))),
    (161, Some((6148, Reading::Good { sector: 1 }))),
    (93460, Some((93460, Reading::Good { sector: 7 }))),
    (93461, None),
];

#[test]
fn reads_two_joined_rings(rt: HostRuntime) -> Result<(), Fail> {
    let zeros = vec![in rt.alloc(); 0u8; 4096]?;
    let ring = read_back(
        &rt,
        rt.alloc(),
        &MacintoshGcr::DoubleSided,
        TRACK,
        &NUMBERS,
        &zeros,
    )?;
    assert_words(&rt, &ring, WORDS);
    assert_found_in_joined(
        &rt,
        rt.alloc(),
        &MacintoshGcr::DoubleSided,
        TRACK,
        [&ring, &ring],
        JOINED,
    )
}

/// A track of each zone, with its sectors and cells.
const TRACKS: [((u8, u8), (u8, u32)); 5] = [
    ((0, 0), (12, 76946)),
    ((31, 1), (11, 70688)),
    ((32, 0), (10, 64230)),
    ((63, 1), (9, 57742)),
    ((79, 1), (8, 51384)),
];

#[test]
fn reads_its_rings_of_each_zone(rt: HostRuntime) -> Result<(), Fail> {
    let disk = MacintoshGcr::DoubleSided;
    for ((cylinder, head), (sectors, cells)) in TRACKS {
        assert!(rt; cylinder < 80);
        assert!(rt; head < 2);
        let track = TrackId { cylinder, head };
        let numbers = Numbers {
            sectors,
            cells,
            ..NUMBERS
        };
        read_back_by_chance(&rt, rt.alloc(), &disk, track, &numbers)?;
    }
    Ok(())
}

#[test]
fn reads_a_ring_of_a_disk_with_one_head(rt: HostRuntime) -> Result<(), Fail> {
    let track = TrackId {
        cylinder: 16,
        head: 0,
    };
    let numbers = Numbers {
        sectors: 11,
        cells: 70688,
        ..NUMBERS
    };
    read_back_by_chance(&rt, rt.alloc(), &MacintoshGcr::SingleSided, track, &numbers)?;
    Ok(())
}
