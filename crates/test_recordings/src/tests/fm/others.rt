//! Headers of none of the track's sectors.
use super::super::frames::{HandMade, Other, Rewritten, assert_others, assert_rewritten};
use super::{DISK, Frame, PLAIN, TRACK, push_header};
use cell_bits::Cells;
use flux_base::{HeaderName, Memory};
use std::test::Fail;

const OTHERS: &[Other<Frame>] = &[
    (
        "another cylinder",
        Frame {
            cylinder: 5,
            ..PLAIN
        },
        HeaderName::Address {
            cylinder: 5,
            head: 0,
            sector: 7,
            size_code: 0,
        },
        true,
    ),
    (
        "another cylinder, and another check value of the data",
        Frame {
            cylinder: 5,
            data_error: 1,
            ..PLAIN
        },
        HeaderName::Address {
            cylinder: 5,
            head: 0,
            sector: 7,
            size_code: 0,
        },
        false,
    ),
    (
        "sector 27",
        Frame {
            sector: 27,
            ..PLAIN
        },
        HeaderName::Address {
            cylinder: 0,
            head: 0,
            sector: 27,
            size_code: 0,
        },
        true,
    ),
    (
        "code 3, and 1024 bytes",
        Frame {
            size: 3,
            bytes: 1024,
            ..PLAIN
        },
        HeaderName::Address {
            cylinder: 0,
            head: 0,
            sector: 7,
            size_code: 3,
        },
        true,
    ),
    (
        "code 3, and 128 bytes",
        Frame { size: 3, ..PLAIN },
        HeaderName::Address {
            cylinder: 0,
            head: 0,
            sector: 7,
            size_code: 3,
        },
        false,
    ),
    (
        "no data within reach",
        Frame {
            cylinder: 5,
            gap: 1024,
            ..PLAIN
        },
        HeaderName::Address {
            cylinder: 5,
            head: 0,
            sector: 7,
            size_code: 0,
        },
        false,
    ),
];

#[test]
fn tells_headers_of_no_sector(rt: HostRuntime) -> Result<(), Fail> {
    assert_others(&rt, rt.alloc(), &DISK, TRACK, OTHERS)
}

/// The code of a length, so many bytes of data, the cells of the last one, and whether data as
/// long as the code tells stand.
const LONG_DATA: &[(u8, u16, u32, bool)] = &[
    (4, 2048, 0xFFFF, true),
    (4, 2048, 0xFFFE, false),
    (4, 1024, 0xFFFF, false),
    (5, 4096, 0xFFFF, true),
    (5, 4096, 0xFFFE, false),
    (5, 2048, 0xFFFF, false),
    (6, 8192, 0xFFFF, true),
    (6, 8192, 0xFFFE, false),
    (6, 4096, 0xFFFF, false),
    (7, 16384, 0xFFFF, false),
];

/// Data may have more bytes than any sector of a format, up to 8192. Where one of their
/// cells is another, there are none.
#[test]
fn tells_data_longer_than_a_sector(rt: HostRuntime) -> Result<(), Fail> {
    for (size, bytes, last_cells, whole) in LONG_DATA {
        let frame = Frame {
            size: *size,
            bytes: *bytes,
            last_cells: *last_cells,
            ..PLAIN
        };
        let name = HeaderName::Address {
            cylinder: 0,
            head: 0,
            sector: 7,
            size_code: *size,
        };
        assert_others(
            &rt,
            rt.alloc(),
            &DISK,
            TRACK,
            &[("long data", frame, name, *whole)],
        )?;
    }
    Ok(())
}

/// A header, and a frame of another after it.
struct HeaderBefore(Frame);

impl HandMade for HeaderBefore {
    fn push(&self, cells: &mut Cells) -> Result<(), Memory> {
        push_header(cells, &PLAIN)?;
        self.0.push(cells)
    }
}

/// A header whose check value is right ends the search, whatever it names; any other is a false mark.
const BEFORE_HEADERS: &[Rewritten<HeaderBefore>] = &[
    (
        "sector 8's data",
        HeaderBefore(Frame { sector: 8, ..PLAIN }),
        None,
    ),
    (
        "data of a header that names no sector",
        HeaderBefore(Frame {
            sector: 66,
            ..PLAIN
        }),
        None,
    ),
    (
        "data behind another check value",
        HeaderBefore(Frame {
            sector: 66,
            header_error: 1,
            ..PLAIN
        }),
        Some(496),
    ),
];

#[test]
fn data_belong_to_the_nearest_header(rt: HostRuntime) -> Result<(), Fail> {
    assert_rewritten(&rt, rt.alloc(), &DISK, TRACK, BEFORE_HEADERS)
}
