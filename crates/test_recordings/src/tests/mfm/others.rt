//! Headers of none of the track's sectors.
use super::super::frames::{Other, assert_others};
use super::{DISK, Frame, PLAIN, TRACK};
use flux_base::HeaderName;
use std::test::Fail;

const OTHERS: &[Other<Frame>] = &[
    (
        "head 1",
        Frame { head: 1, ..PLAIN },
        HeaderName::Address {
            cylinder: 0,
            head: 1,
            sector: 7,
            size_code: 2,
        },
        true,
    ),
    (
        "head 1, and F9 as the first byte of the data",
        Frame {
            head: 1,
            first: 0xF9,
            ..PLAIN
        },
        HeaderName::Address {
            cylinder: 0,
            head: 1,
            sector: 7,
            size_code: 2,
        },
        false,
    ),
    (
        "code 0, and 128 bytes",
        Frame {
            size: 0,
            bytes: 128,
            ..PLAIN
        },
        HeaderName::Address {
            cylinder: 0,
            head: 0,
            sector: 7,
            size_code: 0,
        },
        true,
    ),
    (
        "code 3, and 1024 bytes",
        Frame {
            size: 3,
            bytes: 1024,
            ..PLAIN
        },
        HeaderName::Address {
            cylinder: 0,
            head: 0,
            sector: 7,
            size_code: 3,
        },
        true,
    ),
    (
        "code 3, and 512 bytes",
        Frame { size: 3, ..PLAIN },
        HeaderName::Address {
            cylinder: 0,
            head: 0,
            sector: 7,
            size_code: 3,
        },
        false,
    ),
];

#[test]
fn tells_headers_of_no_sector(rt: HostRuntime) -> Result<(), Fail> {
    assert_others(&rt, rt.alloc(), &DISK, TRACK, OTHERS)
}

/// The code of a length, so many bytes of data, the cells of the last one, and whether data as
/// long as the code tells stand.
const LONG_DATA: &[(u8, u16, u32, bool)] = &[
    (4, 2048, 0x5555, true),
    (4, 2048, 0x5554, false),
    (4, 1024, 0x5555, false),
    (5, 4096, 0x5555, true),
    (5, 4096, 0x5554, false),
    (5, 2048, 0x5555, false),
    (6, 8192, 0x5555, true),
    (6, 8192, 0x5554, false),
    (6, 4096, 0x5555, false),
    (7, 16384, 0x5555, false),
];

/// Data may have more bytes than any sector of a format, up to 8192. Where one of their
/// cells is another, there are none.
#[test]
fn tells_data_longer_than_a_sector(rt: HostRuntime) -> Result<(), Fail> {
    for (size, bytes, last_cells, whole) in LONG_DATA {
        let frame = Frame {
            size: *size,
            bytes: *bytes,
            last_cells: *last_cells,
            ..PLAIN
        };
        let name = HeaderName::Address {
            cylinder: 0,
            head: 0,
            sector: 7,
            size_code: *size,
        };
        assert_others(
            &rt,
            rt.alloc(),
            &DISK,
            TRACK,
            &[("long data", frame, name, *whole)],
        )?;
    }
    Ok(())
}
