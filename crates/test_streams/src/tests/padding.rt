//! What stands between two streams of one input.
use super::{Came, Input, ONE_TURN, Reader, TRUNCATED, TURN, comes_to};
use kryo_stream::{StreamFault, TrackFault};
use std::alloc::Global;
use std::process::Abort;
use std::test::Fail;

/// Behind one turn stand so many bytes 0D, of which at most 16 may be padding, and these parts. What the second stream
/// comes to.
type Row = (&'static str, usize, &'static [&'static [u8]], Came);

const ROWS: &[Row] = &[
    ("no padding", 0, &[ONE_TURN], TURN),
    ("padding", 3, &[ONE_TURN], TURN),
    ("the end", 0, &[], TRUNCATED),
    ("padding at the end", 2, &[], TRUNCATED),
    // Only the first 0D before a byte 60 is padding: the second one begins a block of the type 60.
    ("0D 60", 1, &[b"\x60", ONE_TURN], UNKNOWN),
    ("0D 0D 60", 2, &[b"\x60\x60\x60", ONE_TURN], UNKNOWN),
    // A transition has no padding before it, and is counted from the first byte.
    ("transitions", 0, &[b"\x60\x60", ONE_TURN], LATE),
    // Of 15 and of 16 bytes before a block all are padding, of 17 the first 16: the last one
    // begins a block of the type 0D.
    ("15 bytes", 15, &[ONE_TURN], TURN),
    ("16 bytes", 16, &[ONE_TURN], TURN),
    ("17 bytes", 17, &[ONE_TURN], SIZED),
    ("16 bytes at the end", 16, &[], TRUNCATED),
    ("17 bytes at the end", 17, &[], TRUNCATED),
    ("20 bytes", 20, &[], TURNLESS),
];

const UNKNOWN: Came = Came {
    answer: Err(TrackFault::Refused {
        block: 0,
        fault: StreamFault::UnknownType(0x60),
    }),
    ..TRUNCATED
};

const LATE: Came = Came {
    answer: Err(TrackFault::Refused {
        block: 6,
        fault: StreamFault::WrongPosition {
            said: 2,
            counted: 4,
        },
    }),
    ..TRUNCATED
};

const SIZED: Came = Came {
    answer: Err(TrackFault::Refused {
        block: 0,
        fault: StreamFault::BadSize(0x0C02),
    }),
    ..TRUNCATED
};

const TURNLESS: Came = Came {
    answer: Err(TrackFault::Refused {
        block: 0,
        fault: StreamFault::NoTurn,
    }),
    ..TRUNCATED
};

fn reads_on(rt: &impl Abort, alloc: Global, row: &Row, chunk: u32) -> Result<(), Fail> {
    let (name, count, parts, wanted) = row;
    let mut reader = Reader::new(
        alloc,
        &Input {
            front: ONE_TURN,
            count: *count,
            byte: 0x0D,
            parts,
            chunk,
            failing: &[],
        },
    )?;
    comes_to(rt, reader.read(), &reader.flux, &TURN, name, chunk);
    comes_to(rt, reader.read(), &reader.flux, wanted, name, chunk);
    Ok(())
}

#[test]
fn a_stream_begins_behind_at_most_sixteen_bytes(rt: HostRuntime) -> Result<(), Fail> {
    for row in ROWS {
        reads_on(&rt, rt.alloc(), row, 1)?;
        reads_on(&rt, rt.alloc(), row, 4096)?;
    }
    Ok(())
}
