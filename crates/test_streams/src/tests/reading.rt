//! One stream, streams one after another, and sources that fail.
use super::{Came, Input, ONE_TURN, Reader, TRUNCATED, TURN, comes_to, holds};
use flux_base::MemorySource;
use kryo_stream::{CaptureFault, StreamFault, StreamRoom, TrackFault};
use std::alloc::Global;
use std::process::Abort;
use std::test::Fail;

/// An Index, 17 transitions of one byte, one of two and one of three, an Overflow, a transition of one byte, a Nop of
/// three bytes, a transition of two bytes and one of one, an Index behind the transition of two bytes, and one behind
/// all. 17 bytes are more than are looked at at once.
const MIXED: &[u8] =
    b"\x0D\x02\x0C\0\0\0\0\0\0\0\0\0\0\0\0\0\x60\x60\x60\x60\x60\x60\x60\x60\x60\x60\x60\x60\x60\x60\x60\x60\x60\
    \x01\x20\x0C\x10\0\x0B\x0E\x0A\0\0\0\x05\xFF\x0D\x02\x0C\0\x13\0\0\0\x07\0\0\0\0\0\0\0\
    \x0D\x02\x0C\0\x1E\0\0\0\0\0\0\0\0\0\0\0\x0D\x0D\x0D\x0D";

/// The front of an Info with the longest text, which is longer than what an intake holds.
const TEXT: &[u8] = b"\x0D\x04\xFF\xFF";

/// One turn that ends inside its second Index.
const CUT: &[u8] = b"\x0D\x02\x0C\0\0\0\0\0\0\0\0\0\0\0\0\0\x60\x60\x0D\x02";

struct Row {
    name: &'static str,
    /// The input: its front, so many blanks, and its other parts.
    front: &'static [u8],
    blanks: usize,
    parts: &'static [&'static [u8]],
    /// The sizes of chunks in which it comes.
    chunks: &'static [u32],
    /// The numbers of the reads that fail.
    failing: &'static [u64],
    wanted: Came,
}

const PLAIN: Row = Row {
    name: "one turn",
    front: ONE_TURN,
    blanks: 0,
    parts: &[],
    chunks: &[1, 2, 3, 5, 7, 4096],
    failing: &[],
    wanted: TURN,
};

const ROWS: &[Row] = &[
    PLAIN,
    Row {
        name: "transitions of every length",
        front: MIXED,
        chunks: &[1, 2, 3, 17, 34, 36, 4096],
        wanted: Came {
            answer: Ok(()),
            times: &[
                96, 192, 288, 384, 480, 576, 672, 768, 864, 960, 1056, 1152, 1248, 1344, 1440,
                1536, 1632, 1920, 6016, 71566, 71571, 71826,
            ],
            indexes: &[0, 1927, 71826],
        },
        ..PLAIN
    },
    Row {
        name: "a long text",
        front: TEXT,
        blanks: 65535,
        parts: &[ONE_TURN],
        chunks: &[4096],
        ..PLAIN
    },
    Row {
        name: "a text that ends too early",
        front: TEXT,
        blanks: 65534,
        chunks: &[4096],
        wanted: TRUNCATED,
        ..PLAIN
    },
    Row {
        name: "a source that fails",
        front: CUT,
        chunks: &[7],
        failing: &[2],
        wanted: Came {
            answer: Err(TrackFault::ReadFault),
            ..TRUNCATED
        },
        ..PLAIN
    },
    Row {
        name: "a source that ends too early",
        front: CUT,
        chunks: &[7],
        wanted: Came {
            answer: Err(TrackFault::Refused {
                block: 3,
                fault: StreamFault::Truncated,
            }),
            ..TRUNCATED
        },
        ..PLAIN
    },
];

fn comes_to_its_track(rt: &impl Abort, alloc: Global, row: &Row, chunk: u32) -> Result<(), Fail> {
    let input = Input {
        front: row.front,
        count: row.blanks,
        byte: 0x20,
        parts: row.parts,
        chunk,
        failing: row.failing,
    };
    let mut reader = Reader::new(alloc, &input)?;
    comes_to(
        rt,
        reader.read(),
        &reader.flux,
        &row.wanted,
        row.name,
        chunk,
    );
    Ok(())
}

#[test]
fn streams_come_to_their_tracks_in_chunks_of_any_size(rt: HostRuntime) -> Result<(), Fail> {
    for row in ROWS {
        for chunk in row.chunks {
            comes_to_its_track(&rt, rt.alloc(), row, *chunk)?;
        }
    }
    Ok(())
}

/// Reads so many turns from two in chunks of a size, and compares how often the source was called.
fn calls_its_source(
    rt: &impl Abort,
    alloc: Global,
    chunk: u32,
    turns: u32,
    calls: u64,
) -> Result<(), Fail> {
    let input = Input {
        front: ONE_TURN,
        count: 0,
        byte: 0,
        parts: &[ONE_TURN],
        chunk,
        failing: &[],
    };
    let mut source = MemorySource::new(input.bytes(alloc)?, chunk.max(1), Vec::new(alloc));
    let mut room = StreamRoom::reserve(alloc)?;
    for _ in 0..turns {
        reads_a_turn(rt, &mut room, &mut source, chunk);
    }
    assert_eq!(rt; source.calls(), calls, "in chunks of {chunk}");
    Ok(())
}

fn reads_a_turn(rt: &impl Abort, room: &mut StreamRoom, source: &mut MemorySource, chunk: u32) {
    let answer: Result<(), CaptureFault> = room.read(source);
    assert_eq!(rt; answer, Ok(()));
    holds(rt, room.flux(), &TURN, "a turn", chunk);
}

// The second stream is held when the first was read, and a source of single bytes is left at its End.
#[test]
fn reads_only_where_the_bytes_at_hand_do_not_tell(rt: HostRuntime) -> Result<(), Fail> {
    calls_its_source(&rt, rt.alloc(), 4096, 2, 1)?;
    calls_its_source(&rt, rt.alloc(), 1, 1, ONE_TURN.len() as u64)
}
