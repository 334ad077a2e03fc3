//! Streams through `turns` in pieces: those of one read are rows of `.ci/rows`.
use super::input::Part::{Bytes, End, Index, Text, TwoTransitions};
use super::{Row, TURNS, comes_true};
use std::test::Fail;

// The stream's 50 bytes are read once each: after its End the source is not asked again.
const IN_PIECES: &[Row] = &[
    Row {
        chunk: 1,
        calls: Some((50, 2, 0)),
        ..TURNS
    },
    Row {
        chunk: 2,
        calls: Some((25, 2, 0)),
        ..TURNS
    },
    Row {
        chunk: 3,
        calls: Some((17, 2, 0)),
        ..TURNS
    },
    TURNS,
    Row {
        chunk: 4096,
        calls: Some((1, 2, 0)),
        ..TURNS
    },
    // Byte 1 lies inside the first block of two bytes, which begins at time 0; byte 2 begins the next block.
    Row {
        name: "an Index block inside a block",
        input: &[
            Bytes(&[1, 0, 2, 0]),
            Index(1, 3),
            Index(2, 0),
            Index(4, 0),
            End,
        ],
        chunk: 1,
        image: "transitions 2\nturn 1 253\nturn 2 512\n",
        calls: None,
        ..TURNS
    },
    Row {
        name: "a text longer than an intake",
        input: &[Text, TwoTransitions],
        chunk: 1000,
        calls: None,
        ..TURNS
    },
];

#[test]
fn streams_in_pieces(rt: HostRuntime) -> Result<(), Fail> {
    for row in IN_PIECES {
        comes_true(&rt, rt.alloc(), row)?;
    }
    Ok(())
}
