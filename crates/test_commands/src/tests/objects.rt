//! Objects that fail, and inputs that are no disk.
use super::input::Part;
use super::{Failing, NONE, Row, TURNS, comes_true};
use flux_base::Status;
use std::test::Fail;

const NO_STREAM: Row = Row {
    name: "the first track of a disk has no stream",
    input: &[],
    status: Status::Refused,
    image: "",
    notes: "refused track 0 block 0 Truncated\n",
    calls: Some((1, 0, 1)),
    ..TURNS
};

/// The line names the bytes that were read.
const NO_IMAGE: Row = Row {
    name: "an image of another size",
    words: &["write", "amiga"],
    notes: "refused image 0 wanted 901120\n",
    ..NO_STREAM
};

const ROWS: &[Row] = &[
    Row {
        name: "the first write fails",
        failing: Failing {
            image: Some(0),
            ..NONE
        },
        status: Status::ImageFault,
        image: "",
        calls: Some((8, 1, 0)),
        ..TURNS
    },
    Row {
        name: "the second write fails",
        failing: Failing {
            image: Some(1),
            ..NONE
        },
        status: Status::ImageFault,
        image: "transitions 2\n",
        ..TURNS
    },
    Row {
        name: "a note fails",
        input: &[Part::End],
        failing: Failing {
            notes: Some(0),
            ..NONE
        },
        status: Status::NotesFault,
        image: "",
        calls: Some((1, 0, 1)),
        ..TURNS
    },
    Row {
        words: &["decode", "ibm-3740"],
        ..NO_STREAM
    },
    Row {
        words: &["report", "ibm-1440"],
        ..NO_STREAM
    },
    NO_IMAGE,
    // No file is looked for, and nothing is made.
    Row {
        words: &["write", "--folder", "out", "amiga"],
        ..NO_IMAGE
    },
    // A read and the write of the line that fail leave nothing.
    Row {
        name: "an image of another size, and a read fails",
        input: &[Part::End],
        chunk: 2,
        failing: Failing {
            source: Some(1),
            ..NONE
        },
        status: Status::ReadFault,
        notes: "",
        calls: Some((2, 0, 0)),
        ..NO_IMAGE
    },
    Row {
        name: "an image of another size, and the line fails",
        input: &[Part::End],
        chunk: 2,
        failing: Failing {
            notes: Some(0),
            ..NONE
        },
        status: Status::NotesFault,
        notes: "",
        calls: Some((3, 0, 1)),
        ..NO_IMAGE
    },
];

#[test]
fn objects_that_fail_and_inputs_that_are_no_disk(rt: HostRuntime) -> Result<(), Fail> {
    for row in ROWS {
        comes_true(&rt, rt.alloc(), row)?;
    }
    Ok(())
}

#[test]
fn each_read_fails(rt: HostRuntime) -> Result<(), Fail> {
    for call in 0..8 {
        let row = Row {
            name: "a read fails",
            failing: Failing {
                source: Some(call),
                ..NONE
            },
            status: Status::ReadFault,
            image: "",
            calls: Some((call + 1, 0, 0)),
            ..TURNS
        };
        comes_true(&rt, rt.alloc(), &row)?;
    }
    Ok(())
}
