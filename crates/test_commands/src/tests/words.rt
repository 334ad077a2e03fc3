//! Words that are a command, and words that are none.
use super::{Ended, Failing, NONE, Row, TURNS, comes_true, run_of};
use flux_base::Status;
use std::process::Abort;
use std::test::Fail;

/// Nothing is read, and the notes get the usage line.
const NO_COMMAND: Row = Row {
    name: "no command",
    words: &[],
    status: Status::Usage,
    image: "",
    notes: "usage: flux turns | decode FORMAT | report FORMAT | write FORMAT | trial FORMAT SEED | to-g64 FORMAT | from-g64 FORMAT | decode-set FORMAT COUNT | decode-folder FORMAT FOLDER\n",
    calls: Some((0, 0, 1)),
    ..TURNS
};

const NO_COMMANDS: &[&[&str]] = &[
    &[],
    &[""],
    &["turn"],
    &["turns", "now"],
    &["decode"],
    &["decode", "amigo"],
    &["report", "ibm-3740", "now"],
    &["write"],
    &["decode-folder", "amiga"],
    &["decode-folder", "amiga", ""],
    &["decode-folder", "amigo", "dump"],
    &["decode-folder", "amiga", "dump", "dump"],
    &["-help"],
    &["--help", "map"],
    &["maps", "amigo"],
    &["trial", "amiga"],
    &["trial", "amigo", "1"],
    &["trail", "amiga", "1"],
    &["trial", "amiga", "1", "2"],
    // Seeds that are none.
    &["trial", "amiga", ""],
    &["trial", "amiga", "4294967296"],
    &["trial", "amiga", "9999999999"],
    &["trial", "amiga", "00000000001"],
    &["trial", "amiga", "+1"],
    &["trial", "amiga", "-1"],
    &["trial", "amiga", "1x"],
    &["trial", "amiga", " 1"],
    &["decode-set", "amiga"],
    &["decode-set", "amigo", "2"],
    &["decode-sets", "amiga", "2"],
    // Counts that are none.
    &["decode-set", "amiga", ""],
    &["decode-set", "amiga", "0"],
    &["decode-set", "amiga", "00"],
    &["decode-set", "amiga", "17"],
    &["decode-set", "amiga", "20"],
    &["decode-set", "amiga", "99"],
    &["decode-set", "amiga", "001"],
    &["decode-set", "amiga", "016"],
    &["decode-set", "amiga", "1 "],
    &["decode-set", "amiga", "-1"],
    &["decode-set", "amiga", "+1"],
    &["decode-set", "amiga", "2x"],
];

#[test]
fn words_that_are_no_command(rt: HostRuntime) -> Result<(), Fail> {
    for words in NO_COMMANDS {
        comes_true(
            &rt,
            rt.alloc(),
            &Row {
                words,
                ..NO_COMMAND
            },
        )?;
    }
    Ok(())
}

/// What is told of wrong words behind `read`.
const READ: &str = "usage: flux read [--picture] [--double-step] FORMAT DUMP...\n";

/// And behind `show`.
const SHOW: &str = "usage: flux show [--double-step] [--copy N] FORMAT TRACK SECTOR DUMP...\n";

/// After a command that the usage line does not name: the words, and what is told of them in its place.
const TOLD: &[(&[&str], &str, u64)] = &[
    (&["map"], "usage: flux map FORMAT\n", 1),
    (&["map", "amiga", "now"], "usage: flux map FORMAT\n", 1),
    (&["map", "amigo"], "no format amigo; nearest: amiga\n", 3),
    (
        &["map", "ibm720", "now"],
        "no format ibm720; nearest: ibm-720\n",
        3,
    ),
    (&["show"], SHOW, 1),
    (&["show", "ibm-3740", "00.0", "27", "a"], SHOW, 1),
    (&["show", "ibm-3740", "77.0", "01", "a"], SHOW, 1),
    (&["show", "ibm-3740", "000.0", "01", "a"], SHOW, 1),
    (&["show", "ibm-3740", "0.1", "1", "a"], SHOW, 1),
    (&["show", "ibm-3740", "0.00", "1", "a"], SHOW, 1),
    (&["show", "ibm-3740", "0", "1", "a"], SHOW, 1),
    (&["show", "ibm-3740", ".0", "1", "a"], SHOW, 1),
    (&["show", "ibm-3740", "+1.0", "1", "a"], SHOW, 1),
    (&["show", "ibm-3740", "0.0", "0001", "a"], SHOW, 1),
    (&["show", "ibm-3740", "0.0", "0", "a"], SHOW, 1),
    (&["show", "ibm-3740", "0.0", "", "a"], SHOW, 1),
    (
        &["show", "--copy", "16", "ibm-3740", "00.0", "01", "a"],
        SHOW,
        1,
    ),
    (&["show", "amigo", "00.0", "01", "a"], SHOW, 1),
    (&["identify"], "usage: flux identify DUMP\n", 1),
    (&["identify", ""], "usage: flux identify DUMP\n", 1),
    (&["identify", "a", "b"], "usage: flux identify DUMP\n", 1),
    (&["info"], "usage: flux info DUMP\n", 1),
    (&["info", ""], "usage: flux info DUMP\n", 1),
    (&["info", "a", "b"], "usage: flux info DUMP\n", 1),
    (&["read"], READ, 1),
    (&["read", "amiga"], READ, 1),
    // The format's word is the first that is no option.
    (&["read", "amigo"], "no format amigo; nearest: amiga\n", 3),
    (
        &["read", "--double-step", "ibm180", "dump"],
        "no format ibm180; nearest: ibm-180\n",
        3,
    ),
    // Words that people have, and numbers of no disk.
    (&["read", "ADF", "dump"], "no format ADF; try: amiga\n", 3),
    (
        &["rescue", "mfm-dd-77x2x8x1024"],
        "no format mfm-dd-77x2x8x1024; 8 sectors of 1024 bytes do not fit on a track of 6250\n",
        3,
    ),
    (&["read", "mfm-dd-80x2x9x512"], READ, 1),
    (
        &["read", "--picture", "amigo"],
        "no format amigo; nearest: amiga\n",
        3,
    ),
    (&["read", "--double-step"], READ, 1),
    // Each option stands once.
    (
        &["read", "--picture", "--picture", "amiga", "dump"],
        READ,
        1,
    ),
    (&["read", "--single-step", "amiga", "dump"], READ, 1),
    (&["read", "amiga", "dump", ""], READ, 1),
    // The drive does not reach so many cylinders by two steps each.
    (&["read", "--double-step", "amiga", "dump"], READ, 1),
    (
        &["read", "amiga", "1", "2", "3", "4", "5", "6", "7", "8", "9"],
        READ,
        1,
    ),
    (&["rescue"], "usage: flux rescue FORMAT\n", 1),
    (&["rescue", ""], "no format ; nearest: amiga\n", 2),
    (&["help", "amiga"], "usage: flux help [COMMAND]\n", 1),
    (&["help", "map", "now"], "usage: flux help [COMMAND]\n", 1),
];

#[test]
fn wrong_words_after_a_command(rt: HostRuntime) -> Result<(), Fail> {
    for (words, notes, writes) in TOLD {
        comes_true(
            &rt,
            rt.alloc(),
            &Row {
                name: "wrong words after a command",
                words,
                notes,
                calls: Some((0, 0, *writes)),
                ..NO_COMMAND
            },
        )?;
    }
    Ok(())
}

/// Zeros before a seed are not printed. Nothing is read.
const TRIAL: Row = Row {
    name: "trial",
    words: &["trial", "apple-do", "0000000000"],
    image: "trial apple-do 0 tracks 35 sectors 560 good 560 bad 0 missing 0 contradictory 0 sum 18278400\n",
    calls: Some((0, 1, 0)),
    ..TURNS
};

const VERSION: Row = Row {
    name: "version",
    words: &["--version"],
    image: "\
flux 0.4.0
commit unknown: built by hand, not of a package
proved in Rattle, logic dac8208d650f15bf
",
    ..TRIAL
};

/// A sink that fails leaves nothing, and under a word of the usage line nothing is told of it.
const FIRST_WRITE_FAILS: Row = Row {
    name: "the first write fails",
    failing: Failing {
        image: Some(0),
        ..NONE
    },
    status: Status::ImageFault,
    image: "",
    ..TRIAL
};

/// Under a word that the usage line does not name it is told in one line.
const TOLD_FAULT: Row = Row {
    name: "the first write fails under a word of our own",
    words: &["--version"],
    notes: "failed output\n",
    calls: Some((0, 1, 1)),
    ..FIRST_WRITE_FAILS
};

/// The shelf has no files.
const NO_FILES: Row = Row {
    name: "dumps without files",
    words: &["read", "amiga", "dump"],
    status: Status::Refused,
    image: "",
    notes: "refused dump 0 dump is not there\n",
    calls: Some((0, 0, 3)),
    ..TURNS
};

/// The same of a sector, whose track and number are named as people write them.
const NO_SECTOR: Row = Row {
    name: "a sector of dumps without files",
    words: &["show", "ibm-3740", "5.0", "4", "dump"],
    ..NO_FILES
};

/// The same of a dump whose disk is asked for.
const NO_DISK: Row = Row {
    name: "which disk a dump without files is of",
    words: &["identify", "dump"],
    ..NO_FILES
};

/// The same of a dump of whose files is asked how fast they turned.
const NO_TURNS: Row = Row {
    name: "how fast a dump without files turned",
    words: &["info", "dump"],
    ..NO_FILES
};

const ROWS: &[Row] = &[
    NO_DISK,
    NO_TURNS,
    NO_FILES,
    NO_SECTOR,
    Row {
        words: &["show", "ibm-3740", "05.0", "004", "dump"],
        ..NO_SECTOR
    },
    Row {
        failing: Failing {
            notes: Some(0),
            ..NONE
        },
        status: Status::NotesFault,
        notes: "",
        calls: Some((0, 0, 1)),
        ..NO_FILES
    },
    Row {
        failing: Failing {
            notes: Some(1),
            ..NONE
        },
        status: Status::NotesFault,
        notes: "refused dump 0 ",
        calls: Some((0, 0, 2)),
        ..NO_FILES
    },
    // Of a long path the end is told.
    Row {
        words: &[
            "read",
            "amiga",
            "0123456789abcdef0123456789abcdef0123456789abcdef0123456789abcdef0123456789abcdef0123456789abcdef12345",
        ],
        notes: "refused dump 0 ..123456789abcdef0123456789abcdef0123456789abcdef0123456789abcdef0123456789abcdef0123456789abcdef12345 is not there\n",
        calls: Some((0, 0, 4)),
        ..NO_FILES
    },
    Row {
        name: "the usage line fails",
        failing: Failing {
            notes: Some(0),
            ..NONE
        },
        status: Status::NotesFault,
        notes: "",
        ..NO_COMMAND
    },
    TRIAL,
    FIRST_WRITE_FAILS,
    VERSION,
    TOLD_FAULT,
    Row {
        words: &["help", "map"],
        ..TOLD_FAULT
    },
    // Where the line fails too, the status is the same.
    Row {
        failing: Failing {
            image: Some(0),
            notes: Some(0),
            ..NONE
        },
        notes: "",
        ..TOLD_FAULT
    },
];

#[test]
fn words_over_which_nothing_is_read(rt: HostRuntime) -> Result<(), Fail> {
    for row in ROWS {
        comes_true(&rt, rt.alloc(), row)?;
    }
    Ok(())
}

// All words for the help give the same text, and nothing is read.
#[test]
fn words_for_the_help(rt: HostRuntime) -> Result<(), Fail> {
    const WORDS: &[&[&str]] = &[&["help"], &["--help"], &["-h"]];
    for words in WORDS {
        helped(&rt, &run_of(rt.alloc(), &Row { words, ..TURNS })?);
    }
    Ok(())
}

// A command's page begins with its words.
#[test]
fn words_for_a_command(rt: HostRuntime) -> Result<(), Fail> {
    let words = &["help", "decode-set"];
    let end = run_of(rt.alloc(), &Row { words, ..TURNS })?;
    assert_eq!(rt; end.status, Status::AllGood);
    assert!(rt;
        end.image
            .bytes()
            .starts_with(b"usage: flux decode-set FORMAT COUNT\n\nReads ")
    );
    assert_eq!(rt; (end.notes.calls(), end.source.calls()), (0, 0));
    Ok(())
}

/// A page of help was written, and nothing else was done.
fn helped(rt: &impl Abort, end: &Ended) {
    assert_eq!(rt; end.status, Status::AllGood);
    assert!(rt; end.image.bytes().starts_with(b"flux reads "));
    assert_eq!(rt; end.notes.calls(), 0);
    assert_eq!(rt; end.source.calls(), 0);
}
