//! What lies under a dump's name, over files that stand in for the system's.
use super::FAULTS;
use super::files::{Opened, Record, StandIn};
use scp_files::ScpFault;
use std::alloc::Global;
use std::io::ErrorKind;
use std::test::Fail;
use std_streams::{StdShelf, StdSource};
use track_shelf::{DumpKind, Shelf};

/// No call fails.
const NONE: u32 = u32::MAX;

const FILES: [(&str, &[u8]); 5] = [
    ("disk.zip", b"PK"),
    ("short.scp", b"SCP"),
    (
        "whole.ScP",
        b"SCP\x19\x04\x01\x00\x00\x01\x00\x00\x00\x00\x00\x00\x00",
    ),
    ("named/disk00.0.raw", b"x"),
    ("plain/track00.0.raw", b"y"),
];

/// A system tells the names in no order, and those of the folder and of the one above too.
const FOLDERS: [(&str, &[u8]); 5] = [
    ("named/", b".\0..\0read.me\0disk17.1.raw\0disk00.0.raw\0"),
    ("plain/", b"disk00.0.raw\0track00.0.raw\0..\0.\0"),
    ("empty/", b".\0..\0"),
    ("bare/", b""),
    ("other/", b"..\0\xFF00.0.raw\000.0.raw\0disk00.0.RAW\0.\0"),
];

/// A dump's name, what lies there, and the calls of the system in their order.
const ROWS: [(&str, DumpKindWord, &[&str]); 10] = [
    ("nowhere", DumpKindWord::NotThere, &["look nowhere"]),
    ("disk.zip", DumpKindWord::AFile, &["look disk.zip"]),
    (
        "named/disk00.0.raw",
        DumpKindWord::OtherTracks,
        &["look named/disk00.0.raw"],
    ),
    (
        "named/disk00.1.raw",
        DumpKindWord::NotThere,
        &["look named/disk00.1.raw"],
    ),
    (
        "named",
        DumpKindWord::Named("disk"),
        &[
            "look named",
            "list named/",
            "names named/",
            "names named/",
            "names named/",
            "names named/",
            "names named/",
            "names named/",
        ],
    ),
    (
        "plain",
        DumpKindWord::OtherTracks,
        &[
            "look plain",
            "list plain/",
            "names plain/",
            "names plain/",
            "names plain/",
            "names plain/",
            "names plain/",
        ],
    ),
    (
        "empty",
        DumpKindWord::NoFiles,
        &[
            "look empty",
            "list empty/",
            "names empty/",
            "names empty/",
            "names empty/",
        ],
    ),
    (
        "bare",
        DumpKindWord::NoFiles,
        &["look bare", "list bare/", "names bare/"],
    ),
    (
        "other",
        DumpKindWord::NoFiles,
        &[
            "look other",
            "list other/",
            "names other/",
            "names other/",
            "names other/",
            "names other/",
            "names other/",
            "names other/",
        ],
    ),
    (
        "named/read.me/x",
        DumpKindWord::NotThere,
        &["look named/read.me/x"],
    ),
];

/// What is to lie there.
#[derive(Clone, Copy, Debug, PartialEq)]
enum DumpKindWord {
    NotThere,
    AFile,
    NoFiles,
    OtherTracks,
    Named(&'static str),
    ShortHeader(u8),
    Unknown,
}

/// Whether it is that.
fn is_so(kind: &DumpKind, word: DumpKindWord) -> bool {
    match (kind, word) {
        (DumpKind::NotThere, DumpKindWord::NotThere)
        | (DumpKind::AFile, DumpKindWord::AFile)
        | (DumpKind::NoFiles, DumpKindWord::NoFiles)
        | (DumpKind::OtherTracks, DumpKindWord::OtherTracks)
        | (DumpKind::Unknown, DumpKindWord::Unknown) => true,
        (DumpKind::Named(prefix), DumpKindWord::Named(begin)) => prefix.as_str() == begin,
        (DumpKind::RefusedScp(ScpFault::ShortHeader(size)), DumpKindWord::ShortHeader(bytes)) => {
            *size == bytes
        }
        _ => false,
    }
}

/// What is answered where this call fails so, and the calls.
fn look(alloc: Global, dump: &str, failing: u32, kind: ErrorKind) -> (DumpKind, String) {
    let record = Record::new(alloc, failing, kind);
    let files = StandIn {
        files: FILES.as_slice(),
        folders: FOLDERS.as_slice(),
        record: &record,
    };
    // The checker has to meet the type of an open file where the shelf is only looked at.
    let _open: Option<StdSource<Opened>> = None;
    let answer = StdShelf::new(&files).kind_of(dump.as_bytes());
    (answer, record.lines())
}

#[test]
fn a_folder_is_listed_only_where_it_is_one(rt: HostRuntime) -> Result<(), Fail> {
    let alloc = rt.alloc();
    for (dump, word, calls) in ROWS {
        let (kind, made) = look(alloc, dump, NONE, ErrorKind::Other);
        assert!(rt; is_so(&kind, word), "{dump} {kind:?}");
        let mut lines = String::new(alloc);
        for call in calls {
            lines.push_str(call)?;
            lines.push_str("\n")?;
        }
        assert_eq!(rt; made.as_str(), lines.as_str());
    }
    Ok(())
}

/// An SCP file, and what it is.
const SCP_FILES: [(&str, DumpKindWord); 3] = [
    ("short.scp", DumpKindWord::ShortHeader(3)),
    ("whole.ScP", DumpKindWord::OtherTracks),
    ("nowhere.scp", DumpKindWord::NotThere),
];

// It is opened, and its begin is read.
#[test]
fn an_scp_file_is_looked_into(rt: HostRuntime) {
    for (dump, word) in SCP_FILES {
        let (kind, _) = look(rt.alloc(), dump, NONE, ErrorKind::Other);
        assert!(rt; is_so(&kind, word), "{dump} {kind:?}");
        let (kind, _) = look(rt.alloc(), dump, 0, ErrorKind::Other);
        assert!(rt; is_so(&kind, DumpKindWord::Unknown), "{dump} {kind:?}");
    }
}

// Nothing is called behind the call that failed.
#[test]
fn each_call_of_a_look_fails_in_its_turn(rt: HostRuntime) {
    let alloc = rt.alloc();
    for (dump, _, calls) in ROWS {
        for (number, _) in (0..).zip(calls) {
            for fault in FAULTS {
                let (kind, made) = look(alloc, dump, number, fault);
                let word = if number == 0 && fault == ErrorKind::NotADirectory {
                    DumpKindWord::NotThere
                } else {
                    DumpKindWord::Unknown
                };
                assert!(rt; is_so(&kind, word), "{dump} {number} {fault:?} {kind:?}");
                assert_eq!(rt; made.lines().count(), number as usize + 1);
            }
        }
    }
}

// A name that is no text, or too long for a path, is looked at nowhere.
#[test]
fn no_path_is_no_call(rt: HostRuntime) -> Result<(), Fail> {
    let alloc = rt.alloc();
    let record = Record::new(alloc, NONE, ErrorKind::Other);
    let files = StandIn {
        files: FILES.as_slice(),
        folders: FOLDERS.as_slice(),
        record: &record,
    };
    // The checker has to meet the type of an open file where the shelf is only looked at.
    let _open: Option<StdSource<Opened>> = None;
    let shelf = StdShelf::new(&files);
    let long: Vec<u8> = vec![in alloc; b'a'; 4097]?;
    assert!(rt; is_so(&shelf.kind_of(&[0xFF]), DumpKindWord::Unknown));
    assert!(rt; is_so(&shelf.kind_of(&long), DumpKindWord::Unknown));
    assert_eq!(rt; record.lines().as_str(), "");
    Ok(())
}
