//! The shelf over files that stand in for the system's: which of them it opens, in which order, and what
//! it answers where a call fails.
use super::FAULTS;
use super::files::{Opened, Record, StandIn};
use flux_base::{Failed, Source, TrackId};
use sector_images::Format;
use std::alloc::{AllocError, Global};
use std::io::ErrorKind;
use std::process::Abort;
use std::test::Fail;
use std_streams::{StdShelf, StdSource};
use track_shelf::Shelf;

/// No call fails.
const NONE: u32 = u32::MAX;

/// A folder of a disk of two cylinders and two heads, and a dump that is named by its files.
const FILES: [(&str, &[u8]); 6] = [
    ("dump/track00.0.raw", b"ab"),
    ("dump/track00.1.raw", b"c"),
    ("dump/track01.0.raw", b""),
    ("dump/track01.1.raw", b"defgh"),
    ("shelf/disk00.0.raw", b"xyz"),
    ("shelf/disk07.1.raw", b"uvw"),
];

/// What the disk's folder comes to, by reads of up to four bytes: each call of the system in its turn, and the bytes
/// that it gives. First it is seen whether all files are there.
const CALLS: [(&str, &[u8]); 16] = [
    ("open dump/track00.0.raw", b""),
    ("open dump/track00.1.raw", b""),
    ("open dump/track01.0.raw", b""),
    ("open dump/track01.1.raw", b""),
    ("open dump/track00.0.raw", b""),
    ("read dump/track00.0.raw", b"ab"),
    ("read dump/track00.0.raw", b""),
    ("open dump/track00.1.raw", b""),
    ("read dump/track00.1.raw", b"c"),
    ("read dump/track00.1.raw", b""),
    ("open dump/track01.0.raw", b""),
    ("read dump/track01.0.raw", b""),
    ("open dump/track01.1.raw", b""),
    ("read dump/track01.1.raw", b"defg"),
    ("read dump/track01.1.raw", b"h"),
    ("read dump/track01.1.raw", b""),
];

/// How many of these calls look whether the files are there.
const LOOKS: u32 = 4;

/// What a run comes to: the answer of `begin`; that of the last read, where one is made; the bytes, and the calls.
#[derive(Debug, Drop, PartialEq)]
struct Outcome {
    begun: Result<Option<u32>, Failed>,
    last: Option<Result<usize, Failed>>,
    bytes: Vec<u8>,
    calls: String,
}

/// Reads the disk's folder up to its end, or up to the first answer that is none.
fn read_folder(alloc: Global, format: Format, record: Record) -> Result<Outcome, AllocError> {
    let files = StandIn {
        files: FILES.as_slice(),
        folders: &[],
        record: &record,
    };
    let mut shelf = StdShelf::new(&files);
    let begun = shelf.begin(b"dump", format);
    let mut last = None;
    let mut bytes = Vec::new(alloc);
    if begun == Ok(None) {
        for _ in 0..20 {
            let mut buffer = [0; 4];
            let answer = shelf.read(&mut buffer);
            last = Some(answer);
            match answer {
                Ok(count) if count > 0 => bytes.extend_from_slice(&buffer[..count.min(4)])?,
                _ => break,
            }
        }
    }
    Ok(Outcome {
        begun,
        last,
        bytes,
        calls: record.lines(),
    })
}

/// What is written down: the calls up to one, and the bytes of those before it.
fn calls_to(alloc: Global, number: u32) -> Result<(Vec<u8>, String), AllocError> {
    let mut bytes = Vec::new(alloc);
    let mut calls = String::new(alloc);
    for (at, (call, given)) in (0..).zip(CALLS) {
        if at <= number {
            calls.push_str(call)?;
            calls.push_str("\n")?;
        }
        if at < number {
            bytes.extend_from_slice(given)?;
        }
    }
    Ok((bytes, calls))
}

/// The same as an outcome, where this call ends the run with these answers.
fn ended(
    alloc: Global,
    number: u32,
    begun: Result<Option<u32>, Failed>,
    last: Option<Result<usize, Failed>>,
) -> Result<Outcome, AllocError> {
    let (bytes, calls) = calls_to(alloc, number)?;
    Ok(Outcome {
        begun,
        last,
        bytes,
        calls,
    })
}

/// The disk of two cylinders and two heads.
fn small_disk() -> Result<Format, Fail> {
    Ok(Format::of_word(b"mfm-dd-2x2x9x512").ok_or("no disk")?)
}

#[test]
fn a_folder_is_looked_at_and_read_file_by_file(rt: HostRuntime) -> Result<(), Fail> {
    let alloc = rt.alloc();
    let record = Record::new(alloc, NONE, ErrorKind::Other);
    let outcome = read_folder(alloc, small_disk()?, record)?;
    assert_eq!(rt; outcome, ended(alloc, 16, Ok(None), Some(Ok(0)))?);
    Ok(())
}

// Nothing is called behind the call that failed, and the bytes before it have come.
#[test]
fn each_call_of_a_folder_fails_in_its_turn(rt: HostRuntime) -> Result<(), Fail> {
    let alloc = rt.alloc();
    let format = small_disk()?;
    for number in 0..16 {
        for kind in FAULTS {
            let outcome = read_folder(alloc, format, Record::new(alloc, number, kind))?;
            let wanted = if number < LOOKS {
                ended(alloc, number, Err(Failed), None)?
            } else {
                ended(alloc, number, Ok(None), Some(Err(Failed)))?
            };
            assert_eq!(rt; outcome, wanted, "call {number}, {kind:?}");
        }
    }
    Ok(())
}

// A file that is not found is missing where it is looked for. One that is gone later is a fault.
#[test]
fn each_file_of_a_folder_is_missing_in_its_turn(rt: HostRuntime) -> Result<(), Fail> {
    let alloc = rt.alloc();
    let format = small_disk()?;
    for number in 0..16 {
        let outcome = read_folder(
            alloc,
            format,
            Record::new(alloc, number, ErrorKind::NotFound),
        )?;
        let wanted = if number < LOOKS {
            ended(alloc, number, Ok(Some(number)), None)?
        } else {
            ended(alloc, number, Ok(None), Some(Err(Failed)))?
        };
        assert_eq!(rt; outcome, wanted, "call {number}");
    }
    Ok(())
}

/// A dump, a track's cylinder and head, the path that is opened for it, and its bytes, if it is there.
const SINGLE: [(&str, u8, u8, &str, Option<&[u8]>); 7] = [
    ("dump", 0, 0, "dump/track00.0.raw", Some(b"ab")),
    ("dump", 0, 1, "dump/track00.1.raw", Some(b"c")),
    ("dump", 1, 1, "dump/track01.1.raw", Some(b"defgh")),
    ("dump", 7, 1, "dump/track07.1.raw", None),
    (
        "shelf/disk00.0.raw",
        7,
        1,
        "shelf/disk07.1.raw",
        Some(b"uvw"),
    ),
    (
        "shelf/disk07.1.raw",
        0,
        0,
        "shelf/disk00.0.raw",
        Some(b"xyz"),
    ),
    ("shelf/disk07.1.raw", 0, 1, "shelf/disk00.1.raw", None),
];

/// Opens a track's file where the first call fails so, and writes down the answer: whether it is a file, if
/// there is an answer, and the calls.
fn open_single(
    alloc: Global,
    dump: &str,
    track: TrackId,
    failing: u32,
    kind: ErrorKind,
) -> (Result<bool, Failed>, String) {
    let record = Record::new(alloc, failing, kind);
    let files = StandIn {
        files: FILES.as_slice(),
        folders: &[],
        record: &record,
    };
    let mut shelf = StdShelf::new(&files);
    let answer = match shelf.open_file(dump.as_bytes(), track) {
        Ok(Some(file)) => {
            shelf.close_file(file);
            Ok(true)
        }
        Ok(None) => Ok(false),
        Err(failed) => Err(failed),
    };
    (answer, record.lines())
}

#[test]
fn a_file_is_opened_by_its_path_alone(rt: HostRuntime) -> Result<(), Fail> {
    let alloc = rt.alloc();
    for (dump, cylinder, head, path, bytes) in SINGLE {
        let track = TrackId { cylinder, head };
        let opened = format!(in alloc; "open {path}\n")?;
        let (answer, calls) = open_single(alloc, dump, track, NONE, ErrorKind::Other);
        assert_eq!(rt;
            (answer, calls.as_str()),
            (Ok(bytes.is_some()), opened.as_str())
        );
        let (answer, calls) = open_single(alloc, dump, track, 0, ErrorKind::NotFound);
        assert_eq!(rt; (answer, calls.as_str()), (Ok(false), opened.as_str()));
        for kind in FAULTS {
            let (answer, calls) = open_single(alloc, dump, track, 0, kind);
            // Where a file stands in the place of its folder, it is not there.
            let wanted = if kind == ErrorKind::NotADirectory {
                Ok(false)
            } else {
                Err(Failed)
            };
            assert_eq!(rt;
                (answer, calls.as_str()),
                (wanted, opened.as_str()),
                "{kind:?}"
            );
        }
    }
    Ok(())
}

/// Whether a track's file is there, and the calls. A folder lies in the place of one of the tracks' files.
fn look_for(dump: &str, track: TrackId, record: Record) -> (bool, String) {
    let files = StandIn {
        files: FILES.as_slice(),
        folders: &[("dump/track39.1.raw/", b"")],
        record: &record,
    };
    // The checker has to meet the type of an open file where the shelf is only looked at.
    let _open: Option<StdSource<Opened>> = None;
    let answer = StdShelf::new(&files).holds(dump.as_bytes(), track);
    (answer, record.lines())
}

// It is looked at by its path alone. What cannot be looked at is there, but for what is not found.
#[test]
fn a_file_is_looked_for(rt: HostRuntime) -> Result<(), Fail> {
    let alloc = rt.alloc();
    for (dump, cylinder, head, path, bytes) in SINGLE {
        let track = TrackId { cylinder, head };
        let look = format!(in alloc; "look {path}\n")?;
        let (there, calls) = look_for(dump, track, Record::new(alloc, NONE, ErrorKind::Other));
        assert_eq!(rt; (there, calls.as_str()), (bytes.is_some(), look.as_str()));
        let (there, calls) = look_for(dump, track, Record::new(alloc, 0, ErrorKind::NotFound));
        assert_eq!(rt; (there, calls.as_str()), (false, look.as_str()));
        for kind in FAULTS {
            let (there, calls) = look_for(dump, track, Record::new(alloc, 0, kind));
            assert_eq!(rt;
                (there, calls.as_str()),
                (kind != ErrorKind::NotADirectory, look.as_str()),
                "{kind:?}"
            );
        }
    }
    let folder = TrackId {
        cylinder: 39,
        head: 1,
    };
    let (there, _) = look_for("dump", folder, Record::new(alloc, NONE, ErrorKind::Other));
    assert!(rt; there);
    Ok(())
}

/// Reads a file that is open to its end, and compares its bytes.
fn has_bytes<S: Source>(rt: &impl Abort, file: &mut S, bytes: &[u8]) {
    for byte in bytes {
        let mut buffer = [0];
        assert_eq!(rt; (file.read(&mut buffer), buffer), (Ok(1), [*byte]));
    }
    assert_eq!(rt; file.read(&mut [0]), Ok(0));
}

#[test]
fn an_open_file_gives_its_own_bytes(rt: HostRuntime) -> Result<(), Fail> {
    let record = Record::new(rt.alloc(), NONE, ErrorKind::Other);
    let files = StandIn {
        files: FILES.as_slice(),
        folders: &[],
        record: &record,
    };
    let mut shelf = StdShelf::new(&files);
    for (dump, cylinder, head, _, bytes) in SINGLE {
        match (
            shelf.open_file(dump.as_bytes(), TrackId { cylinder, head }),
            bytes,
        ) {
            (Ok(Some(mut file)), Some(bytes)) => {
                has_bytes(&rt, &mut file, bytes);
                shelf.close_file(file);
            }
            (Ok(None), None) => {}
            _ => assert!(rt; false, "{dump} {cylinder}.{head}"),
        }
    }
    Ok(())
}

/// Where a file is read from, its bytes from there on, and the calls by which it is opened.
const FROM: [(u64, &[u8], &str); 4] = [
    (0, b"defgh", "open dump/track01.1.raw\n"),
    (
        2,
        b"fgh",
        "open dump/track01.1.raw\nseek dump/track01.1.raw\n",
    ),
    (5, b"", "open dump/track01.1.raw\nseek dump/track01.1.raw\n"),
    (
        1 << 40,
        b"",
        "open dump/track01.1.raw\nseek dump/track01.1.raw\n",
    ),
];

#[test]
fn a_file_is_read_from_a_place_on(rt: HostRuntime) -> Result<(), Fail> {
    let alloc = rt.alloc();
    for (offset, bytes, calls) in FROM {
        let record = Record::new(alloc, NONE, ErrorKind::Other);
        let files = StandIn {
            files: FILES.as_slice(),
            folders: &[],
            record: &record,
        };
        let mut shelf = StdShelf::new(&files);
        match shelf.open_at(b"dump/track01.1.raw", offset) {
            Ok(Some(mut file)) => {
                has_bytes(&rt, &mut file, bytes);
                shelf.close_file(file);
            }
            _ => assert!(rt; false, "{offset}"),
        }
        assert!(rt; matches!(shelf.open_at(b"dump", offset), Ok(None)));
        assert!(rt; record.lines().starts_with(calls), "{offset}");
    }
    Ok(())
}

// A file that cannot be read from there on has failed.
#[test]
fn each_call_fails_by_which_a_file_is_opened_at_a_place(rt: HostRuntime) -> Result<(), Fail> {
    for number in 0..2 {
        let record = Record::new(rt.alloc(), number, ErrorKind::Other);
        let files = StandIn {
            files: FILES.as_slice(),
            folders: &[],
            record: &record,
        };
        let mut shelf = StdShelf::new(&files);
        let failed = matches!(shelf.open_at(b"dump/track01.1.raw", 2), Err(Failed));
        assert!(rt; failed, "call {number}");
    }
    Ok(())
}
