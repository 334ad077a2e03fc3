//! Dumps whose files lie on a shelf, of which a call fails, or a write of the image.
use super::runs::{Ended, ends};
use super::shelves::file;
use flux_base::{Memory, TrackId};
use std::alloc::Global;
use std::process::Abort;
use std::str;
use std::test::Fail;
use test_rows::SHORT;
use track_shelf::{MemoryShelf, ShelfFile};

/// Dumps of shortest streams, in which no sector stands: the first has that of cylinder 0, the second one of cylinder
/// 1, which is cut in its fifth block.
fn short_files(alloc: Global) -> Result<Vec<ShelfFile>, Memory> {
    let mut files = Vec::new(alloc);
    for (folder, cylinder, size) in [("a", 0, 50), ("b", 1, 40)] {
        let track = TrackId { cylinder, head: 0 };
        files.push(file(alloc, folder, track, &SHORT[..size.min(50)])?)?;
    }
    Ok(files)
}

const READ: &[&str] = &["read", "ibm-3740", "a", "b"];

/// What is said of the first track, of which the second dump has no file.
const PASSED: &str = "00.0 dump 1 missing\n00.0 01 missing 0 0\n";

const NONE_READ: &str =
    "unread 153 other 0 whole 0\ntotal 2002 good 0 bad 0 missing 2002 contradictory 0\n";

/// The same where the first file failed.
const LOST: &str = "00.0 dump 0 failed\n00.0 dump 1 missing\n00.0 01 missing 0 0\n";

const LOST_READ: &str =
    "unread 154 other 0 whole 0\ntotal 2002 good 0 bad 0 missing 2002 contradictory 0\n";

/// The call of the shelf that fails, of the first file's open and its read and of the second file, and
/// how the report begins and ends.
const FAILING: [(u64, &str, &str); 3] = [
    (0, LOST, LOST_READ),
    (1, LOST, LOST_READ),
    (3, PASSED, NONE_READ),
];

// A file that fails as it is opened or read is passed over, and all else is read.
#[test]
fn a_file_of_a_dump_fails(rt: HostRuntime) -> Result<(), Fail> {
    for (call, begin, end) in FAILING {
        let run = short_run(rt.alloc(), READ, &[call], None)?;
        has_ended(&rt, &run, (8, 256_256), begin, end);
    }
    Ok(())
}

/// A run over these dumps. The call of the shelf and the write of the image with these numbers fail, if some do.
fn short_run(
    alloc: Global,
    words: &[&str],
    failing: &[u64],
    write: Option<u64>,
) -> Result<Ended, Memory> {
    let files = short_files(alloc)?;
    let mut shelf = MemoryShelf::new(&files, 4096, failing);
    ends(alloc, words, &[], &mut shelf, write)
}

fn has_ended(rt: &impl Abort, run: &Ended, wanted: (u8, usize), begin: &str, end: &str) {
    let text = str::from_utf8(run.notes.bytes()).unwrap_or("");
    assert_eq!(rt; (run.code, run.image.bytes().len()), wanted);
    assert!(rt; text.starts_with(begin), "{begin}");
    assert!(rt; text.ends_with(end), "{end}");
}

// The image fails at the third sector of the second track: the report has the first one.
#[test]
fn the_image_fails_in_mid_disk(rt: HostRuntime) -> Result<(), Fail> {
    let run = short_run(rt.alloc(), READ, &[], Some(28))?;
    has_ended(
        &rt,
        &run,
        (5, 3584),
        PASSED,
        "00.0 26 missing 0 0\nfailed output\n",
    );
    Ok(())
}

// A picture says it by the exit code alone.
#[test]
fn a_file_of_a_dump_that_is_drawn_fails(rt: HostRuntime) -> Result<(), Fail> {
    let words = ["read", "--picture", "ibm-3740", "a", "b"];
    for call in [0, 3] {
        let run = short_run(rt.alloc(), &words, &[call], None)?;
        is_drawn(&rt, &run);
    }
    Ok(())
}

fn is_drawn(rt: &impl Abort, run: &Ended) {
    let end = b">total 2002 good 0 bad 0 missing 2002 contradictory 0\n</text>\n</svg>\n";
    assert_eq!(rt; (run.code, run.notes.bytes().len()), (8, 0));
    assert!(rt; run.image.bytes().ends_with(end));
}
