//! Acorn disks, 40 tracks of ten sectors of 256 bytes, of which up to sixteen streams capture each track.
use std::alloc::Global;
use std::test::Fail;
use test_rows::{ACORN_DFS_40, Run, Want, decode_set, gives, short_dump, short_streams};

/// A number of captures, and how many bytes are left of 641 streams of 50 bytes, each of which is read at once:
/// 40 are read for each capture.
const COUNTS: [(&str, usize); 6] = [
    ("1", 30_050),
    ("01", 30_050),
    ("9", 14_050),
    ("09", 14_050),
    ("10", 12_050),
    ("16", 50),
];

#[test]
fn counts_of_captures(rt: HostRuntime) -> Result<(), Fail> {
    for (count, left) in COUNTS {
        let rest = missing_of(rt.alloc(), count)?;
        assert_eq!(rt; rest, left, "after {count}");
    }
    Ok(())
}

/// A set of shortest streams has no sector. The answer is the number of bytes that are left.
fn missing_of(alloc: Global, count: &str) -> Result<usize, Fail> {
    let input = short_streams(alloc, 641)?;
    let dump = short_dump(alloc, ACORN_DFS_40)?;
    let run = Run {
        chunk: 50,
        ..decode_set(ACORN_DFS_40, count, &input)
    };
    let want = Want {
        code: 1,
        image: &dump.image,
        notes: &dump.lines,
    };
    Ok(gives(alloc, run, want)?)
}
