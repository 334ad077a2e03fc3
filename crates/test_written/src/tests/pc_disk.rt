//! The streams of a 720 KB image of bytes F6, of which a write or a read fails.
use super::runs::{streams_of, write};
use flux_base::{Memory, MemorySink};
use std::alloc::Global;
use std::process::Abort;
use std::test::Fail;
use test_rows::{IBM_720, Mismatch, Run, Want, decode, first_bytes, first_lines, gives};

/// The bytes of a track's part of the image.
const PART: usize = 4608;

/// The lines of each track, after its name. A stream has the ring's last quarter, three turns and the first quarter.
/// The first transition lies one cell after its begin, so that a sector stands one cell before its place in what is
/// written. Sector 3's last header stands whole in the closing quarter and its data do not.
const LINES: [&str; 9] = [
    "01 good 4 0 1 27527",
    "02 good 4 0 1 37991",
    "03 good 3 1 1 48455",
    "04 good 3 0 1 58919",
    "05 good 3 0 1 69383",
    "06 good 3 0 1 79847",
    "07 good 3 0 1 90311",
    "08 good 4 0 0 775",
    "09 good 4 0 0 11239",
];

/// An image, its streams and its report.
#[derive(Drop)]
struct Written {
    image: Vec<u8>,
    streams: MemorySink,
    lines: Vec<u8>,
}

fn write_image(rt: &impl Abort, alloc: Global) -> Result<Written, Fail> {
    let image: Vec<u8> = vec![in alloc; 0xF6; 737_280]?;
    let streams = streams_of(rt, alloc, IBM_720, &image)?;
    let lines = report_of(alloc)?;
    Ok(Written {
        image,
        streams,
        lines,
    })
}

/// The report of the disk.
fn report_of(alloc: Global) -> Result<Vec<u8>, Memory> {
    let mut lines = Vec::new(alloc);
    for cylinder in 0..80u8 {
        push_lines(alloc, &mut lines, cylinder, 0)?;
        push_lines(alloc, &mut lines, cylinder, 1)?;
    }
    lines.extend_from_slice(b"total 1440 good 1440 bad 0 missing 0 contradictory 0\n")?;
    Ok(lines)
}

fn push_lines(alloc: Global, lines: &mut Vec<u8>, cylinder: u8, head: u8) -> Result<(), Memory> {
    for text in LINES {
        let line = format!(in alloc; "{cylinder:02}.{head} {text}\n")?;
        lines.extend_from_slice(line.as_bytes())?;
    }
    Ok(())
}

/// Where a run is cut: its exit code, and how many bytes of the image and how many lines it gave before.
#[derive(Clone, Copy)]
struct Cut {
    code: u8,
    bytes: usize,
    lines: usize,
}

fn is_cut(alloc: Global, disk: &Written, run: Run, cut: Cut) -> Result<usize, Mismatch> {
    let want = Want {
        code: cut.code,
        image: first_bytes(&disk.image, cut.bytes),
        notes: first_lines(&disk.lines, cut.lines),
    };
    gives(alloc, run, want)
}

// A track's sectors are written one by one, and then its lines.
#[test]
fn one_of_the_first_writes_fails(rt: HostRuntime) -> Result<(), Fail> {
    let alloc = rt.alloc();
    let disk = write_image(&rt, alloc)?;
    for call in 0..10usize {
        a_write_fails(alloc, &disk, call)?;
    }
    Ok(())
}

fn a_write_fails(alloc: Global, disk: &Written, call: usize) -> Result<usize, Mismatch> {
    let tracks = call / 9;
    let run = decode(IBM_720, disk.streams.bytes());
    let image_run = Run {
        failing_image: Some(call),
        ..run
    };
    let image_cut = Cut {
        code: 5,
        bytes: call.saturating_mul(512),
        lines: tracks.saturating_mul(9),
    };
    is_cut(alloc, disk, image_run, image_cut)?;
    let notes_run = Run {
        failing_notes: Some(call),
        ..run
    };
    let notes_cut = Cut {
        code: 6,
        bytes: tracks.saturating_add(1).saturating_mul(PART),
        lines: call,
    };
    is_cut(alloc, disk, notes_run, notes_cut)
}

// The image is read in 180 pieces of 4096 bytes, and the next read finds its end. The streams are written in pieces of
// at most 4096 bytes, of which the first stream has some 30.
#[test]
fn a_call_of_write_fails(rt: HostRuntime) -> Result<(), Fail> {
    let alloc = rt.alloc();
    let disk = write_image(&rt, alloc)?;
    for call in [0, 1, 90, 179, 180] {
        a_read_fails(alloc, &disk, call)?;
    }
    for call in [0, 1, 20, 31, 100, 3000] {
        a_piece_fails(&rt, alloc, &disk, call)?;
    }
    Ok(())
}

/// Nothing is written.
fn a_read_fails(alloc: Global, disk: &Written, call: usize) -> Result<usize, Mismatch> {
    let run = Run {
        command: "write",
        failing_read: Some(call),
        ..decode(IBM_720, &disk.image)
    };
    let cut = Cut {
        code: 4,
        bytes: 0,
        lines: 0,
    };
    is_cut(alloc, disk, run, cut)
}

/// What was written before is a front of the streams, and no piece was longer than 4096 bytes.
fn a_piece_fails(rt: &impl Abort, alloc: Global, disk: &Written, call: usize) -> Result<(), Fail> {
    let end = write(alloc, IBM_720, &disk.image, Some(call as u64))?;
    let bytes = end.image.bytes();
    let most = call.saturating_mul(4096);
    assert_eq!(rt; (end.code, end.notes.bytes().len()), (5, 0), "write {call}");
    assert!(rt; disk.streams.bytes().starts_with(bytes), "write {call}");
    assert!(rt; call <= bytes.len() && bytes.len() <= most, "write {call}");
    Ok(())
}
