mod every_call;
mod short;
mod small;

use cell_bits::Cells;
use flux_base::{Memory, TrackId};
use ibm_fm::IbmFm;
use small::streams_and_front;
use std::alloc::{AllocError, Global};
use std::test::Fail;
use test_rows::{
    Disk, Dump, IBM_360, IBM_3740, Mismatch, Run, Want, decode, first_bytes, first_lines,
    first_lines_and, gives, report, ring_of, short_dump, short_streams,
};

/// The bytes of a track's part of the image, and its lines, of the IBM 3740 diskette.
const PART: usize = 3328;

const LINES: usize = 26;

// 77 streams of 50 bytes are 550 pieces of 7.
#[test]
fn each_read_of_a_3740_disk_fails_once(rt: HostRuntime) -> Result<(), Fail> {
    reads_fail(rt.alloc(), IBM_3740, 550, PART, LINES)
}

// 80 streams of 50 bytes are 571 pieces of 7, and 3 bytes of one more.
#[test]
fn each_read_of_a_360_kb_disk_fails_once(rt: HostRuntime) -> Result<(), Fail> {
    reads_fail(rt.alloc(), IBM_360, 572, 4608, 9)
}

/// The shortest streams take so many reads of 7 bytes. Each of them fails once, and a later one is not made, though
/// seven streams more follow. After a fault the tracks are written, each with this part of the image and so many lines,
/// whose 50 bytes were read before it.
fn reads_fail(
    alloc: Global,
    disk: Disk,
    reads: usize,
    part: usize,
    lines: usize,
) -> Result<(), Fail> {
    let mut dump = short_dump(alloc, disk)?;
    dump.input.extend_from_slice(&short_streams(alloc, 7)?)?;
    for call in 0..700usize {
        let tracks = call.saturating_mul(7) / 50;
        let cut = Want {
            code: 4,
            image: first_bytes(&dump.image, tracks.saturating_mul(part)),
            notes: first_lines(&dump.lines, tracks.saturating_mul(lines)),
        };
        let whole = Want {
            code: 1,
            image: &dump.image,
            notes: &dump.lines,
        };
        let run = Run {
            chunk: 7,
            failing_read: Some(call),
            ..decode(disk, &dump.input)
        };
        gives(alloc, run, if call < reads { cut } else { whole })?;
    }
    Ok(())
}

/// A dump whose first track is good.
fn one_good_track(alloc: Global) -> Result<Dump, Memory> {
    let content = [0xE5; PART];
    let track = TrackId {
        cylinder: 0,
        head: 0,
    };
    let ring = ring_of(alloc, &IbmFm::IBM_3740, track, &content)?;
    let mut dump = Dump::new(alloc, IBM_3740);
    push_tracks(alloc, &mut dump, &ring, &content)?;
    Ok(dump)
}

/// One good track, and then streams without a sector.
fn push_tracks(alloc: Global, dump: &mut Dump, ring: &Cells, content: &[u8]) -> Result<(), Memory> {
    dump.good(alloc, ring, content)?;
    dump.missing(alloc, 76)?;
    dump.total(alloc)
}

/// The first ten writes, those at the borders of tracks, one in the middle, the last line of a sector, the total line,
/// and the number after all.
const WRITES: [usize; 19] = [
    0, 1, 2, 3, 4, 5, 6, 7, 8, 9, 25, 26, 27, 51, 52, 1000, 2001, 2002, 2003,
];

#[test]
fn one_write_fails(rt: HostRuntime) -> Result<(), Fail> {
    let dump = one_good_track(rt.alloc())?;
    for call in WRITES {
        a_write_fails(rt.alloc(), &dump, call)?;
    }
    Ok(())
}

fn a_write_fails(alloc: Global, dump: &Dump, call: usize) -> Result<(), Mismatch> {
    a_piece_of_the_image_fails(alloc, dump, call)?;
    a_line_fails(alloc, dump, call)?;
    a_line_of_the_report_fails(alloc, dump, call)
}

/// The image gets a piece for each of the 2002 sectors. The notes have the lines of the tracks before.
fn a_piece_of_the_image_fails(alloc: Global, dump: &Dump, call: usize) -> Result<(), Mismatch> {
    let made = call < 2002;
    let lines = if made { call / LINES * LINES } else { 2003 };
    let run = Run {
        failing_image: Some(call),
        ..decode(IBM_3740, &dump.input)
    };
    let want = Want {
        code: if made { 5 } else { 1 },
        image: first_bytes(&dump.image, call.saturating_mul(128)),
        notes: first_lines(&dump.lines, lines),
    };
    gives(alloc, run, want)?;
    Ok(())
}

/// The notes get a piece for each of the 2003 lines. The image has the part of the line's track too.
fn a_line_fails(alloc: Global, dump: &Dump, call: usize) -> Result<(), Mismatch> {
    let parts = (call / LINES).saturating_add(1);
    let run = Run {
        failing_notes: Some(call),
        ..decode(IBM_3740, &dump.input)
    };
    let want = Want {
        code: if call < 2003 { 6 } else { 1 },
        image: first_bytes(&dump.image, parts.saturating_mul(PART)),
        notes: first_lines(&dump.lines, call),
    };
    gives(alloc, run, want)?;
    Ok(())
}

/// The lines of `report` go to the image's sink, and the notes get nothing.
fn a_line_of_the_report_fails(alloc: Global, dump: &Dump, call: usize) -> Result<(), Mismatch> {
    let run = Run {
        failing_image: Some(call),
        ..report(IBM_3740, &dump.input)
    };
    let want = Want {
        code: if call < 2003 { 5 } else { 1 },
        image: first_lines(&dump.lines, call),
        notes: &[],
    };
    gives(alloc, run, want)?;
    Ok(())
}

// After 40 good streams stands an in-stream block, and then a block of an unknown type. The tracks before are written,
// and a line, whose write can fail too.
#[test]
fn a_track_in_the_middle_is_refused(rt: HostRuntime) -> Result<(), Fail> {
    let mut dump = one_good_track(rt.alloc())?;
    refuse_a_track(rt.alloc(), &mut dump.input)?;
    decode_is_refused(rt.alloc(), &dump)?;
    report_is_refused(rt.alloc(), &dump)?;
    Ok(())
}

/// Puts the refused stream in the place of the one of track 40.
fn refuse_a_track(alloc: Global, input: &mut Vec<u8>) -> Result<(), AllocError> {
    let kept = input.len().saturating_sub(37 * 50);
    input.truncate(kept);
    input.extend_from_slice(&[0x60, 0x0D, 0, 0, 0])?;
    input.extend_from_slice(&short_streams(alloc, 36)?)
}

const REFUSED: &str = "refused track 40 block 1 UnknownType 0\n";

fn decode_is_refused(alloc: Global, dump: &Dump) -> Result<(), Fail> {
    let before = first_lines(&dump.lines, 40 * LINES);
    let notes = first_lines_and(alloc, before, 40 * LINES, REFUSED)?;
    let want = Want {
        code: 2,
        image: first_bytes(&dump.image, 40 * PART),
        notes: &notes,
    };
    let run = decode(IBM_3740, &dump.input);
    a_line_is_written_or_fails(alloc, run, want, 40 * LINES, before)?;
    Ok(())
}

fn report_is_refused(alloc: Global, dump: &Dump) -> Result<(), Mismatch> {
    let want = Want {
        code: 2,
        image: first_lines(&dump.lines, 40 * LINES),
        notes: REFUSED.as_bytes(),
    };
    let run = report(IBM_3740, &dump.input);
    a_line_is_written_or_fails(alloc, run, want, 0, &[])
}

/// The run gives this. Where the call of this number, its last line's, fails, it leaves these notes.
fn a_line_is_written_or_fails(
    alloc: Global,
    run: Run,
    want: Want,
    call: usize,
    notes: &[u8],
) -> Result<(), Mismatch> {
    gives(alloc, run, want)?;
    let failing = Run {
        failing_notes: Some(call),
        ..run
    };
    let cut = Want {
        code: 6,
        notes,
        ..want
    };
    gives(alloc, failing, cut)?;
    Ok(())
}

/// The blocks of the last stream: their first bytes' numbers, and those of the bytes behind them.
const BLOCKS: [(usize, usize); 6] = [(0, 16), (16, 17), (17, 18), (18, 34), (34, 46), (46, 50)];

#[test]
fn the_last_track_is_cut_short(rt: HostRuntime) -> Result<(), Fail> {
    let dump = short_dump(rt.alloc(), IBM_3740)?;
    for (block, (from, to)) in BLOCKS.iter().enumerate() {
        for length in *from..*to {
            is_cut(rt.alloc(), &dump, length, block)?;
        }
    }
    Ok(())
}

/// Of the last stream there are so many bytes, which end inside this block.
fn is_cut(alloc: Global, dump: &Dump, length: usize, block: usize) -> Result<(), Fail> {
    let notes = cut_notes(alloc, dump, block)?;
    let input = streams_and_front(alloc, 76, length)?;
    let want = Want {
        code: 2,
        image: first_bytes(&dump.image, 76 * PART),
        notes: &notes,
    };
    gives(alloc, decode(IBM_3740, &input), want)?;
    Ok(())
}

fn cut_notes(alloc: Global, dump: &Dump, block: usize) -> Result<Vec<u8>, AllocError> {
    let line = format!(in alloc; "refused track 76 block {block} Truncated\n")?;
    first_lines_and(alloc, &dump.lines, 76 * LINES, &line)
}
