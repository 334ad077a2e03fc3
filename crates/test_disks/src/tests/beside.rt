//! Files of a dump beside those of the tracks of the disk that is asked for.
use disk_map::map_dumps;
use dump_identity::{Candidate, Finding, Identity, IdentityRoom, identify};
use dump_reading::{DumpTotals, Dumps, read_dumps};
use flux_base::{Memory, MemorySink, MemorySource, TrackId, Word};
use flux_engine::{DiskRoom, WriteRoom, write_disk};
use sector_images::Format;
use sector_report::Totals;
use std::alloc::Global;
use std::str;
use std::test::Fail;
use track_shelf::{MemoryShelf, ShelfFile, Stepping};

/// More bytes than two tracks' streams, a picture or a report have.
pub const ROOM: usize = 1 << 19;

/// The disk that a word names by its numbers.
pub fn disk_of(word: &str) -> Format {
    Format::of_word(word.as_bytes()).unwrap_or(Format::Ibm3740)
}

/// What stands behind the first stream, which ends with an End block.
fn behind_first(streams: &[u8]) -> &[u8] {
    match streams
        .windows(4)
        .position(|four| four == [0x0D; 4].as_slice())
    {
        Some(end) => streams.get(end.saturating_add(4)..).unwrap_or(&[]),
        None => &[],
    }
}

/// A dump of both sides of a cylinder of the PC's disk, of nine sectors of zeros each.
fn two_sides(alloc: Global) -> Result<Vec<ShelfFile>, Memory> {
    let image = vec![in alloc; 0u8; 9216]?;
    let mut source = MemorySource::new(image, 4096, Vec::new(alloc));
    let mut sink = MemorySink::new(alloc, ROOM, Vec::new(alloc))?;
    let mut room = WriteRoom::reserve(alloc, disk_of("mfm-dd-1x2x9x512"))?;
    let _ = write_disk(&mut room, &mut source, &mut sink);
    let mut files = Vec::new(alloc);
    for (head, stream) in [(0, sink.bytes()), (1, behind_first(sink.bytes()))] {
        let track = TrackId { cylinder: 0, head };
        files.push(ShelfFile::new(b"dump".to_vec(alloc)?, track, stream.to_vec(alloc)?))?;
    }
    Ok(files)
}

/// So many sectors, of which so many are good, and all others are missing; so many streams that are passed over, and so
/// many other names, which all have data.
fn numbers(sectors: u32, good: u32, unread: u32, others: u32) -> DumpTotals {
    DumpTotals {
        sectors: Totals {
            sectors,
            good,
            bad: 0,
            missing: sectors.saturating_sub(good),
            contradictory: 0,
        },
        unread,
        lost: 0,
        others,
        whole: others,
    }
}

/// A word, what reading and drawing the dump of both sides as this disk comes to, and whether this is all of it.
type Row = (&'static str, (u32, u32, u32, u32), bool);

const ROWS: [Row; 4] = [
    ("mfm-dd-1x2x9x512", (18, 18, 0, 0), true),
    ("mfm-dd-1x1x9x512", (9, 9, 0, 9), false),
    ("mfm-dd-1x1x8x512", (8, 8, 0, 10), false),
    ("ibm-180", (360, 9, 39, 9), false),
];

/// What is told of the other side, where it is not asked for, of its first name. It stands in the first quarter of a
/// turn, of which the stream has four, and both clocks read it.
const OTHER_SIDE: &str = "\n00.1 other 0 1 1 2 8 8 ";

#[test]
fn the_other_side_is_looked_at(rt: HostRuntime) -> Result<(), Fail> {
    let alloc = rt.alloc();
    let files = two_sides(alloc)?;
    let names = [Word::new("dump".to_string(alloc)?)];
    let dumps = Dumps {
        names: &names,
        stepping: Stepping::Single,
    };
    for (word, (sectors, good, unread, others), complete) in ROWS {
        let mut shelf = MemoryShelf::new(&files, 4096, &[]);
        let mut image = MemorySink::new(alloc, ROOM, Vec::new(alloc))?;
        let mut notes = MemorySink::new(alloc, ROOM, Vec::new(alloc))?;
        let mut room = DiskRoom::reserve(alloc, disk_of(word))?;
        let totals = numbers(sectors, good, unread, others);
        let answer = read_dumps(&dumps, &mut room, &mut shelf, &mut image, &mut notes);
        assert_eq!(rt; answer, Ok(totals));
        assert_eq!(rt; totals.is_complete(), complete);
        let text = str::from_utf8(notes.bytes()).unwrap_or("");
        assert_eq!(rt; text.contains(OTHER_SIDE), !complete);
    }
    Ok(())
}

/// The foot of the picture of one side, which has no field of the other one.
const COUNTED: &str = ">unread 0 other 9 whole 9\n</text>\n";

#[test]
fn a_picture_counts_the_other_side(rt: HostRuntime) -> Result<(), Fail> {
    let alloc = rt.alloc();
    let files = two_sides(alloc)?;
    let names = [Word::new("dump".to_string(alloc)?)];
    let dumps = Dumps {
        names: &names,
        stepping: Stepping::Single,
    };
    let mut shelf = MemoryShelf::new(&files, 4096, &[]);
    let mut picture = MemorySink::new(alloc, ROOM, Vec::new(alloc))?;
    let mut room = DiskRoom::reserve(alloc, disk_of("mfm-dd-1x1x9x512"))?;
    let answer = map_dumps(&dumps, &mut room, &mut shelf, &mut picture);
    assert_eq!(rt; answer, Ok(numbers(9, 9, 0, 9)));
    let text = str::from_utf8(picture.bytes()).unwrap_or("");
    assert!(rt; text.contains(COUNTED) && !text.contains("<title>00.1 "));
    Ok(())
}

/// Disks for one side leave the other one, and those of eight sectors the ninth ones.
const SAID: &[u8] = b"ibm-360 good 18 of 720 other 0
--double-step ibm-360 good 18 of 720 other 0
ibm-720 good 18 of 1440 other 0
ibm-160 good 8 of 320 other 10
--double-step ibm-160 good 8 of 320 other 10
ibm-180 good 9 of 360 other 9
--double-step ibm-180 good 9 of 360 other 9
ibm-320 good 16 of 640 other 2
--double-step ibm-320 good 16 of 640 other 2
atari-st-800 good 18 of 1600 other 0
best ibm-360
";

#[test]
fn a_disk_of_one_side_does_not_explain_two(rt: HostRuntime) -> Result<(), Fail> {
    let alloc = rt.alloc();
    let files = two_sides(alloc)?;
    let dump = Word::new("dump".to_string(alloc)?);
    let mut shelf = MemoryShelf::new(&files, 4096, &[]);
    let mut lines = MemorySink::new(alloc, 4096, Vec::new(alloc))?;
    let answer = identify(&dump, IdentityRoom::reserve(alloc)?, &mut shelf, &mut lines);
    let best = Finding {
        candidate: Candidate {
            stepping: Stepping::Single,
            format: Format::Ibm360,
        },
        totals: Some(numbers(720, 18, 78, 0)),
    };
    assert_eq!(rt;
        answer,
        Ok(Identity {
            best: Some(best),
            failed: false,
            foreign: false
        })
    );
    assert!(rt; lines.bytes() == SAID);
    Ok(())
}

/// The shortest good stream: two transitions, with an Index block before and after them. No sector is in it.
const SHORT: [u8; 50] = [
    0x0D, 2, 12, 0, 0, 0, 0, 0, 0, 0, 0, 0, 0, 0, 0, 0, 0x60, 0x60, 0x0D, 2, 12, 0, 2, 0, 0, 0, 5,
    0, 0, 0, 24, 0, 0, 0, 0x0D, 3, 8, 0, 2, 0, 0, 0, 0, 0, 0, 0, 0x0D, 0x0D, 0x0D, 0x0D,
];

/// The last line of the last track's sectors of a disk of 77 tracks, and the end of its report.
const LAST: &str = "76.0 26 missing 0 0\n";

const END: &str = "total 2002 good 0 bad 0 missing 2002 contradictory 0\n";

/// The call of the shelf that fails, if one does, how many files failed, how many bytes of the file on the other side
/// are a stream, and what is told of it between these lines. The calls are an open and a read of the first track's
/// file, and an open for each of the other 76: the next one opens the file of the other side, which is there, and the
/// next one reads it. No other file is missed.
const FAILED: [(&[u64], u32, usize, &str); 4] = [
    (&[], 0, 50, "unread 76 other 0 whole 0\n"),
    (
        &[],
        0,
        40,
        "00.1 dump 0 refused block 4 Truncated\nunread 77 other 0 whole 0\n",
    ),
    (
        &[78],
        1,
        50,
        "00.1 dump 0 failed\nunread 77 other 0 whole 0\n",
    ),
    (
        &[79],
        1,
        50,
        "00.1 dump 0 failed\nunread 77 other 0 whole 0\n",
    ),
];

#[test]
fn files_of_the_other_side_are_told(rt: HostRuntime) -> Result<(), Fail> {
    let alloc = rt.alloc();
    let names = [Word::new("dump".to_string(alloc)?)];
    let dumps = Dumps {
        names: &names,
        stepping: Stepping::Single,
    };
    for (failing, lost, size, told) in FAILED {
        let mut files = Vec::new(alloc);
        for (head, size) in [(0, 50), (1, size.min(50))] {
            let track = TrackId { cylinder: 0, head };
            let bytes = SHORT[..size].to_vec(alloc)?;
            files.push(ShelfFile::new(b"dump".to_vec(alloc)?, track, bytes))?;
        }
        let mut shelf = MemoryShelf::new(&files, 4096, failing);
        let mut image = MemorySink::new(alloc, ROOM, Vec::new(alloc))?;
        let mut notes = MemorySink::new(alloc, ROOM, Vec::new(alloc))?;
        let mut room = DiskRoom::reserve(alloc, Format::Ibm3740)?;
        let answer = read_dumps(&dumps, &mut room, &mut shelf, &mut image, &mut notes);
        assert!(rt; answer.is_ok_and(|totals| totals.lost == lost));
        let text = str::from_utf8(notes.bytes()).unwrap_or("");
        let behind = text.split(LAST).last().unwrap_or("");
        assert!(rt; behind.strip_suffix(END) == Some(told), "{behind}");
    }
    Ok(())
}
