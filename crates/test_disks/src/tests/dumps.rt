//! Disks that are read of their dumps.
use disk_map::map_dumps;
use dump_reading::{DumpTotals, Dumps, NoFiles, read_dumps};
use flux_base::{Memory, MemorySink, TrackId, Word};
use flux_engine::{DiskRoom, Stopped};
use sector_images::Format;
use sector_report::Totals;
use std::alloc::{AllocError, Global};
use std::str;
use std::test::Fail;
use track_shelf::{MemoryShelf, ShelfFile, Stepping};

/// The shortest good stream: two transitions, with an Index block before and after them. No sector is in it.
const SHORT: [u8; 50] = [
    0x0D, 2, 12, 0, 0, 0, 0, 0, 0, 0, 0, 0, 0, 0, 0, 0, 0x60, 0x60, 0x0D, 2, 12, 0, 2, 0, 0, 0, 5,
    0, 0, 0, 24, 0, 0, 0, 0x0D, 3, 8, 0, 2, 0, 0, 0, 0, 0, 0, 0, 0x0D, 0x0D, 0x0D, 0x0D,
];

/// The first dump has the file of the first cylinder, and the second one that of the second,
/// which ends inside its fifth block.
fn files(alloc: Global) -> Result<Vec<ShelfFile>, AllocError> {
    let mut files = Vec::new(alloc);
    for (folder, cylinder, size) in [("a", 0, 50), ("b", 1, 40)] {
        let track = TrackId { cylinder, head: 0 };
        let bytes = SHORT[..size.min(50)].to_vec(alloc)?;
        files.push(ShelfFile::new(folder.as_bytes().to_vec(alloc)?, track, bytes))?;
    }
    Ok(files)
}

/// What reading came to, and what was written.
#[derive(Drop)]
struct Ended {
    answer: Result<DumpTotals, Stopped<NoFiles>>,
    image: MemorySink,
    notes: MemorySink,
}

fn words_of(alloc: Global, names: &[&str]) -> Result<Vec<Word>, Memory> {
    let mut words = Vec::new(alloc);
    for name in names {
        words.push(Word::new(name.to_string(alloc)?))?;
    }
    Ok(words)
}

/// Reads a disk of 77 tracks of these dumps. The call of the shelf with this number fails, if one does.
fn read(alloc: Global, names: &[&str], failing: &[u64]) -> Result<Ended, Memory> {
    let words = words_of(alloc, names)?;
    let files = files(alloc)?;
    let mut shelf = MemoryShelf::new(&files, 4096, failing);
    let mut image = MemorySink::new(alloc, 1 << 18, Vec::new(alloc))?;
    let mut notes = MemorySink::new(alloc, 1 << 18, Vec::new(alloc))?;
    let mut room = DiskRoom::reserve(alloc, Format::Ibm3740)?;
    let dumps = Dumps {
        names: &words[..words.len().min(16)],
        stepping: Stepping::Single,
    };
    let answer = read_dumps(&dumps, &mut room, &mut shelf, &mut image, &mut notes);
    Ok(Ended {
        answer,
        image,
        notes,
    })
}

/// What is said of the first sector of either track of which a dump has a file, and the end of the report.
const FIRST: &[u8] = b"00.0 dump 1 missing\n00.0 01 missing 0 0\n";

const SECOND: &str =
    "\n01.0 dump 0 missing\n01.0 dump 1 refused block 4 Truncated\n01.0 01 missing 0 0\n";

const END: &[u8] =
    b"unread 153 other 0 whole 0\ntotal 2002 good 0 bad 0 missing 2002 contradictory 0\n";

/// What both dumps come to.
const BOTH: DumpTotals = DumpTotals {
    sectors: Totals {
        sectors: 2002,
        good: 0,
        bad: 0,
        missing: 2002,
        contradictory: 0,
    },
    unread: 153,
    lost: 0,
    others: 0,
    whole: 0,
};

#[test]
fn streams_are_passed_over(rt: HostRuntime) -> Result<(), Fail> {
    let end = read(rt.alloc(), &["a", "b"], &[])?;
    assert_eq!(rt; end.answer, Ok(BOTH));
    assert_eq!(rt; end.image.bytes().len(), 256_256);
    let notes = end.notes.bytes();
    assert!(rt; notes.starts_with(FIRST));
    assert!(rt; str::from_utf8(notes).is_ok_and(|text| text.contains(SECOND)));
    assert!(rt; notes.ends_with(END));
    Ok(())
}

/// The dumps, the calls of the shelf that fail, and why nothing is written. No file is opened before each dump has one.
const REFUSED: [(&[&str], &[u64], Stopped<NoFiles>); 3] = [
    (&["a", "c", "b"], &[], Stopped::Refused(NoFiles { dump: 1 })),
    (&["c"], &[], Stopped::Refused(NoFiles { dump: 0 })),
    (&["a", "c"], &[0], Stopped::Refused(NoFiles { dump: 1 })),
];

/// The call of the shelf that fails, how many streams are passed over then, and what is told of the track. Of each
/// track the first dump's file is opened and read, and then the second one's.
const FAILED: [(u64, u32, &str); 3] = [
    (
        0,
        154,
        "00.0 dump 0 failed\n00.0 dump 1 missing\n00.0 01 missing 0 0\n",
    ),
    (
        1,
        154,
        "00.0 dump 0 failed\n00.0 dump 1 missing\n00.0 01 missing 0 0\n",
    ),
    (
        4,
        153,
        "\n01.0 dump 0 missing\n01.0 dump 1 failed\n01.0 01 missing 0 0\n",
    ),
];

#[test]
fn a_file_that_fails_is_passed_over(rt: HostRuntime) -> Result<(), Fail> {
    for (call, unread, told) in FAILED {
        let end = read(rt.alloc(), &["a", "b"], &[call])?;
        let totals = DumpTotals {
            unread,
            lost: 1,
            ..BOTH
        };
        assert_eq!(rt; end.answer, Ok(totals));
        assert_eq!(rt; end.image.bytes().len(), 256_256);
        assert!(rt; str::from_utf8(end.notes.bytes()).is_ok_and(|text| text.contains(told)));
    }
    Ok(())
}

#[test]
fn dumps_without_files_are_refused(rt: HostRuntime) -> Result<(), Fail> {
    for (names, failing, why) in REFUSED {
        let end = read(rt.alloc(), names, failing)?;
        assert_eq!(rt; end.answer, Err(why));
        assert_eq!(rt; (end.image.bytes().len(), end.notes.bytes().len()), (0, 0));
    }
    Ok(())
}

/// Draws the same disk of these dumps. The call of the shelf and the write of the picture with
/// these numbers fail, if some do.
fn draw(
    alloc: Global,
    names: &[&str],
    calls: &[u64],
    writes: &[u64],
) -> Result<(Result<DumpTotals, Stopped<NoFiles>>, MemorySink), Memory> {
    let words = words_of(alloc, names)?;
    let files = files(alloc)?;
    let mut shelf = MemoryShelf::new(&files, 4096, calls);
    let mut picture = MemorySink::new(alloc, 1 << 20, writes.to_vec(alloc)?)?;
    let mut room = DiskRoom::reserve(alloc, Format::Ibm3740)?;
    let dumps = Dumps {
        names: &words[..words.len().min(16)],
        stepping: Stepping::Single,
    };
    let answer = map_dumps(&dumps, &mut room, &mut shelf, &mut picture);
    Ok((answer, picture))
}

/// A row of the picture of both dumps: its title, a field, what it counts right of the legend, below one
/// grid of 26 rows, and its end.
const PARTS: [&str; 3] = [
    "<title>flux read ibm-3740</title>\n",
    "<path fill=\"#8c8c8c\" d=\"M40 56v10h10v-10zm2 2h6v6h-6z\"><title>00.0 01 missing 0 0\n</title></path>\n",
    "<text x=\"240\" y=\"391\">unread 153 other 0 whole 0\n</text>\n",
];

const PICTURE_END: &str =
    ">total 2002 good 0 bad 0 missing 2002 contradictory 0\n</text>\n</svg>\n";

#[test]
fn dumps_are_drawn(rt: HostRuntime) -> Result<(), Fail> {
    let (answer, picture) = draw(rt.alloc(), &["a", "b"], &[], &[])?;
    assert_eq!(rt; answer, Ok(BOTH));
    let text = str::from_utf8(picture.bytes()).unwrap_or("");
    for part in PARTS {
        assert!(rt; text.contains(part), "{part}");
    }
    assert!(rt; text.ends_with(PICTURE_END));
    Ok(())
}

#[test]
fn a_picture_counts_files_that_failed(rt: HostRuntime) -> Result<(), Fail> {
    let (answer, picture) = draw(rt.alloc(), &["a", "b"], &[4], &[])?;
    assert_eq!(rt; answer, Ok(DumpTotals { lost: 1, ..BOTH }));
    assert!(rt; str::from_utf8(picture.bytes()).is_ok_and(|text| text.ends_with(PICTURE_END)));
    Ok(())
}

/// The dumps, the writes that fail, why the picture ends early, and how it ends then.
type Cut = (
    &'static [&'static str],
    &'static [u64],
    Stopped<NoFiles>,
    &'static str,
);

const LAST_FIELD: &str = "<title>00.0 26 missing 0 0\n</title></path>\n";

const CUT: [Cut; 3] = [
    (&["a", "c"], &[], Stopped::Refused(NoFiles { dump: 1 }), ""),
    (&["a", "b"], &[0], Stopped::ImageFault, ""),
    // Three pieces stand before the fields, of which the first track has 26.
    (&["a", "b"], &[29], Stopped::ImageFault, LAST_FIELD),
];

#[test]
fn pictures_of_dumps_are_cut(rt: HostRuntime) -> Result<(), Fail> {
    for (names, writes, why, end) in CUT {
        let (answer, picture) = draw(rt.alloc(), names, &[], writes)?;
        assert_eq!(rt; answer, Err(why));
        let text = str::from_utf8(picture.bytes()).unwrap_or("");
        assert!(rt; text.ends_with(end) && text.is_empty() == end.is_empty());
    }
    Ok(())
}
