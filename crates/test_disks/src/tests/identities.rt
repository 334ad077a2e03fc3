//! Which disk a dump is of.
use dump_identity::{Candidate, Finding, Identity, IdentityRoom, identify};
use dump_reading::{DumpTotals, NoFiles};
use flux_base::{Memory, MemorySink, MemorySource, TrackId, Word};
use flux_engine::{Stopped, WriteRoom, write_disk};
use ibm_disks::IbmDisk;
use sector_images::Format;
use sector_report::Totals;
use std::alloc::Global;
use std::test::Fail;
use track_shelf::{MemoryShelf, ShelfFile, Stepping};

/// The shortest good stream: two transitions, with an Index block before and after them. No sector is in it.
const SHORT: [u8; 50] = [
    0x0D, 2, 12, 0, 0, 0, 0, 0, 0, 0, 0, 0, 0, 0, 0, 0, 0x60, 0x60, 0x0D, 2, 12, 0, 2, 0, 0, 0, 5,
    0, 0, 0, 24, 0, 0, 0, 0x0D, 3, 8, 0, 2, 0, 0, 0, 0, 0, 0, 0, 0x0D, 0x0D, 0x0D, 0x0D,
];

/// A file with the stream of the first track of Acorn's disk, ten sectors of zeros. What
/// stands behind it is not looked at.
fn acorn_track(alloc: Global) -> Result<Vec<u8>, Memory> {
    let image = vec![in alloc; 0u8; 102_400]?;
    let mut source = MemorySource::new(image, 4096, Vec::new(alloc));
    let mut sink = MemorySink::new(alloc, 1 << 18, Vec::new(alloc))?;
    let mut room = WriteRoom::reserve(alloc, Format::Numbered(IbmDisk::ACORN_DFS_40))?;
    let _ = write_disk(&mut room, &mut source, &mut sink);
    Ok(sink.bytes().to_vec(alloc)?)
}

/// What was said of a dump.
#[derive(Drop)]
struct Said {
    answer: Result<Identity, Stopped<NoFiles>>,
    lines: MemorySink,
}

/// Says which disk a dump is of that has this file for its first track. The call of the shelf with this number fails,
/// if one does, and the sink takes so many bytes.
fn say(
    alloc: Global,
    dump: &str,
    stream: &[u8],
    failing: &[u64],
    room: usize,
) -> Result<Said, Memory> {
    let track = TrackId {
        cylinder: 0,
        head: 0,
    };
    let mut files = Vec::new(alloc);
    files.push(ShelfFile::new(b"dump".to_vec(alloc)?, track, stream.to_vec(alloc)?))?;
    let mut shelf = MemoryShelf::new(&files, 4096, failing);
    let mut lines = MemorySink::new(alloc, room, Vec::new(alloc))?;
    let word = Word::new(dump.to_string(alloc)?);
    let identity_room = IdentityRoom::reserve(alloc)?;
    let answer = identify(&word, identity_room, &mut shelf, &mut lines);
    Ok(Said { answer, lines })
}

/// One track reads as well in three ways. The disk with fewest sectors is named, and of those the first.
const ACORN: &[u8] = b"acorn-dfs-40 good 10 of 400 other 0
--double-step acorn-dfs-40 good 10 of 400 other 0
acorn-dfs-80 good 10 of 800 other 0
best acorn-dfs-40
";

/// What reading the track as that disk comes to.
const BEST: Finding = Finding {
    candidate: Candidate {
        stepping: Stepping::Single,
        format: Format::Numbered(IbmDisk::ACORN_DFS_40),
    },
    totals: Some(DumpTotals {
        sectors: Totals {
            sectors: 400,
            good: 10,
            bad: 0,
            missing: 390,
            contradictory: 0,
        },
        unread: 39,
        lost: 0,
        others: 0,
        whole: 0,
    }),
};

#[test]
fn the_smallest_disk_is_named(rt: HostRuntime) -> Result<(), Fail> {
    let alloc = rt.alloc();
    let said = say(alloc, "dump", &acorn_track(alloc)?, &[], 4096)?;
    assert!(rt; said.lines.bytes() == ACORN);
    assert_eq!(rt;
        said.answer,
        Ok(Identity {
            best: Some(BEST),
            failed: false,
            foreign: false
        })
    );
    assert!(rt; !BEST.is_complete());
    Ok(())
}

/// What is said where no disk is named.
const NONE: Identity = Identity {
    best: None,
    failed: false,
    foreign: false,
};

/// The same where a file failed.
const NONE_FAILED: Identity = Identity {
    best: None,
    failed: true,
    foreign: false,
};

/// The name of the dump, the calls of the shelf that fail, the bytes that the sink takes, what is answered, and what is
/// written. The file is opened once, for all disks.
const ENDS: [(
    &str,
    &[u64],
    usize,
    Result<Identity, Stopped<NoFiles>>,
    &[u8],
); 4] = [
    ("dump", &[], 4096, Ok(NONE), b"best none\n"),
    ("dump", &[], 3, Err(Stopped::ImageFault), b"bes"),
    ("dump", &[0], 4096, Ok(NONE_FAILED), b"best none\n"),
    (
        "none",
        &[],
        4096,
        Err(Stopped::Refused(NoFiles { dump: 0 })),
        b"",
    ),
];

#[test]
fn no_disk_is_named(rt: HostRuntime) -> Result<(), Fail> {
    for (dump, failing, room, answer, lines) in ENDS {
        let said = say(rt.alloc(), dump, &SHORT, failing, room)?;
        assert_eq!(rt; said.answer, answer);
        assert!(rt; said.lines.bytes() == lines);
    }
    Ok(())
}
