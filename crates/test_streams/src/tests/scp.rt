//! Tracks of SCP files, with their times worked out by hand: a unit of 25 ns is 0.600686 ticks.
use flux_base::MemorySource;
use index_turns::TrackFlux;
use kryo_stream::{MOST_INDEXES, MOST_TIMES, StreamFault};
use scp_files::{
    Capture, CaptureRefused, Revolution, RevolutionFault, ScpFault, ScpHeader, ScpTrackFault,
    TrackHead,
};
use std::alloc::Global;
use std::process::Abort;
use std::test::Fail;

/// A header whose table has two entries: track 0 lies at 24, right behind them, and track 1 is not there.
const FRONT: &[u8] = b"SCP\0\x80\x02\0\0\0\x10\0\x01\x44\x33\x22\x11\x18\0\0\0\0\0\0\0";

/// The header of track 0: 5000 units and three entries at 28; 5000 units and two entries at 34.
const HEAD: &[u8] = b"TRK\0\x88\x13\0\0\x03\0\0\0\x1C\0\0\0\x88\x13\0\0\x02\0\0\0\x22\0\0\0";

/// 1000 units; 65536, which are no transition; 2000. Then 1; 5000.
const ENTRIES: &[u8] = b"\x03\xE8\0\0\x07\xD0\0\x01\x13\x88";

/// A source of these parts, one behind the other.
fn source(
    alloc: Global,
    parts: &[&[u8]],
    chunk: u32,
    failing: &[u64],
) -> Result<MemorySource, Fail> {
    let mut bytes = Vec::new(alloc);
    for part in parts {
        bytes.extend_from_slice(part)?;
    }
    Ok(MemorySource::new(bytes, chunk.max(1), failing.to_vec(alloc)?))
}

/// Revolutions, each of so many units and entries.
type Turns = &'static [(u32, u32)];

/// What reading revolutions one after the other comes to: the first that is not read, and the transitions and index
/// times of those before it, with their stream's fault.
struct Came {
    ended: Option<RevolutionFault>,
    fault: Result<(), CaptureRefused>,
    times: &'static [u64],
    indexes: &'static [u64],
}

/// A name, a resolution, revolutions, how many bytes of entries there are, which reads fail, and what that comes to.
type Row = (&'static str, u8, Turns, usize, &'static [u64], Came);

const BOTH: Came = Came {
    ended: None,
    fault: Ok(()),
    times: &[601, 41169, 41169, 44173],
    indexes: &[0, 3003, 6007],
};

const ONE: Came = Came {
    ended: Some(RevolutionFault::Ended),
    fault: Ok(()),
    times: &[601, 41169],
    indexes: &[0, 3003],
};

const NONE: Came = Came {
    ended: Some(RevolutionFault::Ended),
    fault: Err(CaptureRefused::Refused {
        block: 2,
        fault: StreamFault::NoTurn,
    }),
    times: &[],
    indexes: &[0],
};

const ROWS: &[Row] = &[
    ("two revolutions", 0, &[(5000, 3), (5000, 2)], 10, &[], BOTH),
    // Units of 50 ns.
    (
        "resolution 1",
        1,
        &[(5000, 3), (5000, 2)],
        10,
        &[],
        Came {
            times: &[1201, 82337, 82338, 88345],
            indexes: &[0, 6007, 12014],
            ..BOTH
        },
    ),
    // The second revolution is cut inside its last entry, or before its first.
    ("cut by a byte", 0, &[(5000, 3), (5000, 2)], 9, &[], ONE),
    ("cut between", 0, &[(5000, 3), (5000, 2)], 6, &[], ONE),
    ("cut in the first", 0, &[(5000, 3), (5000, 2)], 5, &[], NONE),
    (
        "a failing read",
        0,
        &[(5000, 3)],
        10,
        &[0],
        Came {
            ended: Some(RevolutionFault::ReadFault),
            ..NONE
        },
    ),
    // The blocks are an Index, a Flux, two Indexes at one time.
    (
        "a revolution of no time",
        0,
        &[(5000, 3), (0, 2)],
        10,
        &[],
        Came {
            fault: Err(CaptureRefused::Refused {
                block: 3,
                fault: StreamFault::IndexOrder,
            }),
            indexes: &[0, 3003],
            ..BOTH
        },
    ),
    // 60069 is behind the last transition.
    (
        "an index behind",
        0,
        &[(100000, 1)],
        10,
        &[],
        Came {
            times: &[601],
            indexes: &[0, 60069],
            ..BOTH
        },
    ),
    (
        "too long",
        255,
        &[(28000000, 1)],
        10,
        &[],
        Came {
            fault: Err(CaptureRefused::TooLong),
            times: &[153776],
            indexes: &[0, 4305715200],
            ..BOTH
        },
    ),
];

/// Reads the revolutions of a row.
fn reads(rt: &impl Abort, alloc: Global, row: &Row, chunk: u32) -> Result<(), Fail> {
    let (name, resolution, turns, size, failing, wanted) = row;
    let mut input = source(
        alloc,
        &[&ENTRIES[..(*size).min(ENTRIES.len())]],
        chunk,
        failing,
    )?;
    let mut flux = TrackFlux::new(alloc);
    flux.reserve(MOST_TIMES, MOST_INDEXES)?;
    let mut capture = Capture::begin(flux, *resolution);
    let mut ended = None;
    for (duration, entries) in *turns {
        let revolution = Revolution {
            duration: *duration,
            entries: *entries,
            offset: 0,
        };
        if ended.is_none() && capture.takes(revolution) {
            ended = capture.read_revolution(revolution, &mut input).err();
        }
    }
    assert_eq!(rt; ended, wanted.ended, "{name} in chunks of {chunk}");
    assert_eq!(rt;
        capture.finish(),
        wanted.fault,
        "{name} in chunks of {chunk}"
    );
    assert_eq!(rt;
        (capture.flux().times(), capture.flux().indexes()),
        (wanted.times, wanted.indexes),
        "{name} in chunks of {chunk}"
    );
    Ok(())
}

#[test]
fn revolutions_are_read(rt: HostRuntime) -> Result<(), Fail> {
    for row in ROWS {
        for chunk in [1, 2, 3, 4096] {
            reads(&rt, rt.alloc(), row, chunk)?;
        }
    }
    Ok(())
}

#[test]
fn headers_are_read(rt: HostRuntime) -> Result<(), Fail> {
    for chunk in [1, 5, 4096] {
        let mut input = source(rt.alloc(), &[FRONT, HEAD], chunk, &[])?;
        match ScpHeader::read(&mut input) {
            Ok(header) => {
                assert_eq!(&rt; header.fault(), None);
                assert_eq!(&rt; header.track(0), Some(24));
                assert_eq!(&rt; header.track(1), None);
                // What would be the third entry is the track.
                assert_eq!(&rt; header.track(2), None);
            }
            Err(_) => assert!(&rt; false),
        }
        let mut track = source(rt.alloc(), &[HEAD, ENTRIES], chunk, &[])?;
        match TrackHead::read(2, &mut track) {
            Ok(head) => {
                assert_eq!(&rt; head.fault(2, 0), None);
                assert_eq!(&rt; head.fault(2, 1), Some(ScpTrackFault::BadNumber(0)));
                assert_eq!(&rt; head.fault(3, 0), Some(ScpTrackFault::ShortTrack));
            }
            Err(_) => assert!(&rt; false),
        }
    }
    Ok(())
}

/// The begin of a file, and why it has no tracks.
const FAULTS: &[(&[u8], ScpFault)] = &[
    (
        b"SCP\0\x80\x02\0\0\0\0\0\0\0\0\0",
        ScpFault::ShortHeader(15),
    ),
    (b"SCQ\0\x80\x02\0\0\0\0\0\0\0\0\0\0", ScpFault::BadSignature),
    (
        b"SCP\0\x80\x02\0\0\x40\x08\0\0\0\0\0\0",
        ScpFault::NotFloppy,
    ),
    (
        b"SCP\0\x80\x02\0\0\0\x08\0\0\0\0\0\0",
        ScpFault::BadWidth(8),
    ),
];

#[test]
fn files_are_refused(rt: HostRuntime) -> Result<(), Fail> {
    for (bytes, fault) in FAULTS {
        let mut input = source(rt.alloc(), &[bytes], 4096, &[])?;
        match ScpHeader::read(&mut input) {
            Ok(header) => assert_eq!(&rt; header.fault(), Some(*fault)),
            Err(_) => assert!(&rt; false),
        }
    }
    Ok(())
}
