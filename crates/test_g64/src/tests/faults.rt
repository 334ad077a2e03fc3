//! Files with a fault, and those at its border.
use super::{AMPLE, Came, read};
use flux_engine::Stopped;
use g64_image::{G64Fault, G64Room, g64_line};
use sector_images::Format;
use std::alloc::Global;
use std::process::Abort;
use std::test::Fail;

/// A file: its front, and so many zeros. Then its fault and the fault's line; or no fault, and what it is.
type Row = (&'static [u8], usize, Option<G64Fault>, &'static str);

const HEADERS: &[Row] = &[
    (
        b"",
        4194305,
        Some(G64Fault::TooLarge),
        "refused g64 TooLarge\n",
    ),
    (
        b"",
        4194304,
        Some(G64Fault::BadSignature),
        "refused g64 BadSignature\n",
    ),
    (
        b"",
        12,
        Some(G64Fault::BadSignature),
        "refused g64 BadSignature\n",
    ),
    (
        b"GCR-1542\0\x54\xF8\x1E",
        672,
        Some(G64Fault::BadSignature),
        "refused g64 BadSignature\n",
    ),
    (
        b"GCR-1541\0\x54\xF8",
        0,
        Some(G64Fault::ShortHeader(11)),
        "refused g64 ShortHeader 11\n",
    ),
    (
        b"GCR-1541\x01\x54\xF8\x1E",
        0,
        Some(G64Fault::BadVersion(1)),
        "refused g64 BadVersion 1\n",
    ),
    (
        b"GCR-1541\0\0\xF8\x1E",
        0,
        Some(G64Fault::BadTracks(0)),
        "refused g64 BadTracks 0\n",
    ),
    (
        b"GCR-1541\0\x55\xF8\x1E",
        680,
        Some(G64Fault::BadTracks(85)),
        "refused g64 BadTracks 85\n",
    ),
];

const TABLES: &[Row] = &[
    (
        b"GCR-1541\0\x54\xF8\x1E",
        0,
        Some(G64Fault::ShortTable(12)),
        "refused g64 ShortTable 12\n",
    ),
    (
        b"GCR-1541\0\x54\xF8\x1E",
        671,
        Some(G64Fault::ShortTable(683)),
        "refused g64 ShortTable 683\n",
    ),
    (b"GCR-1541\0\x54\xF8\x1E", 672, None, "84 half tracks"),
    (
        b"GCR-1541\0\x01\xF8\x1E",
        7,
        Some(G64Fault::ShortTable(19)),
        "refused g64 ShortTable 19\n",
    ),
    (b"GCR-1541\0\x01\xF8\x1E", 8, None, "one half track"),
];

const TRACKS: &[Row] = &[
    // The length of track 1 at the last two bytes, and one byte further on.
    (
        b"GCR-1541\0\x01\xF8\x1E\x16",
        11,
        None,
        "a track of length 0 at the end",
    ),
    (
        b"GCR-1541\0\x01\xF8\x1E\x17",
        11,
        Some(G64Fault::BadOffset {
            track: 1,
            offset: 23,
        }),
        "refused g64 BadOffset 1 23\n",
    ),
    (
        b"GCR-1541\0\x01\xF8\x1E\xFF\xFF\xFF\xFF",
        8,
        Some(G64Fault::BadOffset {
            track: 1,
            offset: 0xFFFF_FFFF,
        }),
        "refused g64 BadOffset 1 4294967295\n",
    ),
    // Its last byte at the end, and one byte further on.
    (
        b"GCR-1541\0\x01\xF8\x1E\x14\0\0\0\0\0\0\0\x02",
        3,
        None,
        "a track of two bytes at the end",
    ),
    (
        b"GCR-1541\0\x01\xF8\x1E\x14\0\0\0\0\0\0\0\x03",
        3,
        Some(G64Fault::ShortTrack {
            track: 1,
            length: 3,
        }),
        "refused g64 ShortTrack 1 3\n",
    ),
    // The first track with a fault is named. Track 1 ends past the end, and track 2 begins there; of a half track
    // between them nothing is looked at.
    (
        b"GCR-1541\0\x03\xF8\x1E\x24\0\0\0\x63\0\0\0\x63\0\0\0\0\0\0\0\0\0\0\0\0\0\0\0\0\x01",
        0,
        Some(G64Fault::ShortTrack {
            track: 1,
            length: 256,
        }),
        "refused g64 ShortTrack 1 256\n",
    ),
    (
        b"GCR-1541\0\x03\xF8\x1E\x24\0\0\0\x63\0\0\0\x63",
        17,
        Some(G64Fault::BadOffset {
            track: 2,
            offset: 99,
        }),
        "refused g64 BadOffset 2 99\n",
    ),
];

const NOTHING: &[u8] = b"total 683 good 0 bad 0 missing 683 contradictory 0\n";

impl Came {
    /// Compares what a file with this fault came to: nothing was written.
    fn is_refused(&self, rt: &impl Abort, fault: G64Fault, line: &str) {
        assert_eq!(rt; self.answer, Err(Stopped::Refused(fault)), "at {line}");
        assert_eq!(rt; self.image.bytes().len(), 0, "at {line}");
        assert_eq!(rt; self.notes.bytes().len(), 0, "at {line}");
        assert_eq!(rt; g64_line(&fault).as_str(), line);
    }

    /// Compares what a file without a fault came to, of which no sector is read.
    fn is_empty(&self, rt: &impl Abort, what: &str) {
        assert!(rt; self.answer.is_ok(), "of {what}");
        assert!(rt; self.notes.bytes().ends_with(NOTHING), "of {what}");
        assert_eq!(rt; self.image.bytes().len(), 174848, "of {what}");
    }
}

fn comes_to(rt: &impl Abort, alloc: Global, room: &mut G64Room, row: &Row) -> Result<(), Fail> {
    let (front, zeros, fault, line) = row;
    let mut file = front.to_vec(alloc)?;
    file.resize(front.len().saturating_add(*zeros), 0)?;
    let came = read(alloc, room, file, &AMPLE)?;
    match fault {
        Some(fault) => came.is_refused(rt, *fault, line),
        None => came.is_empty(rt, line),
    }
    Ok(())
}

#[test]
fn the_first_fault_of_a_file_is_named(rt: HostRuntime) -> Result<(), Fail> {
    let mut room = G64Room::reserve(rt.alloc(), Format::C1541)?;
    for rows in [HEADERS, TABLES, TRACKS] {
        for row in rows {
            comes_to(&rt, rt.alloc(), &mut room, row)?;
        }
    }
    Ok(())
}
