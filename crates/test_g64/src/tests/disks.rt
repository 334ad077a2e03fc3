//! A disk of 35 tracks as a file and back, and what comes of a file that was changed.
use super::{AMPLE, Came, Outside, read};
use flux_base::{MemorySink, MemorySource};
use flux_engine::{Stopped, WriteFault};
use g64_image::{G64Fault, G64Room, to_g64};
use sector_images::Format;
use std::alloc::Global;
use std::process::Abort;
use std::test::Fail;

/// A disk of bytes 5E, as a file.
fn filed(alloc: Global, room: &mut G64Room) -> Result<MemorySink, Fail> {
    let image = vec![in alloc; 0x5Eu8; 174848]?;
    let mut source = MemorySource::new(image, 4096, Vec::new(alloc));
    let mut sink = MemorySink::new(alloc, 300000, Vec::new(alloc))?;
    to_g64(room, &mut source, &mut sink)?;
    Ok(sink)
}

/// A change of the file, and what it then comes to.
struct Row {
    name: &'static str,
    /// By so many bytes track 1 is turned.
    turned: usize,
    /// This byte stands at the place.
    place: usize,
    byte: u8,
    /// How the notes begin and end.
    first: &'static [u8],
    last: &'static [u8],
    /// The image, as runs of so many bytes of one value.
    image: &'static [(usize, u8)],
}

/// Nothing is changed.
const WHOLE: Row = Row {
    name: "a whole disk",
    turned: 0,
    place: 0,
    byte: 0x47,
    first: b"00.0 00 good 1 0 0 30\n",
    last: b"34.0 16 good 1 0 0 47006\ntotal 683 good 683 bad 0 missing 0 contradictory 0\n",
    image: &[(174848, 0x5E)],
};

const ROWS: &[Row] = &[
    WHOLE,
    // With 2 half tracks the file has an entry for track 1 alone.
    Row {
        name: "tracks past the table have no cells",
        place: 9,
        byte: 2,
        last: b"34.0 16 missing 0 0\ntotal 683 good 21 bad 0 missing 662 contradictory 0\n",
        image: &[(5376, 0x5E), (169472, 0)],
        ..WHOLE
    },
    // Its first sector begins before the seam and ends after it.
    Row {
        name: "a sector across the seam",
        turned: 100,
        first: b"00.0 00 good 1 0 0 60718\n00.0 01 good 1 0 0 2158\n",
        ..WHOLE
    },
    // The last byte of a sector's data differs: its header alone stands.
    Row {
        name: "a broken sector",
        place: 1000,
        byte: 0x4A,
        first: b"00.0 00 bad 0 1 0 30\n",
        last: b"total 683 good 682 bad 1 missing 0 contradictory 0\n",
        image: &[(256, 0), (174592, 0x5E)],
        ..WHOLE
    },
];

/// The file with the row's change.
fn changed(alloc: Global, file: &[u8], row: &Row) -> Result<Vec<u8>, Fail> {
    let mut bytes = Vec::new(alloc);
    for place in 0..file.len() {
        bytes.push(byte_at(file, row, place))?;
    }
    Ok(bytes)
}

/// A byte of it. Track 1 stands in the 7686 bytes from 686 on.
fn byte_at(file: &[u8], row: &Row, place: usize) -> u8 {
    if place == row.place {
        return row.byte;
    }
    let mut from = place;
    if place >= 686 && place < 8372 {
        from = 686 + place.saturating_sub(686).saturating_add(row.turned) % 7686;
    }
    file.get(from).copied().unwrap_or(0)
}

/// Whether the bytes are these runs, one after another.
fn are_runs(bytes: &[u8], runs: &[(usize, u8)]) -> bool {
    let mut rest = bytes;
    for (count, byte) in runs {
        let Some((run, behind)) = rest.split_at_checked(*count) else {
            return false;
        };
        if run.iter().any(|there| there != byte) {
            return false;
        }
        rest = behind;
    }
    rest.is_empty()
}

impl Came {
    fn is_as(&self, rt: &impl Abort, row: &Row) {
        let name = row.name;
        assert!(rt; self.answer.is_ok(), "of {name}");
        assert!(rt; are_runs(self.image.bytes(), row.image), "of {name}");
        assert!(rt; self.notes.bytes().starts_with(row.first), "of {name}");
        assert!(rt; self.notes.bytes().ends_with(row.last), "of {name}");
    }
}

#[test]
fn an_image_as_a_file_and_back(rt: HostRuntime) -> Result<(), Fail> {
    let alloc = rt.alloc();
    let mut room = G64Room::reserve(alloc, Format::C1541)?;
    let file = filed(alloc, &mut room)?;
    assert_eq!(rt; file.bytes().len(), 278234);
    let front = b"GCR-1541\x00\x54\xF8\x1E\xAC\x02\0\0\0\0\0\0";
    assert!(rt; file.bytes().starts_with(front));
    for row in ROWS {
        read(alloc, &mut room, changed(alloc, file.bytes(), row)?, &AMPLE)?.is_as(&rt, row);
    }
    Ok(())
}

#[test]
fn an_image_of_another_size(rt: HostRuntime) -> Result<(), Fail> {
    let alloc = rt.alloc();
    let mut room = G64Room::reserve(alloc, Format::C1541Forty)?;
    let image = vec![in alloc; 0u8; 196610]?;
    let mut source = MemorySource::new(image, 4096, Vec::new(alloc));
    let mut sink = MemorySink::new(alloc, 16, Vec::new(alloc))?;
    let stop = to_g64(&mut room, &mut source, &mut sink);
    let wrong = WriteFault::WrongSize {
        read: 196609,
        wanted: 196608,
    };
    assert_eq!(rt;
        (stop, source.rest(), sink.bytes()),
        (Err(wrong), b"\0".as_slice(), b"".as_slice())
    );
    Ok(())
}

/// Why reading the file stopped, the bytes of the image that were written, and how the notes then end.
const STOPS: &[(Outside, Stopped<G64Fault>, usize, &[u8])] = &[
    (
        Outside {
            failing: &[3],
            ..AMPLE
        },
        Stopped::ReadFault,
        0,
        b"",
    ),
    (
        Outside {
            image: 6000,
            ..AMPLE
        },
        Stopped::ImageFault,
        6000,
        b"00.0 20 good 1 0 0 58590\n",
    ),
    (
        Outside {
            notes: 100,
            ..AMPLE
        },
        Stopped::NotesFault,
        5376,
        b"",
    ),
];

#[test]
fn a_failing_source_and_failing_sinks(rt: HostRuntime) -> Result<(), Fail> {
    let alloc = rt.alloc();
    let mut room = G64Room::reserve(alloc, Format::C1541)?;
    let file = filed(alloc, &mut room)?;
    for (outside, stop, written, last) in STOPS {
        let came = read(alloc, &mut room, file.bytes().to_vec(alloc)?, outside)?;
        came.stopped(&rt, *stop, *written, last);
    }
    Ok(())
}

impl Came {
    fn stopped(&self, rt: &impl Abort, stop: Stopped<G64Fault>, written: usize, last: &[u8]) {
        assert_eq!(rt;
            (self.answer, self.image.bytes().len()),
            (Err(stop), written)
        );
        assert!(rt; self.notes.bytes().ends_with(last), "at {stop:?}");
    }
}
