//! Objects of the outside that live in memory.
use flux_base::{Failed, MemorySink, MemorySource, Source, TrackId, write_whole};
use sector_images::Format;
use std::alloc::{AllocError, Global};
use std::test::Fail;
use track_shelf::{MemoryShelf, Shelf, ShelfFile};

/// What is written to a sink with room for five bytes, whose second call fails; whether it is taken; and what the sink
/// holds afterwards.
const WRITES: [(&[u8], bool, &[u8]); 4] = [
    (b"abc", true, b"abc"),
    (b"de", false, b"abc"),
    (b"", true, b"abc"),
    (b"defg", false, b"abcde"),
];

#[test]
fn a_sink_takes_what_fits_its_room(rt: HostRuntime) -> Result<(), Fail> {
    let alloc = rt.alloc();
    let mut sink = MemorySink::new(alloc, 5, vec![in alloc; 1]?)?;
    for (bytes, is_taken, held) in WRITES {
        let answer = write_whole(&mut sink, bytes);
        assert_eq!(rt;
            (answer.is_ok(), sink.bytes()),
            (is_taken, held),
            "{bytes:?}"
        );
    }
    assert_eq!(rt; sink.calls(), 4);
    Ok(())
}

/// Reads into a buffer with so much room, of five bytes that come two at a time, and of which the second read fails;
/// and what the buffer holds afterwards.
const READS: [(usize, Result<usize, Failed>, [u8; 4]); 5] = [
    (4, Ok(2), *b"ab\0\0"),
    (4, Err(Failed), *b"ab\0\0"),
    (1, Ok(1), *b"cb\0\0"),
    (4, Ok(2), *b"de\0\0"),
    (4, Ok(0), *b"de\0\0"),
];

#[test]
fn a_source_gives_its_bytes_in_chunks(rt: HostRuntime) -> Result<(), Fail> {
    let alloc = rt.alloc();
    let mut source = MemorySource::new(b"abcde".to_vec(alloc)?, 2, vec![in alloc; 1]?);
    let mut buffer = [0; 4];
    for (room, answer, held) in READS {
        let read = source.read(&mut buffer[..room.min(4)]);
        assert_eq!(rt; (read, buffer), (answer, held));
    }
    assert_eq!(rt; source.calls(), 5);
    Ok(())
}

const TRACK: TrackId = TrackId {
    cylinder: 7,
    head: 1,
};

const FIRST: TrackId = TrackId {
    cylinder: 0,
    head: 0,
};

/// The 77 files of a disk with one head. Each has its cylinder's number in one byte, save that the second is empty.
/// Beside them lie a file of the other head and one of another folder.
fn files(alloc: Global) -> Result<Vec<ShelfFile>, AllocError> {
    let mut files = Vec::new(alloc);
    for cylinder in [77, 76].into_iter().chain(0..76) {
        let id = TrackId { cylinder, head: 0 };
        let mut bytes = Vec::new(alloc);
        if cylinder != 1 {
            bytes.push(cylinder)?;
        }
        files.push(ShelfFile::new(b"a".to_vec(alloc)?, id, bytes))?;
    }
    files.push(ShelfFile::new(b"a".to_vec(alloc)?, TRACK, b"x".to_vec(alloc)?))?;
    files.push(ShelfFile::new(b"b".to_vec(alloc)?, FIRST, b"y".to_vec(alloc)?))?;
    Ok(files)
}

#[test]
fn a_shelf_gives_the_wanted_files_in_order(rt: HostRuntime) -> Result<(), Fail> {
    let alloc = rt.alloc();
    let files = files(alloc)?;
    let mut shelf = MemoryShelf::new(&files, 4, &[0]);
    let mut buffer = [9; 3];
    assert_eq!(rt; shelf.begin(b"b", Format::Ibm3740), Err(Failed));
    assert_eq!(rt; shelf.begin(b"b", Format::Ibm3740), Ok(Some(1)));
    assert_eq!(rt; shelf.read(&mut buffer), Ok(0));
    assert_eq!(rt; shelf.begin(b"a", Format::Ibm3740), Ok(None));
    for cylinder in (0..77).filter(|cylinder| *cylinder != 1) {
        let read = shelf.read(&mut buffer);
        assert_eq!(rt; (read, buffer[0]), (Ok(1), cylinder));
    }
    assert_eq!(rt; shelf.read(&mut buffer), Ok(0));
    Ok(())
}
