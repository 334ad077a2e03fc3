//! An image as files that are made in memory.
use super::beside::{ROOM, disk_of};
use disk_files::{FilesFault, FilesRoom, write_disk_files};
use file_maker::MemoryMaker;
use flux_base::{MemorySink, MemorySource};
use flux_engine::{WriteRoom, write_disk};
use std::alloc::Global;
use std::test::Fail;

/// The Info block in front of each file: its text has 19 and 5 and 22 and 21 bytes, and a zero, which are 44 hex.
const INFO: &[u8] =
    b"\x0D\x04\x44\x00name=flux, version=0.4.0, sck=24027428.5714285, ick=3003428.5714285\0";

/// An image of a cylinder of the PC's disk, of nine sectors of zeros on each side.
fn image(alloc: Global) -> Result<MemorySource, Fail> {
    Ok(MemorySource::new(vec![in alloc; 0u8; 9216]?, 4096, Vec::new(alloc)))
}

#[test]
fn an_image_is_written_as_files_once(rt: HostRuntime) -> Result<(), Fail> {
    let alloc = rt.alloc();
    let format = disk_of("mfm-dd-1x2x9x512");
    let mut sink = MemorySink::new(alloc, ROOM, Vec::new(alloc))?;
    let written = write_disk(
        &mut WriteRoom::reserve(alloc, format)?,
        &mut image(alloc)?,
        &mut sink,
    );
    assert_eq!(rt; written, Ok(()));

    let mut maker = MemoryMaker::new(alloc, 2, ROOM, &[])?;
    let mut room = FilesRoom::reserve(alloc, format)?;
    let answer = write_disk_files(&mut room, &mut image(alloc)?, &mut maker, b"out", "0.4.0");
    assert_eq!(rt; (answer, maker.has_folder(b"out")), (Ok(()), true));
    let mut joined = Vec::new(alloc);
    for (file, path) in maker
        .files()
        .iter()
        .zip(["out/track00.0.raw", "out/track00.1.raw"])
    {
        assert_eq!(rt; file.path(), path);
        joined.extend_from_slice(file.bytes().strip_prefix(INFO).unwrap_or(&[]))?;
    }
    assert_eq!(rt;
        (maker.files().len(), joined.as_slice() == sink.bytes()),
        (2, true)
    );

    let again = write_disk_files(&mut room, &mut image(alloc)?, &mut maker, b"out", "0.4.0");
    assert_eq!(rt;
        (again, maker.files().len()),
        (Err(FilesFault::Exists { track: 0 }), 2)
    );
    Ok(())
}
