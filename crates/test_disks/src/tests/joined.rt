//! Joined streams as files that are made in memory.
use super::beside::{ROOM, disk_of};
use file_maker::MemoryMaker;
use flux_base::{MemorySink, MemorySource};
use flux_engine::{WriteRoom, write_disk};
use kryo_stream::StreamFault;
use std::alloc::Global;
use std::test::Fail;
use stream_files::{Heads, SplitFault, SplitRoom, split_streams};

/// The streams of a cylinder of the PC's disk, of nine sectors of zeros on each side, one after the other.
fn streams(alloc: Global) -> Result<Vec<u8>, Fail> {
    let mut image = MemorySource::new(vec![in alloc; 0u8; 9216]?, 4096, Vec::new(alloc));
    let mut sink = MemorySink::new(alloc, ROOM, Vec::new(alloc))?;
    let mut room = WriteRoom::reserve(alloc, disk_of("mfm-dd-1x2x9x512"))?;
    let _written = write_disk(&mut room, &mut image, &mut sink);
    Ok(Vec::from_slice(alloc, sink.bytes())?)
}

/// The bytes of all files that were made, one after another.
fn joined(alloc: Global, maker: &MemoryMaker) -> Result<Vec<u8>, Fail> {
    let mut bytes = Vec::new(alloc);
    for file in maker.files() {
        bytes.extend_from_slice(file.bytes())?;
    }
    Ok(bytes)
}

#[test]
fn joined_streams_are_split_into_files_once(rt: HostRuntime) -> Result<(), Fail> {
    let alloc = rt.alloc();
    let bytes = streams(alloc)?;
    let mut room = SplitRoom::reserve(alloc)?;
    let mut maker = MemoryMaker::new(alloc, 2, ROOM, &[])?;
    let mut source = MemorySource::new(bytes.clone()?, 4096, Vec::new(alloc));
    let count = split_streams(&mut room, &mut source, &mut maker, b"out", Heads::Two);
    assert_eq!(rt; (count, maker.has_folder(b"out")), (Ok(2), true));
    for (file, path) in maker
        .files()
        .iter()
        .zip(["out/track00.0.raw", "out/track00.1.raw"])
    {
        assert_eq!(rt; file.path(), path);
    }
    assert_eq!(rt;
        (maker.files().len(), joined(alloc, &maker)? == bytes),
        (2, true)
    );

    let mut source = MemorySource::new(bytes, 4096, Vec::new(alloc));
    let again = split_streams(&mut room, &mut source, &mut maker, b"out", Heads::Two);
    assert_eq!(rt;
        (again, source.calls()),
        (Err(SplitFault::Exists { stream: 0 }), 0)
    );
    Ok(())
}

#[test]
fn streams_before_a_refused_one_are_files(rt: HostRuntime) -> Result<(), Fail> {
    let alloc = rt.alloc();
    let bytes = streams(alloc)?;
    let mut input = bytes.clone()?;
    input.extend_from_slice(&[0x0D; 16])?;
    // The first byte of three, of a transition.
    input.push(0x0C)?;
    let mut room = SplitRoom::reserve(alloc)?;
    let mut maker = MemoryMaker::new(alloc, 2, ROOM, &[])?;
    let mut source = MemorySource::new(input, 4096, Vec::new(alloc));
    let answer = split_streams(&mut room, &mut source, &mut maker, b"", Heads::One);
    let fault = StreamFault::Truncated;
    assert_eq!(rt;
        answer,
        Err(SplitFault::Refused {
            stream: 2,
            block: 0,
            fault
        })
    );
    assert_eq!(rt; joined(alloc, &maker)? == bytes, true);
    Ok(())
}
