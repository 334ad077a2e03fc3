//! Runs of the program over objects in memory that have room for the streams of any image,
//! and over shelves with any files.
use file_maker::MemoryMaker;
use flux_base::{Memory, MemorySink, MemorySource, Word};
use flux_cli::run;
use std::alloc::Global;
use std::process::Abort;
use std::test::Fail;
use test_rows::Disk;
use track_shelf::MemoryShelf;

/// More bytes than the streams of any image have.
const ROOM: usize = 64_000_000;

/// How a run ended: its exit code, and what its sinks hold.
#[derive(Drop)]
pub struct Ended {
    pub code: u8,
    pub image: MemorySink,
    pub notes: MemorySink,
}

/// Runs the program with these words over a source and a shelf. The write of the image with
/// this number fails, if one does.
pub fn ends(
    alloc: Global,
    texts: &[&str],
    input: &[u8],
    shelf: &mut MemoryShelf,
    failing: Option<u64>,
) -> Result<Ended, Memory> {
    let mut image = sink_of(alloc, failing)?;
    let mut notes = sink_of(alloc, None)?;
    let code = code_of(alloc, texts, input, &mut image, &mut notes, shelf)?;
    Ok(Ended { code, image, notes })
}

fn sink_of(alloc: Global, failing: Option<u64>) -> Result<MemorySink, Memory> {
    let mut calls = Vec::new(alloc);
    if let Some(number) = failing {
        calls.push(number)?;
    }
    MemorySink::new(alloc, ROOM, calls)
}

fn code_of(
    alloc: Global,
    texts: &[&str],
    input: &[u8],
    image: &mut MemorySink,
    notes: &mut MemorySink,
    shelf: &mut MemoryShelf,
) -> Result<u8, Memory> {
    let words = words_of(alloc, texts)?;
    let mut source = MemorySource::new(input.to_vec(alloc)?, 4096, Vec::new(alloc));
    let mut maker = MemoryMaker::new(alloc, 0, 0, &[])?;
    let status = run(alloc, &words, &mut source, image, notes, shelf, &mut maker);
    Ok(status.code())
}

fn words_of(alloc: Global, texts: &[&str]) -> Result<Vec<Word>, Memory> {
    let mut words = Vec::new(alloc);
    for text in texts {
        words.push(Word::new(text.to_string(alloc)?))?;
    }
    Ok(words)
}

/// Runs `write` over an image. The write of the streams with this number fails, if one does.
pub fn write(
    alloc: Global,
    disk: Disk,
    image: &[u8],
    failing: Option<u64>,
) -> Result<Ended, Memory> {
    let mut shelf = MemoryShelf::new(&[], 1, &[]);
    ends(alloc, &["write", disk.word], image, &mut shelf, failing)
}

/// The streams that an image is written as, without a note.
pub fn streams_of(
    rt: &impl Abort,
    alloc: Global,
    disk: Disk,
    image: &[u8],
) -> Result<MemorySink, Fail> {
    let end = write(alloc, disk, image, None)?;
    assert_eq!(rt;
        (end.code, end.notes.bytes().len()),
        (0, 0),
        "write {}",
        disk.word
    );
    Ok(end.image)
}
