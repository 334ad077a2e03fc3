//! Runs of the program over objects in memory.
use crate::disk::Disk;
use crate::short_sink::ShortSink;
use file_maker::MemoryMaker;
use flux_base::{Memory, MemorySink, MemorySource, TrackId, Word};
use flux_cli::run;
use std::alloc::{AllocError, Global};
use track_shelf::{MemoryShelf, ShelfFile};

/// More bytes than any image or report of the formats has.
const ROOM: usize = 2_000_000;

/// A run: its words, what it reads, and the numbers, from 0, of the calls that fail.
#[derive(Clone, Copy)]
pub struct Run<'a> {
    pub command: &'a str,
    pub format: Option<&'a str>,
    /// The number of a trial, how many streams capture a track, or the name of a folder.
    pub third: Option<&'a str>,
    pub input: &'a [u8],
    /// What lies on the shelf, if anything does.
    pub files: Option<Files<'a>>,
    /// The most bytes that a read gives, and that a write takes.
    pub chunk: u32,
    pub taken: usize,
    pub failing_read: Option<usize>,
    pub failing_image: Option<usize>,
    pub failing_notes: Option<usize>,
    pub failing_shelf: Option<usize>,
}

/// The files of a folder, one for each track of a disk.
#[derive(Clone, Copy)]
pub struct Files<'a> {
    pub disk: Disk,
    pub folder: &'a str,
    /// The bytes of all files, one after another, and how many a file has: fewer, or none, where they end.
    pub bytes: &'a [u8],
    pub size: usize,
}

/// What a run is to give: its exit code, and the bytes of both sinks.
#[derive(Clone, Copy)]
pub struct Want<'a> {
    pub code: u8,
    pub image: &'a [u8],
    pub notes: &'a [u8],
}

/// In what a run gave something else, and which run it was: by its input's length and its failing call.
#[derive(Debug, Drop)]
pub struct Mismatch {
    pub part: RunPart,
    pub input: usize,
    pub failing: Option<usize>,
}

/// What differs.
#[derive(Clone, Copy, Debug)]
pub enum RunPart {
    /// There was no memory for the objects.
    Memory,
    Code(u8),
    Image,
    Notes,
}

/// `turns` over a stream.
pub fn turns(input: &[u8]) -> Run<'_> {
    Run {
        command: "turns",
        format: None,
        third: None,
        input,
        files: None,
        chunk: 4096,
        taken: ROOM,
        failing_read: None,
        failing_image: None,
        failing_notes: None,
        failing_shelf: None,
    }
}

/// `decode` over the streams of a disk.
pub fn decode(disk: Disk, input: &[u8]) -> Run<'_> {
    Run {
        command: "decode",
        format: Some(disk.word),
        ..turns(input)
    }
}

/// `report` over the streams of a disk.
pub fn report(disk: Disk, input: &[u8]) -> Run<'_> {
    Run {
        command: "report",
        ..decode(disk, input)
    }
}

/// `decode-set` over the streams of a disk, so many for each track.
pub fn decode_set<'a>(disk: Disk, count: &'a str, input: &'a [u8]) -> Run<'a> {
    Run {
        command: "decode-set",
        third: Some(count),
        ..decode(disk, input)
    }
}

/// `decode-folder` over a folder of these files. Nothing is to be read but the shelf.
pub fn decode_folder(files: Files<'_>) -> Run<'_> {
    Run {
        command: "decode-folder",
        third: Some(files.folder),
        files: Some(files),
        ..decode(files.disk, &[])
    }
}

/// The run gives what it is to give. The answer is the number of bytes that it left.
pub fn gives(alloc: Global, row: Run, want: Want) -> Result<usize, Mismatch> {
    match end_of(alloc, row) {
        Ok(end) => match difference(&end, want) {
            None => Ok(end.source.rest().len()),
            Some(part) => Err(mismatch_of(part, row)),
        },
        Err(Memory) => Err(mismatch_of(RunPart::Memory, row)),
    }
}

/// The run ends with this exit code, after a front of what the whole run gives to each sink.
pub fn is_cut(alloc: Global, row: Run, whole: Want, code: u8) -> Result<(), Mismatch> {
    match end_of(alloc, row) {
        Ok(end) => match excess(&end, whole, code) {
            None => Ok(()),
            Some(part) => Err(mismatch_of(part, row)),
        },
        Err(Memory) => Err(mismatch_of(RunPart::Memory, row)),
    }
}

fn mismatch_of(part: RunPart, row: Run) -> Mismatch {
    let Run { input, .. } = row;
    let writes = row.failing_image.or(row.failing_notes);
    let failing = row.failing_read.or(writes).or(row.failing_shelf);
    Mismatch {
        part,
        input: input.len(),
        failing,
    }
}

/// What a run answered, and its objects after it.
#[derive(Drop)]
pub struct Ended {
    pub code: u8,
    pub source: MemorySource,
    pub image: ShortSink,
    pub notes: ShortSink,
}

impl Ended {
    /// What the run gave.
    pub fn given(&self) -> Want<'_> {
        Want {
            code: self.code,
            image: self.image.sink.bytes(),
            notes: self.notes.sink.bytes(),
        }
    }
}

fn difference(end: &Ended, want: Want) -> Option<RunPart> {
    if end.code != want.code {
        return Some(RunPart::Code(end.code));
    }
    if end.image.sink.bytes() != want.image {
        return Some(RunPart::Image);
    }
    if end.notes.sink.bytes() != want.notes {
        return Some(RunPart::Notes);
    }
    None
}

fn excess(end: &Ended, whole: Want, code: u8) -> Option<RunPart> {
    if end.code != code {
        return Some(RunPart::Code(end.code));
    }
    if !whole.image.starts_with(end.image.sink.bytes()) {
        return Some(RunPart::Image);
    }
    if !whole.notes.starts_with(end.notes.sink.bytes()) {
        return Some(RunPart::Notes);
    }
    None
}

/// What a run comes to.
pub fn end_of(alloc: Global, row: Run) -> Result<Ended, Memory> {
    let words = words_of(alloc, row)?;
    let mut source = source_of(alloc, row)?;
    let files = shelf_files(alloc, row)?;
    let failing = listed(alloc, row.failing_shelf)?;
    let mut shelf = MemoryShelf::new(&files, row.chunk.max(1), &failing);
    let mut maker = MemoryMaker::new(alloc, 0, 0, &[])?;
    let mut image = sink_of(alloc, row.failing_image, row.taken)?;
    let mut notes = sink_of(alloc, row.failing_notes, row.taken)?;
    let status = run(
        alloc,
        &words,
        &mut source,
        &mut image,
        &mut notes,
        &mut shelf,
        &mut maker,
    );
    Ok(Ended {
        code: status.code(),
        source,
        image,
        notes,
    })
}

fn source_of(alloc: Global, row: Run) -> Result<MemorySource, AllocError> {
    let failing = listed(alloc, row.failing_read)?;
    let input = row.input.to_vec(alloc)?;
    Ok(MemorySource::new(input, row.chunk.max(1), failing))
}

fn sink_of(alloc: Global, failing: Option<usize>, chunk: usize) -> Result<ShortSink, Memory> {
    let sink = MemorySink::new(alloc, ROOM, listed(alloc, failing)?)?;
    Ok(ShortSink { sink, chunk })
}

fn shelf_files(alloc: Global, row: Run) -> Result<Vec<ShelfFile>, AllocError> {
    match row.files {
        Some(files) => files_of(alloc, files),
        None => Ok(Vec::new(alloc)),
    }
}

fn files_of(alloc: Global, files: Files) -> Result<Vec<ShelfFile>, AllocError> {
    let mut made = Vec::new(alloc);
    let mut rest = files.bytes;
    for cylinder in 0..files.disk.cylinders {
        for head in 0..files.disk.heads {
            let (bytes, behind) = rest.split_at(files.size.min(rest.len()));
            let track = TrackId { cylinder, head };
            made.push(file_of(alloc, files.folder, track, bytes)?)?;
            rest = behind;
        }
    }
    Ok(made)
}

fn file_of(
    alloc: Global,
    folder: &str,
    track: TrackId,
    bytes: &[u8],
) -> Result<ShelfFile, AllocError> {
    let folder = folder.as_bytes().to_vec(alloc)?;
    Ok(ShelfFile::new(folder, track, bytes.to_vec(alloc)?))
}

fn listed(alloc: Global, call: Option<usize>) -> Result<Vec<u64>, AllocError> {
    let mut calls = Vec::new(alloc);
    if let Some(number) = call {
        calls.push(number as u64)?;
    }
    Ok(calls)
}

fn words_of(alloc: Global, row: Run) -> Result<Vec<Word>, AllocError> {
    let mut words = Vec::new(alloc);
    for text in [Some(row.command), row.format, row.third] {
        push_word(alloc, &mut words, text)?;
    }
    Ok(words)
}

fn push_word(alloc: Global, words: &mut Vec<Word>, text: Option<&str>) -> Result<(), AllocError> {
    if let Some(text) = text {
        words.push(Word::new(text.to_string(alloc)?))?;
    }
    Ok(())
}
