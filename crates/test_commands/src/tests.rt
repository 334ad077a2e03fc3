//! The program's rows, through `run` over objects in memory.
mod input;
mod objects;
mod streams;
mod system;
mod words;

use file_maker::MemoryMaker;
use flux_base::{Memory, MemorySink, MemorySource, Status, Word};
use flux_cli::run;
use input::{Part, joined};
use std::alloc::{AllocError, Global};
use std::process::Abort;
use track_shelf::MemoryShelf;

/// A run, and what it comes to.
#[derive(Clone, Copy)]
struct Row {
    name: &'static str,
    words: &'static [&'static str],
    input: &'static [Part],
    /// The most bytes that a read gives.
    chunk: u32,
    failing: Failing,
    status: Status,
    image: &'static str,
    notes: &'static str,
    /// How often the run calls the source and both sinks, where it is told.
    calls: Option<(u64, u64, u64)>,
}

/// The number of the call of each object that fails, if one does.
#[derive(Clone, Copy)]
struct Failing {
    source: Option<u64>,
    image: Option<u64>,
    notes: Option<u64>,
}

const NONE: Failing = Failing {
    source: None,
    image: None,
    notes: None,
};

/// The turn of a stream of 50 bytes, in reads of at most seven.
const TURNS: Row = Row {
    name: "turns",
    words: &["turns"],
    input: &[Part::TwoTransitions],
    chunk: 7,
    failing: NONE,
    status: Status::AllGood,
    image: "transitions 2\nturn 1 197\n",
    notes: "",
    calls: Some((8, 2, 0)),
};

/// What a run answered and wrote.
#[derive(Drop)]
struct Ended {
    status: Status,
    source: MemorySource,
    image: MemorySink,
    notes: MemorySink,
}

fn words_of(alloc: Global, texts: &[&str]) -> Result<Vec<Word>, AllocError> {
    let mut words = Vec::new(alloc);
    for text in texts {
        words.push(Word::new(text.to_string(alloc)?))?;
    }
    Ok(words)
}

fn source_of(alloc: Global, row: &Row, input: &[u8]) -> Result<MemorySource, AllocError> {
    let failing = listed(alloc, row.failing.source)?;
    Ok(MemorySource::new(input.to_vec(alloc)?, row.chunk.max(1), failing))
}

fn sink_of(alloc: Global, failing: Option<u64>) -> Result<MemorySink, Memory> {
    MemorySink::new(alloc, 8192, listed(alloc, failing)?)
}

fn listed(alloc: Global, call: Option<u64>) -> Result<Vec<u64>, AllocError> {
    let mut calls = Vec::new(alloc);
    if let Some(number) = call {
        calls.push(number)?;
    }
    Ok(calls)
}

fn run_of(alloc: Global, row: &Row) -> Result<Ended, Memory> {
    let input = joined(alloc, row.input)?;
    let words = words_of(alloc, row.words)?;
    let mut source = source_of(alloc, row, &input)?;
    let mut image = sink_of(alloc, row.failing.image)?;
    let mut notes = sink_of(alloc, row.failing.notes)?;
    let mut shelf = MemoryShelf::new(&[], 1, &[]);
    let mut maker = MemoryMaker::new(alloc, 0, 0, &[])?;
    let status = run(
        alloc,
        &words,
        &mut source,
        &mut image,
        &mut notes,
        &mut shelf,
        &mut maker,
    );
    Ok(Ended {
        status,
        source,
        image,
        notes,
    })
}

/// The row's run comes to what the row says.
fn comes_true(rt: &impl Abort, alloc: Global, row: &Row) -> Result<(), Memory> {
    let end = run_of(alloc, row)?;
    ended_so(rt, &end, row);
    Ok(())
}

// What a run is compared with stands in functions of its own over a reference, since each comparison in a test is one
// more way out of it, on which all its values are let go.

fn ended_so(rt: &impl Abort, end: &Ended, row: &Row) {
    let (name, words) = (row.name, row.words);
    assert_eq!(rt; end.status, row.status, "{name}: {words:?}");
    assert_eq!(rt;
        end.image.bytes(),
        row.image.as_bytes(),
        "{name}: {words:?}"
    );
    assert_eq!(rt;
        end.notes.bytes(),
        row.notes.as_bytes(),
        "{name}: {words:?}"
    );
    if let Some(calls) = row.calls {
        assert_eq!(rt; calls_of(end), calls, "{name}: {words:?}");
    }
}

fn calls_of(end: &Ended) -> (u64, u64, u64) {
    (end.source.calls(), end.image.calls(), end.notes.calls())
}
