//! A disk as a file and back, and files with a fault.
mod disks;
mod faults;

use flux_base::{MemorySink, MemorySource};
use flux_engine::Stopped;
use g64_image::{G64Fault, G64Room, from_g64};
use sector_report::Totals;
use std::alloc::Global;
use std::test::Fail;

/// What a file lies in and is read to: the numbers of the reads that fail, and the rooms of the sinks.
#[derive(Clone, Copy)]
struct Outside {
    failing: &'static [u64],
    image: usize,
    notes: usize,
}

/// No read fails, and there is room for all.
const AMPLE: Outside = Outside {
    failing: &[],
    image: 200000,
    notes: 100000,
};

/// What a file came to.
#[derive(Drop)]
struct Came {
    answer: Result<Totals, Stopped<G64Fault>>,
    image: MemorySink,
    notes: MemorySink,
}

/// Reads a file.
fn read(alloc: Global, room: &mut G64Room, file: Vec<u8>, outside: &Outside) -> Result<Came, Fail> {
    let mut source = MemorySource::new(file, 1000, outside.failing.to_vec(alloc)?);
    let mut image = MemorySink::new(alloc, outside.image, Vec::new(alloc))?;
    let mut notes = MemorySink::new(alloc, outside.notes, Vec::new(alloc))?;
    let answer = from_g64(room, &mut source, &mut image, &mut notes);
    Ok(Came {
        answer,
        image,
        notes,
    })
}
