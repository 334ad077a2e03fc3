//! Streams of given times, of cells and of a ring.
ghost use Rattle.std.specs.Prelude.{◌≡◌, ◌≤◌, ◌<◌, ◌^◌, [], All, IfOk, IsTrue, OnOk};
ghost use Rattle.flux_writer.specs.Reading.{EndsWithTransition};

use cell_bits::Cells;
use flux_base::{Failed, Memory, MemorySink};
use flux_writer::{write_times, write_track, write_turns};
use index_turns::TrackFlux;
use std::alloc::Global;
use std::process::Abort;
use std::test::Fail;

/// The latest time that the writer takes, in ticks.
const LATEST: u64 = 1 << 39;

/// Appends transitions, as far as they do not fall and are not too late.
fn push_times(flux: &mut TrackFlux, times: &[u64]) -> Result<(), Memory>
    requires { flux.old.times ≡ [] }
    ensures times { OnOk result (All (λ time. time ≤ 2 ^ 39) flux.new.times) }
    ensures indexes { flux.new.indexes ≡ flux.old.indexes }
{
    let mut last = 0;
    for time in times {
        let next = last.max(*time).min(LATEST);
        flux.push_time(next)?;
        last = next;
    }
    Ok(())
}

/// Appends index times, as far as they rise and are not too late.
fn push_indexes(flux: &mut TrackFlux, indexes: &[u64]) -> Result<(), Memory>
    requires { flux.old.indexes ≡ [] }
    ensures { flux.new.times ≡ flux.old.times }
{
    let mut least = 0;
    for index in indexes {
        least = push_later(flux, (*index).min(LATEST), least)?;
    }
    Ok(())
}

/// Appends an index time that is not before `least`, and gives the least that may follow.
fn push_later(flux: &mut TrackFlux, index: u64, least: u64) -> Result<u64, Memory>
    requires index { index ≤ 2 ^ 39 }
    requires before { All (λ earlier. earlier < least) flux.old.indexes }
    ensures before { IfOk result (λ next. All (λ earlier. earlier < next) flux.new.indexes) }
    ensures times { flux.new.times ≡ flux.old.times }
{
    if index < least {
        return Ok(least);
    }
    flux.push_index(index)?;
    Ok(index + 1)
}

/// Whether the last index time lies before the last transition.
fn ends_with_transition(flux: &TrackFlux) -> bool
    ensures { IsTrue result → EndsWithTransition flux.now.times flux.now.indexes }
{
    let times = flux.times();
    let indexes = flux.indexes();
    if indexes.is_empty() {
        return true;
    }
    if times.is_empty() {
        return false;
    }
    indexes[indexes.len() - 1] < times[times.len() - 1]
}

/// The stream of these times.
pub fn written(
    rt: &impl Abort,
    alloc: Global,
    times: &[u64],
    indexes: &[u64],
) -> Result<MemorySink, Fail> {
    let mut flux = TrackFlux::new(alloc);
    push_times(&mut flux, times)?;
    push_indexes(&mut flux, indexes)?;
    assert!(rt; ends_with_transition(&flux));
    assert!(rt; flux.times().len().saturating_add(flux.indexes().len()) <= 1_048_576);
    let mut sink = MemorySink::new(alloc, 4_000_000, Vec::new(alloc))?;
    assert!(rt; write_times(&flux, &mut sink).is_ok());
    Ok(sink)
}

/// Transitions and index times in ticks, and their stream.
struct Row {
    name: &'static str,
    times: &'static [u64],
    indexes: &'static [u64],
    stream: &'static [u8],
}

const ROWS: &[Row] = &[
    Row {
        name: "no transitions",
        times: &[],
        indexes: &[],
        stream: b"\x0D\x03\x08\0\0\0\0\0\0\0\0\0\x0D\x0D\x0D\x0D",
    },
    Row {
        name: "one interval of three overflows, with an index at its begin and one inside it",
        times: &[196622],
        indexes: &[0, 131172],
        stream: b"\x0D\x02\x0C\0\0\0\0\0\0\0\0\0\0\0\0\0\x0D\x02\x0C\0\x02\0\0\0\x64\0\0\0\x0C\x40\0\0\
            \x0B\x0B\x0B\x0E\x0D\x03\x08\0\x04\0\0\0\0\0\0\0\x0D\x0D\x0D\x0D",
    },
    // An index at exactly a transition's time belongs to the next interval, and one just
    // before an interval's end to it.
    Row {
        name: "an index at a transition stands after it",
        times: &[96, 65632, 67680],
        indexes: &[0, 40, 96, 65631, 65632],
        stream: b"\x0D\x02\x0C\0\0\0\0\0\0\0\0\0\0\0\0\0\x0D\x02\x0C\0\0\0\0\0\x28\0\0\0\x05\0\0\0\x60\
            \x0D\x02\x0C\0\x01\0\0\0\0\0\0\0\x0C\0\0\0\x0D\x02\x0C\0\x01\0\0\0\xFF\xFF\0\0\x0B\x20\0\0\x0B\0\0\
            \x0D\x02\x0C\0\x04\0\0\0\0\0\0\0\x0C\x20\0\0\x0C\x08\0\
            \x0D\x03\x08\0\x07\0\0\0\0\0\0\0\x0D\x0D\x0D\x0D",
    },
];

fn is_written(rt: &impl Abort, sink: &MemorySink, row: &Row) {
    let name = row.name;
    assert_eq!(rt; (sink.bytes(), sink.calls()), (row.stream, 1), "of {name}");
}

#[test]
fn times_come_to_their_streams(rt: HostRuntime) -> Result<(), Fail> {
    for row in ROWS {
        let sink = written(&rt, rt.alloc(), row.times, row.indexes)?;
        is_written(&rt, &sink, row);
    }
    Ok(())
}

// The second index lies at the end of a cell that is a one, and so after its transition.
#[test]
fn writes_cells_with_their_turns(rt: HostRuntime) -> Result<(), Fail> {
    let mut cells = Cells::new(rt.alloc());
    cells.push_run(4)?;
    cells.push_run(2)?;
    cells.push_run(1)?;
    let mut sink = MemorySink::new(rt.alloc(), 64, Vec::new(rt.alloc()))?;
    assert_eq!(rt; write_turns(&cells, &[0, 5], 49152, &mut sink), Ok(()));
    let written = b"\x0D\x02\x0C\0\0\0\0\0\x30\0\0\0\x06\0\0\0\xC0\x60\
        \x0D\x02\x0C\0\x02\0\0\0\0\0\0\0\x24\0\0\0\x30\x0D\x03\x08\0\x03\0\0\0\0\0\0\0\x0D\x0D\x0D\x0D";
    assert_eq!(rt; sink.bytes(), written.as_slice());
    Ok(())
}

// A ring of 16 cells, with ones at the places 1, 4, 6 and 13.
#[test]
fn writes_a_ring_with_both_quarters(rt: HostRuntime) -> Result<(), Fail> {
    let mut ring = Cells::new(rt.alloc());
    ring.push_word(0x4A04, 16)?;
    let mut sink = MemorySink::new(rt.alloc(), 256, Vec::new(rt.alloc()))?;
    assert_eq!(rt; write_track(&ring, 49152, &mut sink), Ok(()));
    let written = b"\x60\x0D\x02\x0C\0\x01\0\0\0\x90\0\0\0\x1E\0\0\0\xC0\x90\x60\x01\x50\
        \x0D\x02\x0C\0\x06\0\0\0\x90\0\0\0\x7E\0\0\0\xC0\x90\x60\x01\x50\
        \x0D\x02\x0C\0\x0B\0\0\0\x90\0\0\0\xDE\0\0\0\xC0\x90\x60\x01\x50\
        \x0D\x02\x0C\0\x10\0\0\0\x90\0\0\0\x3E\x01\0\0\xC0\x0D\x03\x08\0\x11\0\0\0\0\0\0\0\x0D\x0D\x0D\x0D";
    assert_eq!(rt; sink.bytes(), written.as_slice());
    Ok(())
}

// Five thousand one-byte intervals go out in two pieces, of which the second fails.
#[test]
fn a_failed_write_leaves_whole_pieces(rt: HostRuntime) -> Result<(), Fail> {
    let mut cells = Cells::new(rt.alloc());
    for _ in 0..5000u16 {
        cells.push_run(4)?;
    }
    if cells.len() > 2_097_152 {
        return Ok(());
    }
    let mut sink = MemorySink::new(rt.alloc(), 6000, Vec::new(rt.alloc()))?;
    assert_eq!(rt; write_turns(&cells, &[], 49152, &mut sink), Ok(()));
    assert_eq!(rt; (sink.calls(), sink.bytes().len()), (2, 5016));
    let mut sink = MemorySink::new(rt.alloc(), 6000, vec![in rt.alloc(); 1]?)?;
    assert_eq!(rt; write_turns(&cells, &[], 49152, &mut sink), Err(Failed));
    assert_eq!(rt; sink.bytes().len(), 4096);
    Ok(())
}
