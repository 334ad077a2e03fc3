ghost use Rattle.std.specs.Prelude.{◌≡◌, ◌<◌, ◌≤◌, ◌+◌, ◌-◌, ◌++◌, [], All, length, is_err, OnOk, OnErr};
ghost use Rattle.std.specs.List.Sorted.{IsStrictlyIncreasing};
ghost use Rattle.flux_base.specs.Counts.{Counts};
ghost use Rattle.flux_base.specs.Moments.{Puts};
ghost use Rattle.flux_base.specs.Outside.{AppendsPart};
ghost use Rattle.flux_base.specs.World.{sink_at, sink_counts};
ghost use Rattle.flux_writer.specs.Reading.{MOST_RING_CELLS, HasOneAfter, HasEarlyOne};
ghost use Rattle.flux_writer.specs.inside.Writing.{IsReadyAt, IsWritten, many_blocks, times_between, track_times};
ghost use Rattle.kryo_stream.specs.Sequence.{spellings};
ghost use Rattle.flux_writer.specs.Written.{stream_of, stream_of_turns};

use crate::indexes::IndexUnit;
use crate::stream::StreamWriter;
use cell_bits::Cells;
use flux_base::{Failed, Sink};

/// How many cells are read together.
const WORD: usize = 32;

/// Writes the stream of a list of cells, of which each takes `nominal` fine units of 1/1024 tick: a transition
/// for each one, and an index at the time of each of the index cells `turns`. The nominal cell is 16384 to
/// 131072, there are at most 2097152 cells, and the index cells rise strictly, each with a one after it.
///
/// `Failed` comes only where the sink's count of faults rose. Then a shorter prefix of the stream was written.
pub fn write_turns<W: Sink>(
    cells: &Cells,
    turns: &[u64],
    nominal: u32,
    sink: &mut W,
) -> Result<(), Failed>
    requires least { 16384 ≤ nominal }
    requires most { nominal ≤ 131072 }
    requires few { length cells.now.cells ≤ 2097152 }
    requires order { IsStrictlyIncreasing turns.now }
    requires ones { All (HasOneAfter cells.now.cells) turns.now }
    ensures { Puts (sink_at W.Sink sink.old) (sink_at W.Sink sink.new)
        (stream_of_turns cells.now.cells turns.now nominal) result }
{
    let mut stream = StreamWriter::new(turns, IndexUnit::Cells { nominal });
    let whole = RingPart {
        from: 0,
        to: cells.len(),
        number: 0,
    };
    match write_part(&mut stream, cells, whole, nominal, sink) {
        Ok(()) => stream.finish(sink),
        Err(failed) => Err(failed),
    }
}

/// Writes the stream of a ring of cells: its last quarter, three turns and its first quarter, with an index
/// where each turn begins and where the last one ends. The nominal cell is 16384 to 131072 fine units, the
/// ring has at most 524288 cells, and a one stands in its first quarter, after its first cell.
///
/// `Failed` comes only where the sink's count of faults rose. Then a shorter prefix of the stream was written.
pub fn write_track<W: Sink>(ring: &Cells, nominal: u32, sink: &mut W) -> Result<(), Failed>
    requires least { 16384 ≤ nominal }
    requires most { nominal ≤ 131072 }
    requires few { length ring.now.cells ≤ MOST_RING_CELLS }
    requires one { HasEarlyOne ring.now.cells }
    ensures { Puts (sink_at W.Sink sink.old) (sink_at W.Sink sink.new) (stream_of ring.now.cells nominal) result }
{
    let length = ring.len();
    let quarter = length / 4;
    let turns = [
        quarter as u64,
        (quarter + length) as u64,
        (quarter + 2 * length) as u64,
        (quarter + 3 * length) as u64,
    ];
    let mut stream = StreamWriter::new(&turns, IndexUnit::Cells { nominal });
    match write_ring(&mut stream, ring, nominal, sink) {
        Ok(()) => stream.finish(sink),
        Err(failed) => Err(failed),
    }
}

/// Cells of a list, from one place to below another, of which the first is cell `number` of the written track.
#[derive(Clone, Copy, Drop)]
struct RingPart {
    from: usize,
    to: usize,
    number: u64,
}

/// Writes the transitions of a ring's last quarter, three turns and first quarter.
fn write_ring<W: Sink>(
    stream: &mut StreamWriter<'_>,
    ring: &Cells,
    nominal: u32,
    sink: &mut W,
) -> Result<(), Failed>
    requires few { length ring.now.cells ≤ MOST_RING_CELLS }
    requires nominal { nominal ≤ 131072 }
    requires piece { stream.old.piece ≡ [] }
    requires position { stream.old.position ≡ 0 }
    requires time { stream.old.time ≡ 0 }
    requires order { IsStrictlyIncreasing stream.old.indexes }
    ensures ok { OnOk result (IsWritten (W.written sink.old) (W.written sink.new) [] 0 0 stream.old.indexes
        stream.new.piece stream.new.position stream.new.time stream.new.indexes (track_times ring.now.cells nominal)) }
    ensures err { OnErr result (AppendsPart (W.written sink.old) (W.written sink.new)
        (spellings (many_blocks 0 0 (track_times ring.now.cells nominal) stream.old.indexes))) }
    ensures counts { Counts (is_err result) (sink_counts W.Sink sink.old) (sink_counts W.Sink sink.new) }
{
    let length = ring.len();
    let quarter = length / 4;
    let last_quarter = RingPart {
        from: length - quarter,
        to: length,
        number: 0,
    };
    match write_part(stream, ring, last_quarter, nominal, sink) {
        Ok(()) => {}
        Err(failed) => return Err(failed),
    }
    let mut number = quarter as u64;
    for _ in 0..3u8 {
        let turn = RingPart {
            from: 0,
            to: length,
            number,
        };
        match write_part(stream, ring, turn, nominal, sink) {
            Ok(()) => number += length as u64,
            Err(failed) => return Err(failed),
        }
    }
    let first_quarter = RingPart {
        from: 0,
        to: quarter,
        number,
    };
    write_part(stream, ring, first_quarter, nominal, sink)
}

/// Writes the transitions of some cells.
fn write_part<W: Sink>(
    stream: &mut StreamWriter<'_>,
    cells: &Cells,
    part: RingPart,
    nominal: u32,
    sink: &mut W,
) -> Result<(), Failed>
    requires order { part.from ≤ part.to }
    requires within { part.to ≤ length cells.now.cells }
    requires few { part.number + (part.to - part.from) ≤ 2097152 }
    requires nominal { nominal ≤ 131072 }
    requires ready { IsReadyAt nominal stream.old.position stream.old.time part.number stream.old.indexes }
    ensures ok { OnOk result (IsWritten (W.written sink.old) (W.written sink.new)
        stream.old.piece stream.old.position stream.old.time stream.old.indexes
        stream.new.piece stream.new.position stream.new.time stream.new.indexes
        (times_between cells.now.cells part.from part.to part.number nominal)) }
    ensures ready { OnOk result (IsReadyAt nominal stream.new.position stream.new.time
        (part.number + (part.to - part.from)) stream.new.indexes) }
    ensures err { OnErr result (AppendsPart (W.written sink.old) (W.written sink.new) (stream.old.piece
        ++ spellings (many_blocks stream.old.position stream.old.time
        (times_between cells.now.cells part.from part.to part.number nominal) stream.old.indexes))) }
    ensures counts { Counts (is_err result) (sink_counts W.Sink sink.old) (sink_counts W.Sink sink.new) }
{
    let mut place = part.from;
    while place < part.to {
        let count = WORD.min(part.to - place);
        let word = RingPart {
            from: place,
            to: place + count,
            number: part.number + (place - part.from) as u64,
        };
        match write_word(stream, cells, word, nominal, sink) {
            Ok(()) => place += count,
            Err(failed) => return Err(failed),
        }
    }
    Ok(())
}

/// Writes the transitions of at most 32 cells. They are read as one word, of which the first one that is left is taken
/// away, again and again.
fn write_word<W: Sink>(
    stream: &mut StreamWriter<'_>,
    cells: &Cells,
    part: RingPart,
    nominal: u32,
    sink: &mut W,
) -> Result<(), Failed>
    requires order { part.from ≤ part.to }
    requires within { part.to ≤ length cells.now.cells }
    requires word { part.to - part.from ≤ 32 }
    requires few { part.number + (part.to - part.from) ≤ 2097152 }
    requires nominal { nominal ≤ 131072 }
    requires ready { IsReadyAt nominal stream.old.position stream.old.time part.number stream.old.indexes }
    ensures ok { OnOk result (IsWritten (W.written sink.old) (W.written sink.new)
        stream.old.piece stream.old.position stream.old.time stream.old.indexes
        stream.new.piece stream.new.position stream.new.time stream.new.indexes
        (times_between cells.now.cells part.from part.to part.number nominal)) }
    ensures ready { OnOk result (IsReadyAt nominal stream.new.position stream.new.time
        (part.number + (part.to - part.from)) stream.new.indexes) }
    ensures err { OnErr result (AppendsPart (W.written sink.old) (W.written sink.new) (stream.old.piece
        ++ spellings (many_blocks stream.old.position stream.old.time
        (times_between cells.now.cells part.from part.to part.number nominal) stream.old.indexes))) }
    ensures counts { Counts (is_err result) (sink_counts W.Sink sink.old) (sink_counts W.Sink sink.new) }
{
    let mut left = part.to - part.from;
    if left == 0 {
        return Ok(());
    }
    let mut ahead = cells.word_at(part.from, left as u8);
    let end = part.number + left as u64;
    while ahead != 0 {
        // how many cells stand behind the first one
        left = 31 - ahead.leading_zeros() as usize;
        let time = (end - left as u64) * nominal as u64 / 1024;
        match stream.transition(time, sink) {
            Ok(()) => ahead -= 1 << left,
            Err(failed) => return Err(failed),
        }
    }
    Ok(())
}
