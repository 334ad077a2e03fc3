ghost use Rattle.std.specs.Prelude.{◌≡◌, ◌<◌, ◌≤◌, ◌+◌, ◌-◌, ◌/◌, ◌^◌, ◌++◌, [], All, length, map, replicate, OnOk};
ghost use Rattle.flux_base.specs.Moments.{Puts};
ghost use Rattle.flux_base.specs.World.{sink_at};
ghost use Rattle.kryo_stream.specs.Spelling.{spelling, flux_spelling};
ghost use Rattle.flux_writer.specs.inside.Gathering.{Holds};
ghost use Rattle.kryo_stream.specs.Sequence.{spellings};
ghost use Rattle.flux_writer.specs.Trailing.{trailing_block};
ghost use Rattle.flux_writer.specs.Written.{index_block, interval_blocks};
ghost use Rattle.flux_writer.specs.inside.Writing.{ticks_of, AreCounted, indexes_before, indexes_from, next_blocks};
ghost use Rattle.flux_writer.specs.inside.Writing.{last_blocks};

use crate::indexes::{IndexTimes, IndexUnit};
use crate::piece::OutputPiece;
use byteorder::{ByteOrder, LittleEndian};
use flux_base::{Failed, Sink};
use kryo_stream::index_spelling;

/// How many ticks an Overflow block stands for.
const OVERFLOW_TICKS: u64 = 65536;

/// How many ticks the clock of the index counter takes, and how many values the counter has.
const INDEX_CLOCK: u64 = 8;

const COUNTER_RANGE: u64 = 1 << 32;

/// Writes the blocks of one stream, a transition at a time.
#[derive(Drop)]
pub(crate) struct StreamWriter<'a> {
    piece: OutputPiece,
    /// The number of in-stream bytes so far.
    position: u32,
    /// The time of the transition before, or 0, in ticks.
    time: u64,
    indexes: IndexTimes<'a>,
}

impl<'a> StreamWriter<'a> {
    /// A stream without blocks, in which these index times will stand.
    pub(crate) fn new(indexes: &'a [u64], unit: IndexUnit) -> Self
        requires { AreCounted unit indexes.now }
        ensures piece { result.piece ≡ [] }
        ensures position { result.position ≡ 0 }
        ensures time { result.time ≡ 0 }
        ensures indexes { result.indexes ≡ map (ticks_of unit) indexes.now }
    {
        StreamWriter {
            piece: OutputPiece::new(),
            position: 0,
            time: 0,
            indexes: IndexTimes::new(indexes, unit),
        }
    }

    /// Writes the transition at `time`, with the index times that lie before it. Before most there are none, and
    /// then nothing but its interval is looked at.
    #[inline]
    pub(crate) fn transition<W: Sink>(&mut self, time: u64, sink: &mut W) -> Result<(), Failed>
        requires order { self.old.time ≤ time }
        requires begun { All (λ index. self.old.time ≤ index) self.old.indexes }
        requires few { self.old.position + (time - self.old.time) / 65536 + 3 < 2 ^ 32 }
        ensures holds { Holds (sink_at W.Sink sink.old) (sink_at W.Sink sink.new) self.old.piece self.new.piece
            (spellings (next_blocks self.old.position self.old.time time self.old.indexes)) result }
        ensures position { OnOk result (self.new.position ≡ self.old.position
            + length (spellings (interval_blocks (time - self.old.time)))) }
        ensures time { OnOk result (self.new.time ≡ time) }
        ensures indexes { OnOk result (self.new.indexes ≡ indexes_from time self.old.indexes) }
    {
        if self.indexes.next_before(time).is_none() {
            return self.write_interval(time, sink);
        }
        match self.write_indexes(time, sink) {
            Ok(()) => self.write_interval(time, sink),
            Err(failed) => Err(failed),
        }
    }

    /// Writes the index times that are left behind the last interval.
    pub(crate) fn write_trailing<W: Sink>(&mut self, sink: &mut W) -> Result<(), Failed>
        requires begun { All (λ index. self.old.time ≤ index) self.old.indexes }
        requires near { All (λ index. index < self.old.time + 2 ^ 32) self.old.indexes }
        ensures holds { Holds (sink_at W.Sink sink.old) (sink_at W.Sink sink.new) self.old.piece self.new.piece
            (spellings (map (trailing_block self.old.position self.old.time) self.old.indexes)) result }
        ensures position { self.new.position ≡ self.old.position }
    {
        while let Some(index) = self.indexes.next() {
            let bytes = trailing_bytes(self.position, self.time, index);
            match self.piece.put(&bytes, sink) {
                Ok(()) => self.indexes.pass(),
                Err(failed) => return Err(failed),
            }
        }
        Ok(())
    }

    /// Writes the end of the stream.
    pub(crate) fn finish<W: Sink>(&mut self, sink: &mut W) -> Result<(), Failed>
        ensures { Puts (sink_at W.Sink sink.old) (sink_at W.Sink sink.new)
            (self.old.piece ++ spellings (last_blocks self.old.position)) result }
    {
        match self.piece.put(&end_bytes(self.position), sink) {
            Ok(()) => self.piece.give(sink),
            Err(failed) => Err(failed),
        }
    }

    /// Writes the index times that lie before `end`, the end of the interval.
    #[inline(never)]
    fn write_indexes<W: Sink>(&mut self, end: u64, sink: &mut W) -> Result<(), Failed>
        requires begun { All (λ index. self.old.time ≤ index) self.old.indexes }
        requires few { self.old.position + (end - self.old.time) / 65536 < 2 ^ 32 }
        ensures holds { Holds (sink_at W.Sink sink.old) (sink_at W.Sink sink.new) self.old.piece self.new.piece
            (spellings (map (index_block self.old.position self.old.time) (indexes_before end self.old.indexes)))
            result }
        ensures position { self.new.position ≡ self.old.position }
        ensures time { self.new.time ≡ self.old.time }
        ensures indexes { OnOk result (self.new.indexes ≡ indexes_from end self.old.indexes) }
    {
        while let Some(index) = self.indexes.next_before(end) {
            let bytes = index_bytes(self.position, self.time, index);
            match self.piece.put(&bytes, sink) {
                Ok(()) => self.indexes.pass(),
                Err(failed) => return Err(failed),
            }
        }
        Ok(())
    }

    /// Writes the interval that ends at `time`.
    #[inline]
    fn write_interval<W: Sink>(&mut self, time: u64, sink: &mut W) -> Result<(), Failed>
        requires order { self.old.time ≤ time }
        requires few { self.old.position + (time - self.old.time) / 65536 + 3 < 2 ^ 32 }
        ensures holds { Holds (sink_at W.Sink sink.old) (sink_at W.Sink sink.new) self.old.piece self.new.piece
            (spellings (interval_blocks (time - self.old.time))) result }
        ensures position { OnOk result (self.new.position ≡ self.old.position
            + length (spellings (interval_blocks (time - self.old.time)))) }
        ensures time { OnOk result (self.new.time ≡ time) }
        ensures indexes { self.new.indexes ≡ self.old.indexes }
    {
        let ticks = time - self.time;
        self.position += interval_length(ticks);
        self.time = time;
        write_blocks(&mut self.piece, ticks, sink)
    }
}

/// How many bytes the blocks of an interval of so many ticks take, in a stream that is written.
#[inline]
pub fn interval_length(ticks: u64) -> u32
    requires few { ticks / 65536 + 3 < 2 ^ 32 }
    ensures value { result ≡ length (spellings (interval_blocks ticks)) }
    ensures most { result ≤ ticks / 65536 + 3 }
{
    match ticks {
        0x0E..=0xFF => 1,
        _ => (ticks / OVERFLOW_TICKS) as u32 + flux_length((ticks % OVERFLOW_TICKS) as u16),
    }
}

/// Writes the blocks of an interval of so many ticks. Nearly all are one byte, which is put straight into the piece
/// and with no block made.
#[inline]
fn write_blocks<W: Sink>(piece: &mut OutputPiece, ticks: u64, sink: &mut W) -> Result<(), Failed>
    requires few { ticks / 65536 < 2 ^ 32 }
    ensures { Holds (sink_at W.Sink sink.old) (sink_at W.Sink sink.new) piece.old piece.new
        (spellings (interval_blocks ticks)) result }
{
    match ticks {
        0x0E..=0xFF => piece.put_byte(ticks as u8, sink),
        _ => write_any_blocks(piece, ticks, sink),
    }
}

/// Writes the blocks of any interval: its overflows, and a flux value.
#[inline(never)]
fn write_any_blocks<W: Sink>(
    piece: &mut OutputPiece,
    ticks: u64,
    sink: &mut W,
) -> Result<(), Failed>
    requires few { ticks / 65536 < 2 ^ 32 }
    ensures { Holds (sink_at W.Sink sink.old) (sink_at W.Sink sink.new) piece.old piece.new
        (spellings (interval_blocks ticks)) result }
{
    match write_overflows(piece, (ticks / OVERFLOW_TICKS) as u32, sink) {
        Ok(()) => write_flux(piece, (ticks % OVERFLOW_TICKS) as u16, sink),
        Err(failed) => Err(failed),
    }
}

/// Writes so many Overflow blocks.
fn write_overflows<W: Sink>(piece: &mut OutputPiece, count: u32, sink: &mut W) -> Result<(), Failed>
    ensures { Holds (sink_at W.Sink sink.old) (sink_at W.Sink sink.new) piece.old piece.new
        (replicate count 11) result }
{
    for _ in 0..count {
        match piece.put_byte(0x0B, sink) {
            Ok(()) => {}
            Err(failed) => return Err(failed),
        }
    }
    Ok(())
}

/// Writes a flux value, in as few bytes as it fits.
fn write_flux<W: Sink>(piece: &mut OutputPiece, ticks: u16, sink: &mut W) -> Result<(), Failed>
    ensures { Holds (sink_at W.Sink sink.old) (sink_at W.Sink sink.new) piece.old piece.new
        (flux_spelling ticks) result }
{
    let high = (ticks / 256) as u8;
    let low = (ticks % 256) as u8;
    match ticks {
        0x0E..=0xFF => piece.put_byte(low, sink),
        0..=0x7FF => piece.put(&[high, low], sink),
        _ => piece.put(&[0x0C, high, low], sink),
    }
}

/// How many bytes a flux value takes.
fn flux_length(ticks: u16) -> u32
    ensures value { result ≡ length (flux_spelling ticks) }
    ensures most { result ≤ 3 }
{
    match ticks {
        0x0E..=0xFF => 1,
        0..=0x7FF => 2,
        _ => 3,
    }
}

/// The bytes of the Index block of an index time, in an interval that begins at this stream position and time.
fn index_bytes(position: u32, begin: u64, index: u64) -> [u8; 16]
    requires order { begin ≤ index }
    requires few { position + (index - begin) / 65536 < 2 ^ 32 }
    ensures { result ≡ spelling (index_block position begin index) }
{
    let since = index - begin;
    let block = position + (since / OVERFLOW_TICKS) as u32;
    let sample = (since % OVERFLOW_TICKS) as u32;
    let counter = (index / INDEX_CLOCK % COUNTER_RANGE) as u32;
    index_spelling(block, sample, counter)
}

/// The bytes of the Index block of an index time that stands behind a last transition, which the stream has at this
/// time and before this position.
fn trailing_bytes(position: u32, last: u64, index: u64) -> [u8; 16]
    requires order { last ≤ index }
    requires near { index < last + 2 ^ 32 }
    ensures { result ≡ spelling (trailing_block position last index) }
{
    let counter = (index / INDEX_CLOCK % COUNTER_RANGE) as u32;
    index_spelling(position, (index - last) as u32, counter)
}

/// The bytes of the StreamEnd and End blocks after so many in-stream bytes.
fn end_bytes(position: u32) -> [u8; 16]
    ensures { result ≡ spellings (last_blocks position) }
{
    let mut bytes = [
        0x0D, 3, 8, 0, 0, 0, 0, 0, 0, 0, 0, 0, 0x0D, 0x0D, 0x0D, 0x0D,
    ];
    LittleEndian::write_u32(&mut bytes[4..], position);
    bytes
}
