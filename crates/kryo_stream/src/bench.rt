ghost use Rattle.std.specs.Prelude.{◌≡◌, ◌≤◌, ◌<◌, ◌+◌, ◌-◌, ◌^◌, ◌++◌, ℕ, List, [], ◌∷◌, length, All, OnOk, OnErr};
ghost use Rattle.std.specs.Prelude.{IfErr, IsOk, count_by, get_or, nat_lt, nat_le, slice_index};
ghost use Rattle.std.specs.List.{range_with_len};
ghost use Rattle.std.specs.List.Sorted.{IsNonDecreasing};
ghost use Rattle.kryo_stream.specs.Protocol.{LIMIT};
ghost use Rattle.kryo_stream.specs.Stream.{total_bytes, turn_fault, indexes_of};
ghost use Rattle.index_turns.specs.Track.{KeepsRoom};
ghost use Rattle.kryo_stream.specs.inside.Keeping.{AddsEnds, AddsNotes, HasRoomFor};
ghost use Rattle.kryo_stream.specs.Bench.{AreSkipped, HasFullBench, KeepsBenchRoom, KeepsNotes, IsNoted, IsSized};
ghost use Rattle.kryo_stream.specs.inside.Bench.{IsComplete};
ghost use Rattle.kryo_stream.specs.Bench.{end_of};
ghost use Rattle.kryo_stream.specs.inside.Bench.{IsSearchable, TurnCause, PlaceCause, base_time, mark_time};
ghost use Rattle.kryo_stream.specs.Bench.{overflow_of, stream_step};

use crate::block::{Block, Mark, SpelledBlock};
use crate::fault::{StreamFault, TrackFault};
use flux_base::Memory;
use index_turns::TrackFlux;
use std::alloc::Global;
use std::marker::Model;
use std::mem;

/// The most transitions of one stream, and the most in-stream blocks: each takes a byte at least.
pub const MOST_TIMES: usize = 4_194_304;

/// The most index times of one stream: an Index block takes 16 bytes.
pub const MOST_INDEXES: usize = 262_144;

/// How long an overflow is, in ticks.
const OVERFLOW_TICKS: u64 = 65536;

/// What is kept of the blocks of a stream until its end, where the positions of its Index blocks are
/// looked up. An Index may name any place of the stream, before or after its own.
///
/// Nearly each position of a track is the end of a transition of one byte. So it holds how far the stream is noted, and
/// the positions at which no transition ends: those within longer transitions, and those behind other blocks. It holds
/// the positions of the overflows beside them, and no times: those of the transitions are in the track, and an overflow
/// is 65536 ticks. With its full room that is 35 MiB.
#[derive(Drop)]
pub struct StreamBench {
    /// The stream position behind all blocks so far.
    counted: u32,
    /// The positions up to there at which no transition ends.
    skipped: Vec<u32>,
    overflows: Vec<u32>,
    indexes: Vec<Mark>,
}

impl Model for StreamBench {
    ghost use Rattle.std.specs.Prelude.{◌≤◌, ◌-◌, length, vec_len};
    ghost use Rattle.std.specs.Vec.{vec_capacity};
    ghost use Rattle.kryo_stream.specs.Bench.{AreSkipped, BenchState, ends_between};

    ghost Value = { BenchState };

    ghost view = { λ b. record {
      counted = b.counted;
      ends = ends_between 0 b.skipped.items b.counted;
      overflows = b.overflows.items;
      indexes = b.indexes.items;
      spare_ends = vec_capacity b.skipped - length (ends_between 0 b.skipped.items b.counted);
      spare_overflows = vec_capacity b.overflows - vec_len b.overflows;
      spare_indexes = vec_capacity b.indexes - vec_len b.indexes;
    } };

    // there is room for each position, so that room is the same whatever ends there
    ghost invariant = { λ b. AreSkipped 0 b.skipped.items b.counted × (b.counted ≤ vec_capacity b.skipped) };
}

impl StreamBench {
    /// A bench with no room yet.
    pub fn new(alloc: Global) -> StreamBench
        ensures { IsNoted [] result }
    {
        StreamBench {
            counted: 0,
            skipped: Vec::new(alloc),
            overflows: Vec::new(alloc),
            indexes: Vec::new(alloc),
        }
    }

    /// Makes room for the longest stream, so that reading one never answers want of memory. What was noted stays,
    /// also after `Memory`, when only some of the room may have grown.
    pub fn reserve(&mut self) -> Result<(), Memory>
        ensures full { OnOk result (HasFullBench self.new) }
        ensures kept { KeepsNotes self.old self.new }
        ensures room { KeepsBenchRoom self.old self.new }
    {
        self.skipped
            .try_reserve(MOST_TIMES.saturating_sub(self.skipped.len()))?;
        self.overflows
            .try_reserve(MOST_TIMES.saturating_sub(self.overflows.len()))?;
        self.indexes
            .try_reserve(MOST_INDEXES.saturating_sub(self.indexes.len()))?;
        Ok(())
    }

    /// Forgets all blocks, and keeps the room.
    pub(crate) fn clear(&mut self)
        ensures empty { IsNoted [] self.new }
        ensures room { KeepsBenchRoom self.old self.new }
    {
        self.counted = 0;
        self.skipped.clear();
        self.overflows.clear();
        self.indexes.clear();
    }

    /// Takes note of block `number` of the stream.
    #[inline(always)]
    pub(crate) fn note(&mut self, number: u32, piece: SpelledBlock) -> Result<(), Memory>
        requires size { IsSized piece }
        requires end { self.old.counted + piece.bytes < 2 ^ 32 }
        ensures noted { OnOk result ((ps : List SpelledBlock) → IsNoted ps self.old → length ps ≡ number
            → IsNoted (ps ++ piece ∷ []) self.new) }
        ensures room { KeepsBenchRoom self.old self.new }

        // no memory is taken within the full room
        ensures succeeds { HasFullBench self.old → (ps : List SpelledBlock) → IsNoted ps self.old
            → total_bytes ps + piece.bytes ≤ LIMIT → IsOk result }
    {
        match piece.block {
            Block::Index {
                position,
                sample,
                ..
            } => self.push_index(Mark {
                number,
                position,
                sample,
            }),
            _ => self.note_bytes(&piece),
        }
    }

    /// Makes room for so many more in-stream bytes, whatever blocks they are of.
    pub(crate) fn reserve_bytes(&mut self, count: usize) -> Result<(), Memory>
        requires end { self.old.counted + count < 2 ^ 32 }
        ensures kept { KeepsNotes self.old self.new }
        ensures overflows { self.new.spare_overflows ≡ self.old.spare_overflows }
        ensures room { KeepsBenchRoom self.old self.new }
        ensures spare { OnOk result (HasRoomFor count self.new) }
        ensures succeeds { HasRoomFor count self.old → IsOk result }
    {
        let more = self.counted as usize - self.skipped.len() + count;
        self.skipped.try_reserve(more)?;
        Ok(())
    }

    /// Takes note of so many transitions of one byte, for which there is room.
    #[inline(always)]
    pub(crate) fn note_row(&mut self, count: u32)
        requires end { self.old.counted + count < 2 ^ 32 }
        requires room { HasRoomFor count self.old }
        ensures { AddsEnds count count (range_with_len (self.old.counted + 1) count) self.old self.new }
    {
        self.counted += count;
    }

    /// Takes note of a transition of so many bytes, for which there is room.
    #[inline(always)]
    pub(crate) fn note_end(&mut self, bytes: u32)
        requires some { 1 ≤ bytes }
        requires end { self.old.counted + bytes < 2 ^ 32 }
        requires room { HasRoomFor bytes self.old }
        ensures { AddsEnds bytes 1 ((self.old.counted + bytes) ∷ []) self.old self.new }
    {
        self.skip(bytes - 1);
        self.note_row(1);
    }

    /// Takes note of so many bytes at which no transition ends, for which there is room.
    #[inline(always)]
    fn skip(&mut self, count: u32)
        requires end { self.old.counted + count < 2 ^ 32 }
        requires room { HasRoomFor count self.old }
        ensures { AddsEnds count 0 [] self.old self.new }
    {
        for _ in 0..count {
            self.skip_byte();
        }
    }

    /// Takes note of a byte at which no transition ends, for which there is room.
    #[inline(always)]
    fn skip_byte(&mut self)
        requires end { self.old.counted + 1 < 2 ^ 32 }
        requires room { HasRoomFor 1 self.old }
        ensures { AddsEnds 1 0 [] self.old self.new }
    {
        self.counted += 1;
        self.skipped.push_reserved(self.counted);
    }

    /// Takes all out, the room too, and leaves a bench that holds nothing.
    pub(crate) fn take(&mut self) -> StreamBench
        ensures { result ≡ self.old }
    {
        let empty = StreamBench::new(*self.skipped.allocator());
        mem::replace(self, empty)
    }

    /// Takes note of the in-stream bytes of a block.
    #[inline(always)]
    pub(crate) fn note_bytes(&mut self, piece: &SpelledBlock) -> Result<(), Memory>
        requires size { IsSized piece.now }
        requires end { self.old.counted + piece.now.bytes < 2 ^ 32 }
        ensures notes { OnOk result
            (AddsNotes (stream_step piece.now) (end_of (self.old.counted + stream_step piece.now) piece.now.block)
            (overflow_of self.old.counted piece.now.block) self.old self.new) }
        ensures room { KeepsBenchRoom self.old self.new }
        ensures succeeds { HasRoomFor piece.now.bytes self.old → 0 < self.old.spare_overflows → IsOk result }
    {
        match piece.block {
            Block::Flux { .. } => self.push_end(piece.bytes as u32),
            Block::Overflow => self.push_overflow(),
            Block::Nop { .. } => self.push_nothing(piece.bytes as u32),
            _ => Ok(()),
        }
    }

    /// Looks up the positions of the Index blocks, once all blocks of the stream are noted, and gives the
    /// index times to `flux`, which holds the times of the transitions. `total` is the number of all
    /// in-stream bytes, `end` the number of the End block.
    ///
    /// Each look-up is a binary search, so that positions that jump back and forth cost no more.
    pub(crate) fn resolve(
        &self,
        total: u32,
        end: u32,
        flux: &mut TrackFlux,
    ) -> Result<(), TrackFault>
        requires complete { (ps : List SpelledBlock) × IsComplete ps self.now flux.old.times total end }
        requires empty { flux.old.indexes ≡ [] }
        ensures ok { OnOk result ((ps : List SpelledBlock) → IsComplete ps self.now flux.old.times total end
            → turn_fault ps ≡ None) }
        ensures indexes { OnOk result ((ps : List SpelledBlock) → IsComplete ps self.now flux.old.times total end
            → flux.new.indexes ≡ indexes_of ps) }
        ensures cause { IfErr result
            (λ fault. (ps : List SpelledBlock) → IsComplete ps self.now flux.old.times total end
            → TurnCause ps flux.old.spare_indexes fault) }
        ensures times { flux.new.times ≡ flux.old.times }
        ensures room { KeepsRoom flux.old flux.new }
    {
        for mark in &self.indexes {
            match self.place(*mark, total, flux) {
                Ok(()) => {}
                Err(fault) => return Err(fault),
            }
        }
        if flux.indexes().len() < 2 {
            return Err(TrackFault::Refused {
                block: end,
                fault: StreamFault::NoTurn,
            });
        }
        Ok(())
    }

    /// Appends the index time of the next Index block.
    fn place(&self, mark: Mark, total: u32, flux: &mut TrackFlux) -> Result<(), TrackFault>
        requires searchable { IsSearchable self.now flux.old.times }
        requires total { total ≤ self.now.counted }
        ensures indexes { OnOk result
            (flux.new.indexes ≡ flux.old.indexes ++ mark_time self.now flux.old.times mark ∷ []) }
        ensures within { OnOk result (mark.position ≤ total) }
        ensures rises { OnOk result (0 < length flux.old.indexes
            → slice_index flux.old.indexes (length flux.old.indexes - 1) < mark_time self.now flux.old.times mark) }
        ensures spare { OnOk result (flux.old.spare_indexes ≤ flux.new.spare_indexes + 1) }
        ensures cause { IfErr result
            (PlaceCause self.now flux.old.times flux.old.indexes total mark flux.old.spare_indexes) }
        ensures times { flux.new.times ≡ flux.old.times }
        ensures room { KeepsRoom flux.old flux.new }
    {
        if mark.position > total {
            return Err(TrackFault::Refused {
                block: mark.number,
                fault: StreamFault::IndexPosition,
            });
        }
        let time = self.begin_time(flux.times(), mark.position) + mark.sample as u64;
        if let Some(last) = flux.indexes().last() {
            if time <= *last {
                return Err(TrackFault::Refused {
                    block: mark.number,
                    fault: StreamFault::IndexOrder,
                });
            }
        }
        match flux.push_index(time) {
            Ok(()) => Ok(()),
            Err(_) => Err(TrackFault::Memory),
        }
    }

    /// The time in ticks at which the block begins that holds the in-stream byte at `position`.
    fn begin_time(&self, times: &[u64], position: u32) -> u64
        requires searchable { IsSearchable self.now times.now }
        requires within { position ≤ self.now.counted }
        ensures value { result ≡ base_time self.now.ends self.now.overflows times.now position }
        ensures early { result < 2 ^ 49 }
    {
        let count = self.count_to(position);
        let end = self.end_before(count);
        let behind = count_below(self.overflows.as_slice(), position);
        let before = count_below(self.overflows.as_slice(), end);
        time_before(times, count) + OVERFLOW_TICKS * (behind - before) as u64
    }

    /// How many transitions end at most at this stream position.
    fn count_to(&self, position: u32) -> usize
        requires order { IsNonDecreasing self.now.ends }
        requires within { position ≤ self.now.counted }
        ensures count { result ≡ count_by (λ x. nat_le x position) self.now.ends }
        ensures few { result ≤ length self.now.ends }
        ensures last { get_or (0 ∷ self.now.ends) result 0 ≤ position }
    {
        position as usize - count_at_most(self.skipped.as_slice(), position)
    }

    /// Where the last of the first `count` transitions ends, or 0.
    fn end_before(&self, count: usize) -> u32
        requires inside { count ≤ length self.now.ends }
        requires near { self.now.counted ≤ LIMIT }
        ensures { result ≡ get_or (0 ∷ self.now.ends) count 0 }
    {
        (count + skipped_before(self.skipped.as_slice(), count)) as u32
    }

    /// Takes note of a transition of so many bytes.
    fn push_end(&mut self, bytes: u32) -> Result<(), Memory>
        requires some { 1 ≤ bytes }
        requires end { self.old.counted + bytes < 2 ^ 32 }
        ensures notes { OnOk result (AddsNotes bytes ((self.old.counted + bytes) ∷ []) [] self.old self.new) }
        ensures room { KeepsBenchRoom self.old self.new }
        ensures succeeds { HasRoomFor bytes self.old → IsOk result }
    {
        self.reserve_bytes(bytes as usize)?;
        self.note_end(bytes);
        Ok(())
    }

    /// Takes note of so many bytes at which no transition ends.
    fn push_nothing(&mut self, bytes: u32) -> Result<(), Memory>
        requires end { self.old.counted + bytes < 2 ^ 32 }
        ensures notes { OnOk result (AddsNotes bytes [] [] self.old self.new) }
        ensures spare { self.new.spare_overflows ≡ self.old.spare_overflows }
        ensures room { KeepsBenchRoom self.old self.new }
        ensures succeeds { HasRoomFor bytes self.old → IsOk result }
    {
        self.reserve_bytes(bytes as usize)?;
        self.skip(bytes);
        Ok(())
    }

    /// Takes note of an overflow.
    fn push_overflow(&mut self) -> Result<(), Memory>
        requires end { self.old.counted + 1 < 2 ^ 32 }
        ensures notes { OnOk result (AddsNotes 1 [] (self.old.counted ∷ []) self.old self.new) }
        ensures room { KeepsBenchRoom self.old self.new }
        ensures succeeds { HasRoomFor 1 self.old → 0 < self.old.spare_overflows → IsOk result }
    {
        let begin = self.counted;
        self.push_nothing(1)?;
        self.overflows.try_reserve(1)?;
        self.overflows.push_reserved(begin);
        Ok(())
    }

    fn push_index(&mut self, mark: Mark) -> Result<(), Memory>
        ensures indexes { OnOk result (self.new.indexes ≡ self.old.indexes ++ mark ∷ []) }
        ensures counted { self.new.counted ≡ self.old.counted }
        ensures ends { self.new.ends ≡ self.old.ends }
        ensures overflows { self.new.overflows ≡ self.old.overflows }
        ensures room { KeepsBenchRoom self.old self.new }
        ensures succeeds { 0 < self.old.spare_indexes → IsOk result }
    {
        self.indexes.try_reserve(1)?;
        self.indexes.push_reserved(mark);
        Ok(())
    }
}

/// How many numbers of a rising list are at most the limit.
fn count_at_most(list: &[u32], limit: u32) -> usize
    requires { IsNonDecreasing list.now }
    ensures { result ≡ count_by (λ x. nat_le x limit) list.now }
{
    list.partition_point(|number| *number <= limit)
}

/// How many numbers of a rising list are below the limit.
fn count_below(list: &[u32], limit: u32) -> usize
    requires { IsNonDecreasing list.now }
    ensures { result ≡ count_by (λ x. nat_lt x limit) list.now }
{
    list.partition_point(|number| *number < limit)
}

/// How many of the positions at which no transition ends stand before the end of transition `count`. The one of number
/// `j`, from 0, does where at most `count` and `j` positions stand up to there, and then all that come before it do.
fn skipped_before(skipped: &[u32], count: usize) -> usize
    requires rising { (high : ℕ) × AreSkipped 0 skipped.now high }
    requires few { count < 2 ^ 32 }
    ensures inside { result ≤ length skipped.now }
    ensures before { (j : ℕ) → j < result → get_or skipped.now j 0 ≤ count + j }
    ensures behind { (j : ℕ) → result ≤ j → j < length skipped.now → count + j < get_or skipped.now j 0 }
{
    let mut low = 0;
    let mut high = skipped.len();
    while low < high {
        let middle = low + (high - low) / 2;
        if skipped[middle] as usize <= count + middle {
            low = middle + 1;
        } else {
            high = middle;
        }
    }
    low
}

/// The time of the last of the first `count` transitions, or 0.
fn time_before(times: &[u64], count: usize) -> u64
    requires { count ≤ length times.now }
    ensures { result ≡ get_or (0 ∷ times.now) count 0 }
{
    match count {
        0 => 0,
        _ => times[count - 1],
    }
}
