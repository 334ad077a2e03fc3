ghost use Rattle.std.specs.Prelude.{◌≡◌, ◌≤◌, ◌<◌, ◌+◌, ◌*◌, ◌^◌, ◌++◌, ◌∷◌, [], ℕ, List, All, length, take, false};
ghost use Rattle.std.specs.List.{range_with_len, sum};
ghost use Rattle.index_turns.specs.Track.{times_after};
ghost use Rattle.kryo_stream.specs.inside.Keeping.{AddsTimes, AddsEnds, HasRoomFor, KeepsFlux};
ghost use Rattle.kryo_stream.specs.inside.Progress.{IsReading};

use crate::before::Before;
use crate::bench::StreamBench;
use crate::front::{LANES, LongFlux, long_flux, short_row};
use index_turns::TrackFlux;

/// Half of the bytes that are looked at at once: rows are seldom longer where there are transitions of two bytes.
const HALF: usize = 8;

/// What is kept of the transitions that some bytes begin with.
#[derive(Drop)]
pub struct Kept {
    pub flux: TrackFlux,
    pub bench: StreamBench,
    /// How many of the bytes they take.
    pub place: usize,
    /// The time behind them, in ticks.
    pub time: u64,
}

/// Keeps the transitions that the bytes begin with, as far as they stand there whole. The track and the bench,
/// which have room for one a byte, are handed over by value and given back, so that the places and the lengths of
/// their lists stay in registers.
pub fn keep_flux(before: &Before, flux: TrackFlux, bench: StreamBench, bytes: &[u8]) -> Kept
    requires read { (x : List ℕ) × (n : ℕ) × (rest : List ℕ)
        × IsReading x n (bytes.now ++ rest) before.now flux.times bench }
    requires going { before.now.ended ≡ false }
    requires limit { before.now.offset + length bytes.now ≤ 4194304 }
    requires room { length bytes.now ≤ flux.spare_times }
    requires bench { HasRoomFor (length bytes.now) bench }
    ensures { KeepsFlux bytes.now before.now flux result.flux bench result.bench result.place result.time }
{
    let mut kept = Kept {
        flux,
        bench,
        place: 0,
        time: before.time,
    };
    loop {
        let rest = &bytes[kept.place..];
        if let [0x0E..=0xFF, ..] = rest {
            kept.keep_row(rest, short_row(rest));
            continue;
        }
        match long_flux(rest) {
            Some(long) => kept.keep_long(long),
            None => return kept,
        }
    }
}

impl Kept {
    /// Keeps the transitions of one byte that the bytes begin with, so many of them.
    #[inline(always)]
    fn keep_row(&mut self, bytes: &[u8], count: usize)
        requires order { All (λ time. time ≤ self.old.time) self.old.flux.times }
        requires within { self.old.time + 255 * 16 < 2 ^ 64 }
        requires end { self.old.bench.counted + 16 < 2 ^ 32 }
        requires place { self.old.place ≤ 4194304 }
        requires room { length bytes.now ≤ self.old.flux.spare_times }
        requires bench { HasRoomFor (length bytes.now) self.old.bench }
        requires some { 1 ≤ count }
        requires few { count ≤ 16 }
        requires inside { count ≤ length bytes.now }
        ensures flux { AddsTimes count (times_after self.old.time (take count bytes.now)) self.old.flux self.new.flux }
        ensures bench { AddsEnds count count (range_with_len (self.old.bench.counted + 1) count) self.old.bench
            self.new.bench }
        ensures place { self.new.place ≡ self.old.place + count }
        ensures time { self.new.time ≡ self.old.time + sum (take count bytes.now) }
    {
        // Where the length is known the loops are unrolled.
        if bytes.len() < LANES {
            self.keep_front(bytes, count, count);
        } else if count == LANES {
            self.keep_front(bytes, LANES, LANES);
        } else if count > HALF {
            self.keep_front(bytes, LANES, count);
        } else {
            self.keep_front(bytes, HALF, count);
        }
    }

    /// Keeps the first `count` bytes as transitions, where there is room for `row` of them.
    #[inline(always)]
    fn keep_front(&mut self, bytes: &[u8], row: usize, count: usize)
        requires order { All (λ time. time ≤ self.old.time) self.old.flux.times }
        requires within { self.old.time + 255 * 16 < 2 ^ 64 }
        requires end { self.old.bench.counted + 16 < 2 ^ 32 }
        requires place { self.old.place ≤ 4194304 }
        requires row { row ≤ length bytes.now }
        requires most { row ≤ 16 }
        requires room { row ≤ self.old.flux.spare_times }
        requires bench { HasRoomFor row self.old.bench }
        requires some { 1 ≤ count }
        requires few { count ≤ row }
        ensures flux { AddsTimes count (times_after self.old.time (take count bytes.now)) self.old.flux self.new.flux }
        ensures bench { AddsEnds count count (range_with_len (self.old.bench.counted + 1) count) self.old.bench
            self.new.bench }
        ensures place { self.new.place ≡ self.old.place + count }
        ensures time { self.new.time ≡ self.old.time + sum (take count bytes.now) }
    {
        self.time = self.flux.push_front_reserved(self.time, bytes, row, count);
        self.bench.note_row(count as u32);
        self.place += count;
    }

    /// Keeps a transition of two or three bytes.
    #[inline(always)]
    fn keep_long(&mut self, long: LongFlux)
        requires order { All (λ time. time ≤ self.old.time) self.old.flux.times }
        requires within { self.old.time + long.ticks < 2 ^ 64 }
        requires some { 1 ≤ long.bytes }
        requires end { self.old.bench.counted + long.bytes < 2 ^ 32 }
        requires place { self.old.place ≤ 4194304 }
        requires room { 0 < self.old.flux.spare_times }
        requires bench { HasRoomFor long.bytes self.old.bench }
        ensures flux { AddsTimes 1 ((self.old.time + long.ticks) ∷ []) self.old.flux self.new.flux }
        ensures bench { AddsEnds long.bytes 1 ((self.old.bench.counted + long.bytes) ∷ []) self.old.bench
            self.new.bench }
        ensures place { self.new.place ≡ self.old.place + long.bytes }
        ensures time { self.new.time ≡ self.old.time + long.ticks }
    {
        self.time += u64::from(long.ticks);
        self.place += long.bytes;
        self.flux.push_reserved(self.time);
        self.bench.note_end(long.bytes as u32);
    }
}
