//! The last intervals since the loop started, with their totals.
ghost use Rattle.std.specs.Prelude.{◌≡◌, ◌+◌, ◌*◌, ◌/◌, ◌<◌, ◌≤◌, [], ◌∷◌, ◌++◌, length, take, map, All, IfOk, IsTrue};
ghost use Rattle.std.specs.Prelude.{◌↔◌, MatchOption};
ghost use Rattle.phase_loop.specs.inside.Window.{IsShort};
ghost use Rattle.std.specs.List.{sum_by};
ghost use Rattle.circular_buffer.specs.Buffer.{buffer, keep_last};

use crate::reciprocals::Reciprocals;
use circular_buffer::HeapCircularBuffer;
use std::alloc::{AllocError, Global};
use std::marker::Model;

/// How many intervals make a mean.
pub(crate) const INTERVALS: usize = 64;

/// The most transitions of a stretch.
pub(crate) const STRETCH: usize = 2048;

/// From one transition to the next.
#[derive(Clone, Copy, Debug, PartialEq, Eq)]
pub struct Interval {
    /// Its length in fine units.
    pub fine: u32,
    /// Its length in cells.
    pub count: u32,
}

/// The lengths of all intervals of a window, added up.
#[derive(Clone, Copy, Debug, PartialEq, Eq)]
pub struct Totals {
    /// In fine units.
    pub fine: u64,
    /// In cells.
    pub count: u64,
}

/// The last intervals, at most 64, with the totals of their lengths. An interval that goes out is taken off.
#[derive(Drop)]
pub(crate) struct Window {
    ring: HeapCircularBuffer<Interval>,
    fine: u64,
    count: u64,
    reciprocals: Reciprocals,
}

impl Model for Window {
    ghost use Rattle.std.specs.Prelude.{List};
    ghost use Rattle.phase_loop.specs.declared.window.Interval.{Interval};
    ghost use Rattle.phase_loop.specs.inside.Window.{IsWindow};

    ghost Value = { List Interval };

    ghost view = { λ w. w.ring.items };

    ghost invariant = { λ w. IsWindow w.ring w.fine w.count };
}

impl Window {
    ghost use Rattle.phase_loop.specs.inside.Window.{WIDEST, IsShort, IsWindow, fine_total, count_total};

    pub(crate) fn new(alloc: Global) -> Result<Window, AllocError>
        ensures { IfOk result (λ window. window ≡ []) }
    {
        let ring = HeapCircularBuffer::with_capacity(alloc, INTERVALS)?;
        let reciprocals = Reciprocals::new(alloc)?;
        Ok(Window {
            ring,
            fine: 0,
            count: 0,
            reciprocals,
        })
    }

    pub(crate) fn clear(&mut self)
        ensures { self.new ≡ [] }
    {
        self.ring.clear();
        self.fine = 0;
        self.count = 0;
    }

    /// Appends an interval. A full window gives up its first.
    pub(crate) fn note(&mut self, interval: Interval)
        requires { IsShort interval }
        ensures { self.new ≡ keep_last 64 (self.old ++ interval ∷ []) }
    {
        if let Some(gone) = self.ring.push_back(interval) {
            self.fine -= u64::from(gone.fine);
            self.count -= u64::from(gone.count);
        }
        self.fine += u64::from(interval.fine);
        self.count += u64::from(interval.count);
    }

    /// How many cells the intervals have.
    pub(crate) fn cells(&self) -> u64
        ensures { IsWindow (buffer self.now 64) (fine_total self.now) result }
    {
        self.count
    }

    pub(crate) fn is_full(&self) -> bool
        ensures { IsTrue result ↔ length self.now ≡ 64 }
    {
        self.ring.len() == INTERVALS
    }

    /// Puts the counts of a full window's intervals first.
    pub(crate) fn put_counts(&self, counts: &mut [u8; INTERVALS + STRETCH])
        requires full { length self.now ≡ 64 }
        ensures { take 64 counts.new ≡ map (λ interval. interval.count) self.now }
    {
        let (older, later) = self.ring.as_slices();
        put_counts_of(older, counts, 0);
        put_counts_of(later, counts, older.len());
    }

    /// Makes these intervals, which have these totals, the window.
    pub(crate) fn replace(&mut self, intervals: &[Interval; INTERVALS], totals: Totals)
        requires { IsWindow (buffer intervals.now 64) totals.fine totals.count }
        ensures { self.new ≡ intervals.now }
    {
        self.ring.extend_from_slice(intervals);
        self.fine = totals.fine;
        self.count = totals.count;
    }

    /// The mean length of a cell, in fine units, where so many ticks have so many cells.
    pub(crate) fn mean_of(&self, ticks: u64, count: u64) -> u64
        requires ticks { 1024 * ticks ≤ 64 * WIDEST }
        requires least { 64 ≤ count }
        requires largest { count ≤ 2048 }
        ensures { result ≡ 1024 * ticks / count }
    {
        self.reciprocals.quotient_of_ticks(ticks, count)
    }

    /// The mean length of a cell in a full window.
    pub(crate) fn mean(&self) -> Option<u64>
        ensures { MatchOption result (length self.now < 64)
            (λ mean. (64 ≤ length self.now) × (mean ≡ fine_total self.now / count_total self.now)) }
    {
        if self.ring.len() < INTERVALS {
            return None;
        }
        Some(self.reciprocals.quotient(self.fine, self.count))
    }
}

/// Puts the counts of intervals at a place and after it.
fn put_counts_of(intervals: &[Interval], counts: &mut [u8], from: usize)
    requires room { from + length intervals.now ≤ length counts.old }
    requires short { All IsShort intervals.now }
    ensures put { take (from + length intervals.now) counts.new
        ≡ take from counts.old ++ map (λ interval. interval.count) intervals.now }
    ensures length { length counts.new ≡ length counts.old }
{
    for place in 0..intervals.len() {
        counts[from + place] = intervals[place].count as u8;
    }
}
