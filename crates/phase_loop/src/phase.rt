//! The loop that follows a track's clock.
ghost use Rattle.std.specs.Prelude.{◌≡◌, ℕ, ◌+◌, ◌*◌, ◌/◌, ◌^◌, ◌≤◌, ◌<◌, max, [], ◌∷◌, ◌++◌, List, length, IfOk, ◌↔◌};
ghost use Rattle.std.specs.Prelude.{IsTrue};

mod alike;
mod certain;
mod doubt;
mod guess;
mod stretch;

use self::doubt::Doubt;
use crate::start::{Band, FINE_PER_TICK, LoopStart};
use crate::window::{Interval, Window};
use flux_base::Memory;
use std::alloc::Global;
use std::marker::Model;

/// The most cells of one interval. A longer one starts the loop anew.
const LONGEST: u64 = 32;

/// Turns the times of transitions, one after another, into counts of cells.
///
/// It keeps the place where it expects the clock, the period of a cell and the last 64 intervals. Places and
/// periods are in fine units, of which 1024 make a tick.
#[derive(Drop)]
pub struct Loop {
    start: LoopStart,
    fine: u64,
    place: u64,
    period: u64,
    window: Window,
    /// The number of the track's transition from which on a stretch is tried again.
    next_stretch: usize,
    /// Whether it is tried if a stretch is certain.
    doubt: Doubt,
}

impl Model for Loop {
    ghost use Rattle.phase_loop.specs.State.{LoopState};

    ghost Value = { LoopState };

    ghost use Rattle.phase_loop.specs.Loop.{view_of, IsLoop};

    ghost view = { view_of };

    ghost invariant = { IsLoop };
}

impl Loop {
    ghost use Rattle.phase_loop.specs.Start.{INTERVALS, IsStart, band_of};
    ghost use Rattle.phase_loop.specs.Rows.{counts};
    ghost use Rattle.phase_loop.specs.State.{Holds};
    ghost use Rattle.phase_loop.specs.inside.Step.{state_after, count_after, restarted};

    /// A loop with room for its 64 intervals. It stands as one that was started at time 0 with a nominal cell
    /// and a period of 16 ticks.
    pub fn new(alloc: Global) -> Result<Loop, Memory>
        ensures { IfOk result
            (λ loop. Holds loop (record { nominal = 16384; first = 16384; band = band_of 16384 }) (0 ∷ [])) }
    {
        let window = Window::new(alloc)?;
        Ok(Loop {
            start: LoopStart {
                nominal: 16384,
                first: 16384,
                band: Band::about(16384),
            },
            fine: 0,
            place: 0,
            period: 16384,
            window,
            next_stretch: 0,
            doubt: Doubt::NONE,
        })
    }

    /// Starts the loop at a track's first transition, at `time` ticks.
    pub fn start(&mut self, start: LoopStart, time: u64)
        requires start { IsStart start }
        requires within { time ≤ 2 ^ 39 }
        ensures holds { Holds self.new start (time ∷ []) }
        ensures time { self.new.fine ≡ 1024 * time }
    {
        self.start = start;
        self.next_stretch = 0;
        self.doubt = Doubt::NONE;
        self.restart(FINE_PER_TICK * time);
    }

    /// Takes the next transition, at `time` ticks, and gives the count of cells since the one before, 1 to 32.
    ///
    /// The loop holds the rule's values at the last of the times so far; with this time after them the rule
    /// gives one count more, which is the answer, and the loop holds its values there.
    pub fn step(&mut self, time: u64) -> u8
        requires later { self.old.fine ≤ 1024 * time }
        requires within { time ≤ 2 ^ 39 }
        ensures count { (start : LoopStart) (times : List ℕ) → Holds self.old start times
            → counts start (times ++ time ∷ []) ≡ counts start times ++ result ∷ [] }
        ensures holds { (start : LoopStart) (times : List ℕ) → Holds self.old start times
            → Holds self.new start (times ++ time ∷ []) }
        ensures time { self.new.fine ≡ 1024 * time }
        ensures window { length self.new.recent ≤ INTERVALS }
        ensures some { 1 ≤ result }
        ensures most { result ≤ 32 }
    {
        self.take(FINE_PER_TICK * time)
    }

    /// Starts anew at a time in fine units.
    fn restart(&mut self, fine: u64)
        requires { fine ≤ 2 ^ 49 }
        ensures { self.new ≡ restarted self.old fine }
    {
        self.fine = fine;
        self.place = fine;
        self.period = u64::from(self.start.first);
        self.window.clear();
    }

    /// Takes the next transition, at a time in fine units.
    fn take(&mut self, fine: u64) -> u8
        requires later { self.old.fine ≤ fine }
        requires within { fine ≤ 2 ^ 49 }
        ensures state { self.new ≡ state_after self.old fine }
        ensures count { result ≡ count_after self.old fine }
        ensures time { self.new.fine ≡ fine }
        ensures some { 1 ≤ result }
    {
        let period = self.period;
        // A time before the place counts as one at the place does.
        let count = periods_in(fine.saturating_sub(self.place), period);
        if count > LONGEST {
            self.restart(fine);
            return 32;
        }
        self.window.note(Interval {
            fine: (fine - self.fine) as u32,
            count: count as u32,
        });
        self.period = match self.window.mean() {
            Some(mean) => self.start.band.keep(mean),
            None => u64::from(self.start.first),
        };
        self.place = (self.place + count * period + fine) / 2;
        self.fine = fine;
        count as u8
    }
}

/// How many periods lie in a way, to the nearest, and at least one.
fn periods_in(way: u64, period: u64) -> u64
    requires way { way ≤ 2 ^ 50 }
    requires some { 1 ≤ period }
    requires most { period ≤ 163840 }
    ensures { result ≡ max 1 ((2 * way + period) / (2 * period)) }
{
    if are_few(way, period) {
        return few_periods_in(way, period);
    }
    (2 * way + period) / (2 * period)
}

/// Whether fewer than four and a half periods lie in a way. No recording has more than four cells from one
/// transition to the next.
fn are_few(way: u64, period: u64) -> bool
    requires way { way ≤ 2 ^ 50 }
    requires most { period ≤ 163840 }
    ensures { IsTrue result ↔ 2 * way < 9 * period }
{
    2 * way < 9 * period
}

/// How many periods lie in a way with few: a sum of comparisons, which is faster than a division.
fn few_periods_in(way: u64, period: u64) -> u64
    requires few { 2 * way < 9 * period }
    requires most { period ≤ 163840 }
    ensures nearest { result ≡ max 1 ((2 * way + period) / (2 * period)) }
    ensures few { result ≤ 4 }
{
    let twice = 2 * way;
    1 + u64::from(twice >= 3 * period)
        + u64::from(twice >= 5 * period)
        + u64::from(twice >= 7 * period)
}
