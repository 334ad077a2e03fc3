//! Guesses of counts, before the loop takes the transitions.
ghost use Rattle.std.specs.Prelude.{◌≡◌, ◌≤◌, length, All};
ghost use Rattle.cell_bits.specs.Run.{IsRun};

use super::LONGEST;
use crate::start::FINE_PER_TICK;

/// A whole cell, in parts.
const WHOLE: u32 = 1 << 16;

/// Guesses how many cells lie from a transition to the next, by the period with which a stretch begins.
///
/// A count hangs on the place and the period, which are known last of all, so that each transition would wait for the
/// one before. A guess hangs on two times alone. It is nearly always right, since the period hardly changes within a
/// stretch, and is checked before it counts.
#[derive(Clone, Copy, Debug, PartialEq, Eq)]
pub struct Guess {
    /// How much of a cell a tick is, where a whole one is `WHOLE`.
    part: u32,
}

impl Guess {
    pub(crate) fn by(period: u64) -> Guess
        requires { 1 ≤ period }
    {
        Guess {
            part: (FINE_PER_TICK * u64::from(WHOLE) / period) as u32,
        }
    }

    /// Puts a count for each interval, whose lengths are these ticks.
    pub(crate) fn put_counts(self, ticks: &[u32], counts: &mut [u8])
        requires ticks { length ticks.now ≡ length counts.old }
        ensures length { length counts.new ≡ length counts.old }
        ensures short { All IsRun counts.new }
    {
        for place in 0..counts.len() {
            counts[place] = self.count(ticks[place]);
        }
    }

    /// A count of cells from one to 32. A longer interval ends the stretch.
    fn count(self, ticks: u32) -> u8
        ensures { IsRun result }
    {
        let parts = ticks.wrapping_mul(self.part).wrapping_add(WHOLE / 2);
        (parts / WHOLE).max(1).min(LONGEST as u32) as u8
    }
}
