//! Whether two loops have fallen in step.
ghost use Rattle.std.specs.Prelude.{◌≡◌, IsTrue, length, take};
ghost use Rattle.phase_loop.specs.inside.InStep.{StandAlike};
ghost use Rattle.phase_loop.specs.inside.Stretch.{counts_of};

use super::Loop;
use crate::window::{INTERVALS, STRETCH};

impl Loop {
    /// Whether this loop and another stand alike. Then they go on alike, wherever they started.
    pub(crate) fn stands_like(&self, other: &Loop) -> bool
        ensures { IsTrue result → StandAlike self.now other.now }
    {
        self.place == other.place
            && self.period == other.period
            && self.start.band == other.start.band
            && self.window.is_full()
            && other.window.is_full()
            && self.has_counts_of(other)
    }

    /// Whether the intervals of two full windows have the same counts.
    fn has_counts_of(&self, other: &Loop) -> bool
        requires full { length self.now.recent ≡ 64 }
        requires full_too { length other.now.recent ≡ 64 }
        ensures { IsTrue result → counts_of self.now.recent ≡ counts_of other.now.recent }
    {
        let mut counts = [0; INTERVALS + STRETCH];
        self.window.put_counts(&mut counts);
        let mut others = [0; INTERVALS + STRETCH];
        other.window.put_counts(&mut others);
        counts[..INTERVALS] == others[..INTERVALS]
    }
}
