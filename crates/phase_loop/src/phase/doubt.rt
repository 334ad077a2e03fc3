//! When it is tried whether a stretch is certain.
ghost use Rattle.std.specs.Prelude.{◌≤◌};

use crate::window::STRETCH;

/// The most transitions of a stretch that is tried where the last one tried was not certain, and for how many it is
/// not tried after the first such.
const SHORTER: usize = 512;

/// For how many transitions at most it is not tried.
const LONGEST: usize = 8192;

/// After a stretch that was not certain, as noise has them, it is not tried for some transitions, and twice as long
/// each further time: what it costs in vain is spared there.
#[derive(Clone, Copy, Debug, PartialEq, Eq)]
pub struct Doubt {
    /// How many transitions.
    length: usize,
    /// The number of the track's transition with which they end.
    end: usize,
}

impl Doubt {
    pub(crate) const NONE: Doubt = Doubt { length: 0, end: 0 };

    /// Whether a transition lies within it.
    pub(crate) fn lasts(self, number: usize) -> bool {
        number < self.end
    }

    /// The most transitions of the stretch that begins at this one: behind noise those for which it is not tried, or
    /// few, since what is tried there is mostly in vain.
    pub(crate) fn longest_stretch(self, number: usize) -> usize
        ensures { result ≤ 2048 }
    {
        if self.length > 0 {
            return self.end.saturating_sub(number).max(SHORTER).min(STRETCH);
        }
        STRETCH
    }

    /// The doubt after a stretch from one transition to another, which was certain or not.
    pub(crate) fn after(self, last: usize, next: usize, certain: bool) -> Doubt {
        if certain {
            return Doubt::NONE;
        }
        if self.lasts(last) {
            return self;
        }
        let longer = self.length.saturating_mul(2).saturating_add(SHORTER);
        let length = longer.min(LONGEST);
        Doubt {
            length,
            end: next.saturating_add(length),
        }
    }
}
