//! How far the files' mean revolutions lie apart.

ghost use Rattle.std.specs.Prelude.{◌≡◌, ◌<◌, length, IfSome};
ghost use Rattle.dump_turns.specs.Lines.{far_mean, uneven_mean};
ghost use Rattle.dump_turns.specs.Spreads.{IsBoundedSpread, IsSpread, is_uneven};
ghost use Rattle.dump_turns.specs.inside.Told.{IsBoundedFound};

use crate::found::Found;

/// The least, the middle one and the greatest of the files' mean revolutions, in ticks.
#[derive(Clone, Copy, Debug, PartialEq, Eq)]
pub struct Spread {
    pub least: u64,
    pub median: u64,
    pub greatest: u64,
}

/// That of some means, which are put in order.
pub(crate) fn spread_of(means: &mut [u64]) -> Spread
    requires { 0 < length means.old }
    ensures { IsSpread means.old result }
{
    means.sort_unstable();
    Spread {
        least: means[0],
        median: means[means.len() / 2],
        greatest: means[means.len() - 1],
    }
}

/// Whether a mean is more than 5 in 1000 from the median.
fn is_uneven(mean: u64, median: u64) -> bool
    requires mean { mean < 1000000000000 }
    requires median { median < 1000000000000 }
    ensures { result ≡ is_uneven mean median }
{
    1000 * mean.abs_diff(median) > 5 * median
}

impl Found {
    /// The mean revolution, where it is far from this median.
    pub(crate) fn far_mean(&self, median: u64) -> Option<u64>
        requires bounded { IsBoundedFound self.now }
        requires median { median < 1000000000000 }
        ensures { result ≡ far_mean median self.now }
    {
        match self {
            Found::Read(turns) if is_uneven(turns.mean(), median) => Some(turns.mean()),
            _ => None,
        }
    }

    /// The same, where there is a median.
    pub(crate) fn uneven_mean(&self, spread: &Option<Spread>) -> Option<u64>
        requires bounded { IsBoundedFound self.now }
        requires spread { IfSome spread.now IsBoundedSpread }
        ensures { result ≡ uneven_mean spread.now self.now }
    {
        match spread {
            Some(spread) => self.far_mean(spread.median),
            None => None,
        }
    }
}
