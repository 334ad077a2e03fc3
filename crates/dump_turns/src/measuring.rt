//! The revolutions of a stream.

ghost use Rattle.std.specs.Prelude.{◌≡◌, ◌<◌, ◌≤◌, ◌^◌, ◌/◌, length, All};
ghost use Rattle.index_turns.specs.Track.{turn_length};
ghost use Rattle.dump_turns.specs.Turns.{AreTurns, IsBoundedTurns};

use crate::found::FileTurns;
use index_turns::TrackFlux;

/// Those of a stream in a file of so many bytes.
pub(crate) fn measure(flux: &TrackFlux, bytes: u32) -> FileTurns
    requires some { 1 < length flux.now.indexes }
    requires few { length flux.now.indexes ≤ 262144 }
    requires few_times { length flux.now.times ≤ 4194304 }
    requires within { All (λ time. time < 2 ^ 39) flux.now.indexes }
    ensures are { AreTurns flux.now.times flux.now.indexes result }
    ensures bytes { result.bytes ≡ bytes }
    ensures bounded { IsBoundedTurns result }
{
    let indexes = flux.indexes();
    let last = indexes.len() - 1;
    let mut least = flux.turn_ticks(1);
    let mut greatest = least;
    for turn in 2..indexes.len() {
        let ticks = flux.turn_ticks(turn as u32);
        least = least.min(ticks);
        greatest = greatest.max(ticks);
    }
    FileTurns {
        bytes,
        transitions: flux.times().len() as u32,
        turns: last as u32,
        least,
        greatest,
        ticks: indexes[last] - indexes[0],
    }
}

impl FileTurns {
    /// The mean of the revolutions, whole ticks.
    pub fn mean(&self) -> u64
        requires { 0 < self.now.turns }
        ensures { result ≡ self.now.ticks / self.now.turns }
    {
        self.ticks / u64::from(self.turns)
    }
}
