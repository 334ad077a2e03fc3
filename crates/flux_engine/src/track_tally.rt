//! What one stream comes to as a track, in numbers.

ghost use Rattle.std.specs.Prelude.{◌≡◌, ◌≤◌, List, map};
ghost use Rattle.turn_merge.specs.Book.{StandsFor};
ghost use Rattle.turn_merge.specs.Others.{NotedOther, OthersStandFor};
ghost use Rattle.turn_merge.specs.Readings.{NotedReading, verdict as verdict_over};
ghost use Rattle.flux_engine.specs.Tallies.{CountsOthers};
ghost use Rattle.flux_engine.specs.Tracks.{numbers, totals_of};
ghost use Rattle.flux_engine.specs.Writing.{AreFew, IsSum, Knows};

use crate::told_names::{name_count, whole_name_count};
use crate::writing::{count_verdict, no_totals};
use disk_recordings::Sectors;
use sector_report::Totals;
use turn_merge::{Book, Others};

/// What one stream comes to as a track, in numbers.
#[derive(Clone, Copy, Debug, PartialEq, Eq)]
pub struct TrackTally {
    /// The track's sectors, and how many have each verdict.
    pub sectors: Totals,
    /// How many names are told of headers that name none of its sectors. Those that are not told count as one where
    /// whole data stand after one of their headers.
    pub others: u32,
    /// How many of these names have whole data after one of their headers at least.
    pub whole: u32,
}

/// A track with these sectors and others, in numbers.
pub(crate) fn tally_of(sectors: Totals, others: &Others) -> TrackTally
    ensures sectors { result.sectors ≡ sectors }
    ensures counted { (all : List NotedOther) → OthersStandFor others.now all → CountsOthers all result }
    ensures few { (result.others ≤ 65) × (result.whole ≤ 65) }
{
    TrackTally {
        sectors,
        others: name_count(others),
        whole: whole_name_count(others),
    }
}

/// Counts a track's sectors by their verdicts.
pub(crate) fn count_verdicts(sectors: Sectors, book: &Book) -> Totals
    requires few { AreFew sectors }
    requires known { Knows sectors book.now }
    ensures counted { IsSum result × (result.sectors ≡ sectors.count) }
    ensures totals { (readings : List NotedReading) → StandsFor book.now readings
        → result ≡ totals_of (map (verdict_over readings) (numbers sectors)) }
{
    let mut totals = no_totals();
    for index in 0..sectors.count {
        count_verdict(&mut totals, book.verdict(sectors.first + index));
    }
    totals
}
