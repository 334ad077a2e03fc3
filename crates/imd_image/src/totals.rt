//! How many there are of each kind.

ghost use Rattle.std.specs.Prelude.{◌≡◌, ◌+◌, ◌≤◌, [], ℕ};
ghost use Rattle.imd_image.specs.Totals.{asks as asks_in, is_complete, totals_of};
ghost use Rattle.imd_image.specs.inside.Counted.{AreWithin, plus};

use track_shelf::Stepping;

/// How many tracks, sectors and files there are, and how many of each kind.
#[derive(Clone, Copy, Debug, PartialEq, Eq)]
pub struct ImdTotals {
    /// Tracks that have a record.
    pub tracks: u32,
    /// Sectors of all records.
    pub sectors: u32,
    /// Those with data.
    pub good: u32,
    /// Those of which no data are whole.
    pub bad: u32,
    /// Those whose whole data differ.
    pub contradictory: u32,
    /// Those with data whose mark is that of deleted ones.
    pub deleted: u32,
    /// Names that are left out, and lines that say that more are.
    pub left: u32,
    pub refused: u32,
    pub missing: u32,
    pub failed: u32,
    /// Records of which a name tells another cylinder than the track's.
    pub maps: u32,
    /// A track behind cylinder 0 has a name.
    pub behind: bool,
    /// A name does not tell half of its track's cylinder.
    pub elsewhere: bool,
}

impl ImdTotals {
    /// Those of no track.
    pub(crate) fn none() -> ImdTotals
        ensures is { result ≡ totals_of [] }
        ensures few { AreWithin 0 result }
    {
        ImdTotals {
            tracks: 0,
            sectors: 0,
            good: 0,
            bad: 0,
            contradictory: 0,
            deleted: 0,
            left: 0,
            refused: 0,
            missing: 0,
            failed: 0,
            maps: 0,
            behind: false,
            elsewhere: false,
        }
    }

    /// With those of another track.
    pub(crate) fn with(&self, other: &ImdTotals) -> ImdTotals
        requires few { AreWithin 2000000000 self.now }
        requires few_more { AreWithin 1024 other.now }
        ensures is { result ≡ plus self.now other.now }
        ensures few { (most : ℕ) → AreWithin most self.now → AreWithin (most + 1024) result }
    {
        ImdTotals {
            tracks: self.tracks + other.tracks,
            sectors: self.sectors + other.sectors,
            good: self.good + other.good,
            bad: self.bad + other.bad,
            contradictory: self.contradictory + other.contradictory,
            deleted: self.deleted + other.deleted,
            left: self.left + other.left,
            refused: self.refused + other.refused,
            missing: self.missing + other.missing,
            failed: self.failed + other.failed,
            maps: self.maps + other.maps,
            behind: self.behind || other.behind,
            elsewhere: self.elsewhere || other.elsewhere,
        }
    }

    /// Whether another stepping should be asked for: the names tell that a drive made one step where it should have
    /// made two, so each track of the disk stands in two files.
    pub fn asks(&self, stepping: Stepping) -> bool
        ensures { result ≡ asks_in stepping self.now }
    {
        match stepping {
            Stepping::Single => self.behind && !self.elsewhere,
            Stepping::Double => false,
        }
    }

    /// Whether all is in the file: there is a sector, each has data, no name is left out, and no file was passed over.
    pub fn is_complete(&self) -> bool
        ensures { result ≡ is_complete self.now }
    {
        let all = self.tracks > 0 && self.good == self.sectors && self.left == 0;
        all && self.refused == 0 && self.missing == 0 && self.failed == 0
    }
}
