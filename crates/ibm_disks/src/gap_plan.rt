//! The track that a disk's numbers make, where they say nothing of its gaps.

ghost use Rattle.std.specs.Prelude.{◌≡◌, IfSome, ◌≤◌, ◌<◌};
ghost use Rattle.ibm_disks.specs.GapPlans.{FillsTrackOf, IsCountOfSectors, double_track, left as left_by};
ghost use Rattle.ibm_disks.specs.GapPlans.{narrow_gap as narrow_gap_of, single_track, track_of, track_with};
ghost use Rattle.ibm_disks.specs.GapPlans.{wide_gap as wide_gap_of};

use crate::rate::{Density, Rate};
use crate::sector_size::SectorSize;
use crate::track_numbers::{LeadIn, TrackNumbers};

/// The most sectors of a track.
const MOST_SECTORS: u8 = 32;

/// The bytes of the widest gap.
const WIDEST_GAP: u32 = 80;

/// What is asked of a track.
#[derive(Clone, Copy, Debug)]
pub(crate) struct GapPlan {
    pub rate: Rate,
    /// 1 to 32.
    pub sectors: u8,
    pub first_sector: u8,
    pub size: SectorSize,
}

impl TrackNumbers {
    /// The track of so many sectors of this size, the first of which has this number, at this rate: as the PC's or the
    /// 3740's, with as wide a gap after each sector as leaves an eighth for the end, at most 80 bytes; or in double
    /// density, where this gap is too narrow, with less before the sectors and before their headers. None where there
    /// is no such track, or not 1 to 32 sectors, or a number of one has more than 8 bits.
    pub fn of_disk(
        rate: Rate,
        sectors: u8,
        first_sector: u8,
        size: SectorSize,
    ) -> Option<TrackNumbers>
        ensures track { result ≡ track_of rate sectors first_sector size }
        ensures fills { IfSome result (FillsTrackOf rate) }
    {
        if sectors == 0 {
            return None;
        }
        if sectors > MOST_SECTORS {
            return None;
        }
        if u16::from(first_sector) + u16::from(sectors) > 256 {
            return None;
        }
        let plan = GapPlan {
            rate,
            sectors,
            first_sector,
            size,
        };
        match rate.density() {
            Density::Double => plan.double_track(),
            Density::Single => plan.single_track(),
        }
    }
}

impl GapPlan {
    /// In double density: as the PC's, or else with less before each header.
    fn double_track(self) -> Option<TrackNumbers>
        requires { IsCountOfSectors self.sectors }
        ensures { result ≡ double_track self }
    {
        let wide = wide_gap(self.left(146, 62), self.sectors);
        if wide >= 10 {
            return Some(self.track(LeadIn::Indexed, wide));
        }
        let narrow = narrow_gap(self.left(10, 53), self.sectors);
        if narrow >= 1 {
            return Some(self.track(LeadIn::Bare, narrow));
        }
        None
    }

    /// In single density: as the 3740's.
    fn single_track(self) -> Option<TrackNumbers>
        requires { IsCountOfSectors self.sectors }
        ensures { result ≡ single_track self }
    {
        let gap = wide_gap(self.left(73, 33), self.sectors);
        if gap >= 4 {
            return Some(self.track(LeadIn::Indexed, gap));
        }
        None
    }

    /// What the sectors leave of the track, where so many bytes stand before the first one
    /// and around the bytes of each.
    fn left(self, before: u16, around: u16) -> u32
        ensures left { result ≡ left_by before around self }
        ensures most { result ≤ 65535 }
    {
        let used = u32::from(before)
            + u32::from(self.sectors) * (u32::from(around) + u32::from(self.size.bytes()));
        u32::from(self.rate.track_bytes()).saturating_sub(used)
    }

    /// The track with this gap after each sector.
    fn track(self, lead_in: LeadIn, sector_gap: u8) -> TrackNumbers
        ensures { result ≡ track_with self lead_in sector_gap }
    {
        TrackNumbers {
            sectors: self.sectors,
            first_sector: self.first_sector,
            size: self.size,
            lead_in,
            sector_gap,
            bytes: self.rate.track_bytes(),
        }
    }
}

/// A gap that leaves an eighth of the rest for the end.
fn wide_gap(rest: u32, sectors: u8) -> u8
    requires few { rest ≤ 65535 }
    requires some { IsCountOfSectors sectors }
    ensures { result ≡ wide_gap_of rest sectors }
{
    (7 * rest / (8 * u32::from(sectors))).min(WIDEST_GAP) as u8
}

/// A gap as wide as the one that is left for the end, at least.
fn narrow_gap(rest: u32, sectors: u8) -> u8
    requires { rest ≤ 65535 }
    ensures { result ≡ narrow_gap_of rest sectors }
{
    (rest / (u32::from(sectors) + 1)).min(WIDEST_GAP) as u8
}
