ghost use Rattle.std.specs.Prelude.{◌≡◌, ◌≢◌, ℕ, IfNone, IfSome};
ghost use Rattle.flux_base.specs.declared.header_name.HeaderName.TheVariants.{Address, TrackSector, TrackSectorSide};

/// What a sector's header names, as it has it: the numbers of a header in their order.
#[derive(Clone, Copy, Debug, PartialEq, Eq)]
pub enum HeaderName {
    /// IBM's: cylinder, head, the sector's number and the code of its size.
    Address {
        cylinder: u8,
        head: u8,
        sector: u8,
        size_code: u8,
    },
    /// Amiga's, Commodore's and Apple's: the numbers of track and sector.
    TrackSector {
        track: u8,
        sector: u8,
    },
    /// The Macintosh's: the low six bits of the cylinder, the sector's number, the head with the cylinder's seventh
    /// bit, and a number that says how the disk was formatted.
    TrackSectorSide {
        track: u8,
        sector: u8,
        side: u8,
        format: u8,
    },
}

impl HeaderName {
    /// The sector that it names on the track of this number. None where it names none there.
    pub fn sector_of_track(self, number: u8) -> Option<u8>
        ensures named { IfSome result (λ sector. self ≡ TrackSector number sector) }
        ensures none { IfNone result ((sector : ℕ) → self ≢ TrackSector number sector) }
    {
        match self {
            HeaderName::TrackSector { track, sector } if track == number => Some(sector),
            _ => None,
        }
    }

    /// The sector that it names at this cylinder and head, of this code of a size. None where it names none there.
    pub fn sector_of_cylinder(self, cylinder: u8, head: u8, size_code: u8) -> Option<u8>
        ensures named { IfSome result (λ sector. self ≡ Address cylinder head sector size_code) }
        ensures none { IfNone result ((sector : ℕ) → self ≢ Address cylinder head sector size_code) }
    {
        let HeaderName::Address {
            cylinder: own_cylinder,
            head: own_head,
            sector,
            size_code: own_code,
        } = self
        else {
            return None;
        };
        if own_cylinder != cylinder {
            return None;
        }
        if own_head != head {
            return None;
        }
        if own_code != size_code {
            return None;
        }
        Some(sector)
    }

    /// The sector that it names on this track and side of the Macintosh's, however the disk was formatted.
    /// None where it names none there.
    pub fn sector_of_side(self, track: u8, side: u8) -> Option<u8>
        ensures named { IfSome result (λ sector. (format : ℕ) × (self ≡ TrackSectorSide track sector side format)) }
        ensures none { IfNone result ((sector format : ℕ) → self ≢ TrackSectorSide track sector side format) }
    {
        let HeaderName::TrackSectorSide {
            track: own_track,
            sector,
            side: own_side,
            format: _,
        } = self
        else {
            return None;
        };
        if own_track != track {
            return None;
        }
        if own_side != side {
            return None;
        }
        Some(sector)
    }
}
