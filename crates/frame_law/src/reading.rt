use arrayvec::ArrayVec;
use flux_base::{HeaderName, MOST_SECTOR_BYTES};

/// Room for the bytes of one sector of any recording.
pub type SectorBuffer = ArrayVec<u8, MOST_SECTOR_BYTES>;

/// What is found where a header stands.
#[derive(Clone, Copy, Debug, PartialEq, Eq)]
pub enum FoundHeader {
    /// The header of this sector of the track.
    Sector(u8),
    /// The header of another name.
    Other(HeaderName),
}

/// What is read at one place of a list of cells.
#[derive(Clone, Copy, Debug, PartialEq, Eq)]
pub enum Reading {
    /// No header of the track stands there.
    Nothing,
    /// A sector's header stands there whole, and the sector does not.
    Bad { sector: u8 },
    /// The whole sector stands there.
    Good { sector: u8 },
}
