use flux_base::TrackId;

/// The two bytes of the id of a disk of one of Commodore's drives. No other disk has one.
#[derive(Clone, Copy, Debug, PartialEq, Eq)]
pub struct DiskId {
    /// The first character.
    pub first: u8,
    /// The second character.
    pub second: u8,
}

impl DiskId {
    /// An id for disks that are read: what stands on them is the same for all ids.
    pub const ANY: DiskId = DiskId {
        first: 0,
        second: 0,
    };
}

/// Where an image has its disk's id: in sector 0 of a track.
#[derive(Clone, Copy, Debug)]
pub struct IdPlace {
    /// The track.
    pub track: TrackId,
    /// The byte of the sector that has the first character. The second one stands behind it.
    pub byte: u8,
}
