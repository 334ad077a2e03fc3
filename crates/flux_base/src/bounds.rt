/// The most bytes of a sector of any disk.
pub const MOST_SECTOR_BYTES: usize = 1024;

/// The most bytes that the sectors of a track of any disk have together.
pub const MOST_TRACK_BYTES: usize = 11264;
