//! The formats' numbers.

/// The tracks and sectors of a format.
#[derive(Clone, Copy)]
pub struct Disk {
    /// Its word of the command line.
    pub word: &'static str,
    pub cylinders: u8,
    pub heads: u8,
    /// The sectors of a track, and the number of the first.
    pub sectors: u8,
    pub first_sector: u8,
    /// The bytes of a sector.
    pub size: u16,
    /// The place of the first sector in a ring, and how far the next one is after it, in cells.
    pub place: u32,
    pub step: u32,
    /// How many ticks a cell has in the streams that are made.
    pub ticks: u8,
}

impl Disk {
    pub fn tracks(self) -> usize {
        usize::from(self.cylinders).saturating_mul(usize::from(self.heads))
    }
}

pub const IBM_3740: Disk = Disk {
    word: "ibm-3740",
    cylinders: 77,
    heads: 1,
    sectors: 26,
    first_sector: 1,
    size: 128,
    place: 1264,
    step: 3008,
    ticks: 48,
};

pub const IBM_360: Disk = Disk {
    word: "ibm-360",
    cylinders: 40,
    ..IBM_720
};

pub const IBM_720: Disk = Disk {
    word: "ibm-720",
    cylinders: 80,
    heads: 2,
    sectors: 9,
    first_sector: 1,
    size: 512,
    place: 2528,
    step: 10464,
    ticks: 48,
};

pub const ACORN_DFS_40: Disk = Disk {
    word: "acorn-dfs-40",
    cylinders: 40,
    heads: 1,
    sectors: 10,
    first_sector: 0,
    size: 256,
    place: 352,
    step: 4960,
    ticks: 96,
};
