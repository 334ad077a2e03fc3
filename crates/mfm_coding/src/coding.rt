use frame_law::Coding;

/// MFM, with headers that begin with two marks A1.
pub const CODING: Coding = Coding {
    shortest: 2,
    longest: 4,
    sync: 0x4489_4489,
    sync_cells: 32,
};
