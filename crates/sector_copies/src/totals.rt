/// What the dumps of a disk come to of one sector, in numbers.
#[derive(Clone, Copy, Debug, PartialEq, Eq)]
pub struct SectorTotals {
    /// How many distinct contents its good readings hold, at most 16.
    pub copies: usize,
    /// How many files of its track failed as they were opened or read.
    pub lost: u32,
}
