/// The number of sectors, and of those with each verdict.
#[derive(Clone, Copy, Debug, PartialEq, Eq)]
pub struct Totals {
    pub sectors: u32,
    pub good: u32,
    pub bad: u32,
    pub missing: u32,
    pub contradictory: u32,
}
