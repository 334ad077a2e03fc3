ghost use Rattle.std.specs.Prelude.{◌≡◌};
ghost use Rattle.dump_reading.specs.Totals.{is_complete};

use sector_report::Totals;

/// What dumps of a disk came to, in numbers.
#[derive(Clone, Copy, Debug, PartialEq, Eq)]
pub struct DumpTotals {
    /// The sectors, and how many have each verdict.
    pub sectors: Totals,
    /// How many streams were passed over.
    pub unread: u32,
    /// How many of these since their files failed.
    pub lost: u32,
    /// How many names of other headers were told: those with whole data, those that have none and are counted as
    /// traces, and one for each track where whole data follow a name that is not told.
    pub others: u32,
    /// How many of these have whole data after one of their headers at least; the names
    /// that are not told are such a one.
    pub whole: u32,
}

impl DumpTotals {
    /// Whether the image is all that can be read there: every sector is good, and no other header has data.
    pub fn is_complete(&self) -> bool
        ensures { result ≡ is_complete self.now }
    {
        self.sectors.good == self.sectors.sectors && self.whole == 0
    }
}
