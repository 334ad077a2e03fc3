//! When the files beside the format's tracks are looked at.

ghost use Rattle.std.specs.Prelude.{◌≡◌};
ghost use Rattle.dump_reading.specs.Beside.{looks_beside};

use sector_report::Totals;

/// When files are looked at that lie beside those of the format's tracks.
#[derive(Clone, Copy, Debug, PartialEq, Eq)]
pub enum Looks {
    /// Always.
    Always,
    /// Where a sector of the disk is good. So it costs no more to ask for a format that is not the dumps' own.
    WhereGood,
}

impl Looks {
    /// Whether they are, by the sectors that the format's tracks came to.
    pub fn wants(self, sectors: &Totals) -> bool
        ensures { result ≡ looks_beside self sectors.now }
    {
        match self {
            Looks::Always => true,
            Looks::WhereGood => sectors.good > 0,
        }
    }
}
