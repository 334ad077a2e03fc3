ghost use Rattle.std.specs.Prelude.{◌≡◌};
ghost use Rattle.commodore_gcr.specs.Zones.{side_tracks};

/// A kind of Commodore's drives, whose disks have the same blocks on other tracks.
#[derive(Clone, Copy, Debug, PartialEq, Eq)]
pub enum CommodoreDrive {
    /// The 1541, and with two heads the 1571: tracks of 21 to 17 sectors, those of head 1 numbered from 36.
    C1541,
    /// The 8050, and with two heads the 8250: tracks of 29 to 23 sectors, those of head 1 numbered from 78.
    C8050,
}

impl CommodoreDrive {
    /// The tracks of a side, as headers number them on.
    pub(crate) fn side_tracks(self) -> u8
        ensures { result ≡ side_tracks self }
    {
        match self {
            CommodoreDrive::C1541 => 35,
            CommodoreDrive::C8050 => 77,
        }
    }
}
