ghost use Rattle.std.specs.Prelude.{◌≡◌};
ghost use Rattle.ibm_disks.specs.GapPlans.{density_of, track_bytes as bytes_of_track};

/// How fast a drive turns and writes.
#[derive(Clone, Copy, Debug, PartialEq, Eq)]
pub enum Rate {
    /// Double density, at 300 revolutions a minute.
    Double,
    /// High density, at 300 revolutions a minute.
    High,
    /// High density at 360 revolutions a minute: 5.25-inch and 8-inch disks.
    HighAt360,
    /// Single density, at 300 revolutions a minute.
    Single,
    /// Single density at 360 revolutions a minute: 8-inch disks.
    SingleAt360,
}

/// Which of the two recordings a disk has.
#[derive(Clone, Copy, Debug, PartialEq, Eq)]
pub enum Density {
    /// Single density (IBM 3740, FM).
    Single,
    /// Double density (IBM System 34, MFM), which the high densities have too.
    Double,
}

impl Rate {
    /// The bytes of a track, of 16 cells each.
    pub fn track_bytes(self) -> u16
        ensures { result ≡ bytes_of_track self }
    {
        match self {
            Rate::Double => 6250,
            Rate::High => 12500,
            Rate::HighAt360 => 10416,
            Rate::Single => 3125,
            Rate::SingleAt360 => 5208,
        }
    }

    /// The recording of its disks.
    pub fn density(self) -> Density
        ensures { result ≡ density_of self }
    {
        match self {
            Rate::Double | Rate::High | Rate::HighAt360 => Density::Double,
            Rate::Single | Rate::SingleAt360 => Density::Single,
        }
    }
}
