ghost use Rattle.std.specs.Prelude.{◌≡◌};
ghost use Rattle.imd_records.specs.Modes.{number_of};

/// How a track was written, as ImageDisk tells it: the recording, and the bits of a second.
#[derive(Clone, Copy, Debug, PartialEq, Eq)]
pub enum Mode {
    /// MFM of 250000 bits: double density.
    Mfm250,
    /// MFM of 500000 bits: high density, and 8-inch disks of double density.
    Mfm500,
    /// FM of 250000 bits: single density.
    Fm250,
    /// FM of 500000 bits: 8-inch disks of single density.
    Fm500,
}

impl Mode {
    /// How a file names it.
    pub fn number(self) -> u8
        ensures { result ≡ number_of self }
    {
        match self {
            Mode::Mfm250 => 5,
            Mode::Mfm500 => 3,
            Mode::Fm250 => 2,
            Mode::Fm500 => 0,
        }
    }
}
