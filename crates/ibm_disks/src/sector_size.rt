ghost use Rattle.std.specs.Prelude.{◌≡◌, ◌≢◌, IfNone, IfSome};
ghost use Rattle.ibm_disks.specs.Numbers.{code_of, size_of};

/// How many bytes a sector has.
#[derive(Clone, Copy, Debug, PartialEq, Eq)]
pub enum SectorSize {
    Bytes128,
    Bytes256,
    Bytes512,
    Bytes1024,
}

impl SectorSize {
    /// The size of so many bytes, if there is one.
    pub fn of_bytes(bytes: u16) -> Option<SectorSize>
        ensures some { IfSome result (λ size. size_of size ≡ bytes) }
        ensures none { IfNone result ((size : SectorSize) → size_of size ≢ bytes) }
    {
        match bytes {
            128 => Some(SectorSize::Bytes128),
            256 => Some(SectorSize::Bytes256),
            512 => Some(SectorSize::Bytes512),
            1024 => Some(SectorSize::Bytes1024),
            _ => None,
        }
    }

    /// In bytes.
    pub fn bytes(self) -> u16
        ensures { result ≡ size_of self }
    {
        match self {
            SectorSize::Bytes128 => 128,
            SectorSize::Bytes256 => 256,
            SectorSize::Bytes512 => 512,
            SectorSize::Bytes1024 => 1024,
        }
    }

    /// The code of the size in a header: the size is 128, doubled so often.
    pub fn code(self) -> u8
        ensures { result ≡ code_of self }
    {
        match self {
            SectorSize::Bytes128 => 0,
            SectorSize::Bytes256 => 1,
            SectorSize::Bytes512 => 2,
            SectorSize::Bytes1024 => 3,
        }
    }
}
