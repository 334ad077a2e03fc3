ghost use Rattle.std.specs.Prelude.{◌≡◌, ◌*◌, ◌-◌, IsFalse, IsTrue};
ghost use Rattle.ibm_disks.specs.Numbers.{FillTrack, fm_before as fm_bytes_before, mfm_before as mfm_bytes_before};
ghost use Rattle.ibm_disks.specs.Numbers.{mfm_zeros as mfm_zeros_of, used as used_by};
ghost use Rattle.ibm_disks.specs.Named.{same_track};

use crate::sector_size::SectorSize;

/// What stands before the first sector of a track.
#[derive(Clone, Copy, Debug, PartialEq, Eq)]
pub enum LeadIn {
    /// A gap, the index mark, and a gap.
    Indexed,
    /// A gap alone. In double density each sector then has fewer zeros before its header.
    Bare,
}

impl LeadIn {
    /// The bytes before the first sector in double density.
    pub fn mfm_before(self) -> u16
        ensures { result ≡ mfm_bytes_before self }
    {
        match self {
            LeadIn::Indexed => 146,
            LeadIn::Bare => 10,
        }
    }

    /// The zeros before each header in double density, in bytes.
    pub fn mfm_zeros(self) -> u8
        ensures { result ≡ mfm_zeros_of self }
    {
        match self {
            LeadIn::Indexed => 12,
            LeadIn::Bare => 3,
        }
    }

    /// The bytes before the first sector in single density.
    pub fn fm_before(self) -> u16
        ensures { result ≡ fm_bytes_before self }
    {
        match self {
            LeadIn::Indexed => 73,
            LeadIn::Bare => 16,
        }
    }
}

/// The numbers of a track: whatever its recording leaves to the disk.
#[derive(Clone, Copy, Debug, PartialEq, Eq)]
pub struct TrackNumbers {
    /// How many sectors it has.
    pub sectors: u8,
    /// The number of the first of them.
    pub first_sector: u8,
    /// How many bytes each of them has.
    pub size: SectorSize,
    /// What stands before the first one.
    pub lead_in: LeadIn,
    /// The bytes of the gap after each sector.
    pub sector_gap: u8,
    /// The bytes of the whole track, from index to index, of 16 cells each.
    pub bytes: u16,
}

impl TrackNumbers {
    /// The PC's track of 8 sectors (160 and 320 KB).
    pub const PC_8: TrackNumbers = TrackNumbers {
        sectors: 8,
        first_sector: 1,
        size: SectorSize::Bytes512,
        lead_in: LeadIn::Indexed,
        sector_gap: 80,
        bytes: 6250,
    };

    /// The PC's track of 9 sectors (180, 360 and 720 KB), which the Atari ST and MSX have too.
    pub const PC_9: TrackNumbers = TrackNumbers {
        sectors: 9,
        first_sector: 1,
        size: SectorSize::Bytes512,
        lead_in: LeadIn::Indexed,
        sector_gap: 80,
        bytes: 6250,
    };

    /// The PC's track of 15 sectors (1200 KB).
    pub const PC_15: TrackNumbers = TrackNumbers {
        sectors: 15,
        first_sector: 1,
        size: SectorSize::Bytes512,
        lead_in: LeadIn::Indexed,
        sector_gap: 84,
        bytes: 10416,
    };

    /// The PC's track of 18 sectors (1440 KB).
    pub const PC_18: TrackNumbers = TrackNumbers {
        sectors: 18,
        first_sector: 1,
        size: SectorSize::Bytes512,
        lead_in: LeadIn::Indexed,
        sector_gap: 108,
        bytes: 12500,
    };

    /// The Atari ST's track of 10 sectors (800 KB).
    pub const ATARI_10: TrackNumbers = TrackNumbers {
        sectors: 10,
        first_sector: 1,
        size: SectorSize::Bytes512,
        lead_in: LeadIn::Indexed,
        sector_gap: 30,
        bytes: 6250,
    };

    /// The Amstrad CPC's track for data: 9 sectors, the first of which is C1 hexadecimal.
    pub const CPC_DATA: TrackNumbers = TrackNumbers {
        sectors: 9,
        first_sector: 0xC1,
        size: SectorSize::Bytes512,
        lead_in: LeadIn::Indexed,
        sector_gap: 82,
        bytes: 6250,
    };

    /// The Amstrad CPC's track with a system: the same with 41 hexadecimal.
    pub const CPC_SYSTEM: TrackNumbers = TrackNumbers {
        sectors: 9,
        first_sector: 0x41,
        size: SectorSize::Bytes512,
        lead_in: LeadIn::Indexed,
        sector_gap: 82,
        bytes: 6250,
    };

    /// The track of the IBM 3740 diskette, single density: 26 sectors of 128 bytes.
    pub const IBM_3740: TrackNumbers = TrackNumbers {
        sectors: 26,
        first_sector: 1,
        size: SectorSize::Bytes128,
        lead_in: LeadIn::Indexed,
        sector_gap: 27,
        bytes: 5208,
    };

    /// Acorn's track (DFS), single density: 10 sectors of 256 bytes, without an index mark.
    pub const ACORN: TrackNumbers = TrackNumbers {
        sectors: 10,
        first_sector: 0,
        size: SectorSize::Bytes256,
        lead_in: LeadIn::Bare,
        sector_gap: 21,
        bytes: 3125,
    };

    /// Whether these are the same numbers.
    pub(crate) fn is(self, other: TrackNumbers) -> bool
        ensures { result ≡ same_track self other }
    {
        let sectors = self.sectors == other.sectors && self.first_sector == other.first_sector;
        let size = self.size.bytes() == other.size.bytes();
        let lead_in = self.lead_in.mfm_before() == other.lead_in.mfm_before();
        let gap = self.sector_gap == other.sector_gap;
        sectors && size && lead_in && gap && self.bytes == other.bytes
    }

    /// Whether the numbers fill a track, where so many bytes stand before the first sector, and each sector has so many
    /// beside its own bytes and the gap after it.
    pub fn fill_track(self, before: u16, around: u16) -> bool
        ensures yes { IsTrue result → FillTrack before around self }
        ensures no { IsFalse result → ¬ FillTrack before around self }
    {
        if self.sectors == 0 {
            return false;
        }
        if u16::from(self.first_sector) + u16::from(self.sectors) > 256 {
            return false;
        }
        if self.bytes > 16384 {
            return false;
        }
        self.used(before, around) < u32::from(self.bytes)
    }

    /// The bytes of the gap after the last sector, which fills the track, where so many bytes stand before the first
    /// sector, and each sector has so many beside its own bytes and the gap after it.
    pub fn track_gap(self, before: u16, around: u16) -> u16
        requires { FillTrack before around self }
        ensures { result ≡ self.bytes - used_by before around self }
    {
        self.bytes - self.used(before, around) as u16
    }

    /// The bytes up to there.
    fn used(self, before: u16, around: u16) -> u32
        ensures { result ≡ used_by before around self }
    {
        let pitch = u32::from(around) + u32::from(self.size.bytes()) + u32::from(self.sector_gap);
        u32::from(before) + u32::from(self.sectors) * pitch
    }

    /// The cells of the whole track.
    pub fn cells(self) -> u32
        ensures { result ≡ 16 * self.bytes }
    {
        16 * u32::from(self.bytes)
    }
}
