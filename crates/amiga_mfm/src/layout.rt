ghost use Rattle.std.specs.Prelude.{◌≡◌};
ghost use Rattle.amiga_mfm.specs.Disks.{disk_of as numbers_of};

use crate::recording::AmigaMfm;
use mfm_coding::Symbol;

/// What the tracks of a disk have of their own.
#[derive(Clone, Copy)]
pub(crate) struct Disk {
    /// How many sectors a track has.
    pub(crate) sectors: u8,
    /// The bytes of the gap after the last sector, which fills the track.
    pub(crate) track_gap: u16,
    /// The cells of a track, 16 a byte.
    pub(crate) cells: u32,
}

/// The numbers of a disk.
pub(crate) fn disk_of(recording: AmigaMfm) -> Disk
    ensures { result ≡ numbers_of recording }
{
    match recording {
        AmigaMfm::DoubleDensity => Disk {
            sectors: 11,
            track_gap: 266,
            cells: 100_000,
        },
        AmigaMfm::HighDensity => Disk {
            sectors: 22,
            track_gap: 532,
            cells: 200_000,
        },
    }
}

/// A row of a track.
#[derive(Clone, Copy)]
pub enum Row {
    /// So many times the same symbol.
    Run(u8, Symbol),
    /// The long that names the sector, the label, and the check value of both.
    Header,
    /// The check value of the sector's bytes, and the bytes as longs.
    Content,
    /// The gap after the last sector, as long as the disk has it.
    TrackGap,
}

/// The byte of the gaps.
pub(crate) const ZERO: Symbol = Symbol::Data(0x00);

/// A sector: two bytes of zeros, and its frame, which begins at its marks.
pub(crate) const SECTOR: [Row; 4] = [
    Row::Run(2, ZERO),
    Row::Run(2, Symbol::SyncMark),
    Row::Header,
    Row::Content,
];

/// After the last sector: a gap.
pub(crate) const LEAD_OUT: [Row; 1] = [Row::TrackGap];

pub(crate) const FIRST_SECTOR: u8 = 0;

/// The bytes of a sector.
pub(crate) const SECTOR_SIZE: u16 = 512;

/// The same as longs.
pub(crate) const SECTOR_LONGS: usize = 128;

/// The longs of a header's label, which are zeros.
pub(crate) const LABEL: [u32; 4] = [0; 4];

/// The first byte of the info long.
pub(crate) const FORMAT_BYTE: u8 = 0xFF;

/// The cells of half a long.
pub(crate) const HALF_CELLS: usize = 32;

/// Where the parts of a frame begin, in cells from its begin: the info long and after it the label, which
/// have 10 halves, then the check values.
pub(crate) const INFO: usize = 32;

pub(crate) const HEADER_HALVES: u16 = 10;

pub(crate) const HEADER_CHECK: usize = 352;

pub(crate) const DATA_CHECK: usize = 416;

/// A header ends where the data begin.
pub(crate) const HEADER_CELLS: usize = 480;

/// The halves of the data, and their cells.
pub(crate) const DATA_HALVES: u16 = 256;

pub(crate) const CONTENT_CELLS: usize = 8192;
