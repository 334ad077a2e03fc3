ghost use Rattle.std.specs.Prelude.{◌≡◌, ◌+◌, ◌*◌, ◌-◌};
ghost use Rattle.ibm_disks.specs.Numbers.{FillMfmTrack, mfm_around};
ghost use Rattle.ibm_mfm.specs.Layout.{lead_in_rows, track_gap_of};

use ibm_disks::{LeadIn, TrackNumbers};
use mfm_coding::Symbol;

/// A row of a track.
#[derive(Clone, Copy)]
pub enum Row {
    /// So many times the same symbol.
    Run(u8, Symbol),
    /// The zeros before a header, as many as the track has.
    HeaderZeros,
    /// The first byte of a header, a sector's address and the check value.
    Address,
    /// The first byte of data, a sector's bytes and the check value.
    Content,
    /// The gap after a sector, as long as the track has it.
    SectorGap,
    /// The gap after the last sector, which fills the track.
    TrackGap,
}

/// The byte of the gaps.
pub(crate) const GAP: Symbol = Symbol::Data(0x4E);

/// The byte that stands before marks.
pub(crate) const ZERO: Symbol = Symbol::Data(0x00);

/// Before the first sector: a gap with the index mark.
const INDEXED_LEAD_IN: [Row; 5] = [
    Row::Run(80, GAP),
    Row::Run(12, ZERO),
    Row::Run(3, Symbol::IndexMark),
    Row::Run(1, Symbol::Data(0xFC)),
    Row::Run(50, GAP),
];

/// Before the first sector: a gap alone.
const BARE_LEAD_IN: [Row; 1] = [Row::Run(10, GAP)];

/// The rows before the first sector.
pub(crate) fn lead_in(kind: LeadIn) -> &'static [Row]
    ensures { result.now ≡ lead_in_rows kind }
{
    match kind {
        LeadIn::Indexed => &INDEXED_LEAD_IN,
        LeadIn::Bare => &BARE_LEAD_IN,
    }
}

/// What a sector has around its bytes, but for the zeros before it and the gap after it: ten bytes of the header, 22
/// of a gap, twelve zeros, and six of the data.
const REST_OF_SECTOR: u16 = 50;

/// The bytes of the gap after the last sector.
pub(crate) fn track_gap(numbers: TrackNumbers) -> u16
    requires { FillMfmTrack numbers }
    ensures { result ≡ track_gap_of numbers }
{
    numbers.track_gap(numbers.lead_in.mfm_before(), around(numbers.lead_in))
}

/// What a sector has around its bytes, but for the gap after it.
pub(crate) fn around(kind: LeadIn) -> u16
    ensures { result ≡ mfm_around kind }
{
    u16::from(kind.mfm_zeros()) + REST_OF_SECTOR
}

/// A sector: header, gap, data, gap.
pub(crate) const SECTOR: [Row; 8] = [
    Row::HeaderZeros,
    Row::Run(3, Symbol::SyncMark),
    Row::Address,
    Row::Run(22, GAP),
    Row::Run(12, ZERO),
    Row::Run(3, Symbol::SyncMark),
    Row::Content,
    Row::SectorGap,
];

/// After the last sector: a gap.
pub(crate) const LEAD_OUT: [Row; 1] = [Row::TrackGap];

/// A mark A1, by its cells.
pub(crate) const MARK_CELLS: u8 = 16;

/// Where the third mark stands, in cells from the first one's begin.
pub(crate) const THIRD_MARK_PLACE: usize = 32;

/// Three marks, a byte, four bytes of address and the check value, 16 cells each.
pub(crate) const HEADER_CELLS: usize = 160;

/// Where the first byte stands after three marks, in cells from their begin.
pub(crate) const FIRST_BYTE_PLACE: usize = 48;

/// Where the address and its check value begin, in cells from the header's begin.
pub(crate) const ADDRESS_PLACE: usize = 64;

pub(crate) const ADDRESS_CHECK_PLACE: usize = 128;

/// The cells of data: three marks, a byte, so many bytes and their check value.
pub(crate) fn data_cells(size: u16) -> usize
    ensures { result ≡ 16 * (size + 6) }
{
    16 * (usize::from(size) + 6)
}

/// Where the bytes begin, in cells from the data's sync.
pub(crate) const CONTENT_PLACE: usize = 64;

/// Where the check value of so many bytes begins, in cells from the data's sync.
pub(crate) fn content_check_place(size: u16) -> usize
    ensures { result ≡ 16 * (size + 4) }
{
    16 * (usize::from(size) + 4)
}

/// The register of a check value after three marks: that of the bytes A1 A1 A1, from FFFF.
pub(crate) const CHECK_START: u16 = 0xCDB4;
