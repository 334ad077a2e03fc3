ghost use Rattle.std.specs.Prelude.{◌≡◌, ◌*◌, ◌+◌, ◌-◌};
ghost use Rattle.ibm_disks.specs.Numbers.{FillFmTrack};
ghost use Rattle.ibm_fm.specs.Layout.{lead_in_rows, track_gap_of, word_of};

use cell_bits::{FM_DATA_MARK, FM_ID_MARK, FM_INDEX_MARK};
use frame_law::Coding;
use ibm_disks::{LeadIn, TrackNumbers};

/// A row of a track.
#[derive(Clone, Copy)]
pub enum Row {
    /// So many times the same byte.
    Run(u8, u8),
    Mark(Mark),
    /// A sector's address and its check value.
    Address,
    /// A sector's bytes and their check value.
    Content,
    /// The gap after a sector, as long as the track has it.
    SectorGap,
    /// The gap after the last sector, which fills the track.
    TrackGap,
}

/// An address mark that is written.
#[derive(Clone, Copy)]
pub enum Mark {
    Index,
    Id,
    Data,
}

impl Mark {
    /// The mark by its cells.
    pub(crate) fn word(self) -> u32
        ensures { result ≡ word_of self }
    {
        match self {
            Mark::Index => FM_INDEX_MARK,
            Mark::Id => FM_ID_MARK,
            Mark::Data => FM_DATA_MARK,
        }
    }
}

/// The byte of the gaps.
pub(crate) const GAP: u8 = 0xFF;

/// Before the first sector: a gap with the index mark.
const INDEXED_LEAD_IN: [Row; 4] = [
    Row::Run(40, GAP),
    Row::Run(6, 0x00),
    Row::Mark(Mark::Index),
    Row::Run(26, GAP),
];

/// Before the first sector: a gap alone.
const BARE_LEAD_IN: [Row; 1] = [Row::Run(16, GAP)];

/// The rows before the first sector.
pub(crate) fn lead_in(kind: LeadIn) -> &'static [Row]
    ensures { result.now ≡ lead_in_rows kind }
{
    match kind {
        LeadIn::Indexed => &INDEXED_LEAD_IN,
        LeadIn::Bare => &BARE_LEAD_IN,
    }
}

/// What a sector has around its bytes, but for the gap after it: six zeros, seven bytes of the header, eleven of a
/// gap, six zeros, and three of the data.
pub(crate) const AROUND: u16 = 33;

/// The bytes of the gap after the last sector.
pub(crate) fn track_gap(numbers: TrackNumbers) -> u16
    requires { FillFmTrack numbers }
    ensures { result ≡ track_gap_of numbers }
{
    numbers.track_gap(numbers.lead_in.fm_before(), AROUND)
}

/// A sector: header, gap, data, gap.
pub(crate) const SECTOR: [Row; 8] = [
    Row::Run(6, 0x00),
    Row::Mark(Mark::Id),
    Row::Address,
    Row::Run(11, GAP),
    Row::Run(6, 0x00),
    Row::Mark(Mark::Data),
    Row::Content,
    Row::SectorGap,
];

/// After the last sector: a gap.
pub(crate) const LEAD_OUT: [Row; 1] = [Row::TrackGap];

/// A mark is a word of so many cells.
pub(crate) const MARK_CELLS: u8 = 16;

/// Headers begin with their mark.
pub(crate) const CODING: Coding = Coding {
    shortest: 1,
    longest: 2,
    sync: FM_ID_MARK,
    sync_cells: MARK_CELLS,
};

/// The ID mark, four bytes of address and the check value, 16 cells a byte.
pub(crate) const HEADER_CELLS: usize = 112;

/// Where the address and its check value begin, in cells from the header's begin.
pub(crate) const ADDRESS_PLACE: usize = 16;

pub(crate) const ADDRESS_CHECK_PLACE: usize = 80;

/// The cells of data: their mark, so many bytes and their check value.
pub(crate) fn data_cells(size: u16) -> usize
    ensures { result ≡ 16 * (size + 3) }
{
    16 * (usize::from(size) + 3)
}

/// Where the bytes begin, in cells from the data's mark.
pub(crate) const CONTENT_PLACE: usize = 16;

/// Where the check value of so many bytes begins, in cells from the data's mark.
pub(crate) fn content_check_place(size: u16) -> usize
    ensures { result ≡ 16 * (size + 1) }
{
    16 * (usize::from(size) + 1)
}
