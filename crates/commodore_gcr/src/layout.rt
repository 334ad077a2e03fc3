use frame_law::Coding;

/// A row of a track.
#[derive(Clone, Copy)]
pub enum Row {
    /// The first 30 ones of a sync mark.
    SyncLead,
    /// Its last ten ones, with which a header and data begin.
    SyncOnes,
    /// A sector's header block.
    HeaderBlock,
    /// The gap after it.
    HeaderGap,
    /// What a data block holds: its first byte, a sector's bytes, and their check value.
    DataBytes,
    /// The two bytes that fill the data block up.
    DataFill,
    /// The gap after a sector, as long as its zone has it.
    ZoneGap,
}

/// Before the first sector: nothing.
pub(crate) const LEAD_IN: [Row; 0] = [];

/// A sector: sync mark, header block, gap, sync mark, data block, gap.
pub(crate) const SECTOR: [Row; 9] = [
    Row::SyncLead,
    Row::SyncOnes,
    Row::HeaderBlock,
    Row::HeaderGap,
    Row::SyncLead,
    Row::SyncOnes,
    Row::DataBytes,
    Row::DataFill,
    Row::ZoneGap,
];

/// After the last sector: nothing.
pub(crate) const LEAD_OUT: [Row; 0] = [];

/// The cells of a sector's rows but for those of the zone's gap.
pub(crate) const SECTOR_CELLS: u32 = 2832;

/// The bytes of the gap after a header block.
pub(crate) const HEADER_GAP: u8 = 9;

/// The byte of the gaps, whose bits are cells as they are.
pub(crate) const GAP_BYTE: u8 = 0x55;

/// Group code has at most two zeros after one another. Headers begin with the end of a sync mark: ten ones, and the
/// zero with which each block begins.
pub(crate) const CODING: Coding = Coding {
    shortest: 1,
    longest: 3,
    sync: 0b111_1111_1110,
    sync_cells: 11,
};

/// The ones of a sync: the block begins so many cells after its place.
pub(crate) const SYNC_ONES: usize = 10;

/// The cells of a byte in group code.
pub(crate) const BYTE_CELLS: u8 = 10;

/// The bytes of a sector.
pub(crate) const SECTOR_SIZE: u16 = 256;

/// The first byte of a header block.
pub(crate) const HEADER_BYTE: u8 = 0x08;

/// The byte with which a header block is filled up.
pub(crate) const HEADER_FILL: u8 = 0x0F;

/// The ten ones before a header block, and its first six bytes.
pub(crate) const HEADER_CELLS: usize = 70;

/// The first byte of a data block.
pub(crate) const DATA_BYTE: u8 = 0x07;

/// The byte with which a data block is filled up.
pub(crate) const DATA_FILL: u8 = 0x00;

/// The ten ones before a data block, its first byte, 256 bytes and their check value.
pub(crate) const DATA_CELLS: usize = 2590;

/// Where the bytes and their check value begin, in cells from the data's sync.
pub(crate) const CONTENT_PLACE: usize = 20;

pub(crate) const CONTENT_CHECK_PLACE: usize = 2580;
