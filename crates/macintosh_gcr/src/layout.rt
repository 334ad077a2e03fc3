ghost use Rattle.std.specs.Prelude.{◌≡◌};
ghost use Rattle.macintosh_gcr.specs.Layout.{word_of};

use apple_nibbles::{ADDRESS_MARK, DATA_MARK};

/// A row of a track.
#[derive(Clone, Copy)]
pub enum Row {
    /// So many self-syncs.
    SelfSyncs(u8),
    Mark(Mark),
    /// The sector's name and its check value.
    Header,
    /// The sector's number, its bytes with tags before them, and their check values.
    Content,
    /// Self-syncs to the ring's end, as many as the zone has room for.
    ZoneGap,
}

/// Three bytes before a field or after it.
#[derive(Clone, Copy)]
pub enum Mark {
    /// Opens a header.
    AddressField,
    /// Opens a data field.
    DataField,
    /// Closes both.
    Epilogue,
}

impl Mark {
    /// The mark by its cells.
    pub(crate) fn word(self) -> u32
        ensures { result ≡ word_of self }
    {
        match self {
            Mark::AddressField => ADDRESS_MARK,
            Mark::DataField => DATA_MARK,
            Mark::Epilogue => EPILOGUE,
        }
    }
}

/// DE AA FF, which closes a field.
const EPILOGUE: u32 = 0xDE_AAFF;

/// Before the first sector: nothing.
pub(crate) const LEAD_IN: [Row; 0] = [];

/// A sector: self-syncs, header, gap, data field.
pub(crate) const SECTOR: [Row; 8] = [
    Row::SelfSyncs(16),
    Row::Mark(Mark::AddressField),
    Row::Header,
    Row::Mark(Mark::Epilogue),
    Row::SelfSyncs(6),
    Row::Mark(Mark::DataField),
    Row::Content,
    Row::Mark(Mark::Epilogue),
];

/// After the last sector self-syncs to the ring's end.
pub(crate) const LEAD_OUT: [Row; 1] = [Row::ZoneGap];

/// The cells from one sector to the next.
pub(crate) const SECTOR_CELLS: u32 = 5988;

/// The cells of a self-sync.
pub(crate) const SELF_SYNC_CELLS: u32 = 10;

/// Sectors are numbered from 0 in the order in which they pass.
pub(crate) const FIRST_SECTOR: u8 = 0;

/// The bytes of a sector.
pub(crate) const SECTOR_SIZE: u16 = 512;

/// The cells of a header: its mark and five nibbles.
pub(crate) const HEADER_CELLS: usize = 64;

/// Where a header's values are read from, in cells from its begin.
pub(crate) const NAME_PLACE: usize = 24;

/// Where the nibble of the sector's number stands in a header.
pub(crate) const SECTOR_PLACE: usize = 32;

/// The cells of data: their mark, the sector's nibble, 699 of bytes and four of check values.
pub(crate) const DATA_CELLS: usize = 5656;

/// Where the nibble of the sector's number stands in data, in cells from the data sync.
pub(crate) const DATA_SECTOR_PLACE: usize = 24;

/// Where the values of the bytes are read from, in cells from the data sync.
pub(crate) const VALUES_PLACE: usize = 32;
