ghost use Rattle.std.specs.Prelude.{◌≡◌};
ghost use Rattle.apple_gcr.specs.Layout.{word_of};

use apple_nibbles::{ADDRESS_MARK, DATA_MARK};

/// A row of a track.
#[derive(Clone, Copy)]
pub enum Row {
    /// So many self-syncs.
    SelfSyncs(u8),
    Mark(Mark),
    /// Volume, track, sector and their check value.
    Address,
    /// A sector's bytes and their check value.
    Content,
}

/// Three bytes before a field or after it.
#[derive(Clone, Copy)]
pub enum Mark {
    /// Opens an address field.
    AddressField,
    /// Opens a data field.
    DataField,
    /// Closes both.
    Epilogue,
}

impl Mark {
    /// The mark by its cells.
    pub(crate) fn word(self) -> u32
        ensures { result ≡ word_of self }
    {
        match self {
            Mark::AddressField => ADDRESS_MARK,
            Mark::DataField => DATA_MARK,
            Mark::Epilogue => EPILOGUE,
        }
    }
}

/// DE AA EB, which closes both.
const EPILOGUE: u32 = 0xDE_AAEB;

/// Before the first sector.
pub(crate) const LEAD_IN: [Row; 1] = [Row::SelfSyncs(33)];

/// A sector: address field, gap, data field, gap.
pub(crate) const SECTOR: [Row; 8] = [
    Row::Mark(Mark::AddressField),
    Row::Address,
    Row::Mark(Mark::Epilogue),
    Row::SelfSyncs(6),
    Row::Mark(Mark::DataField),
    Row::Content,
    Row::Mark(Mark::Epilogue),
    Row::SelfSyncs(14),
];

/// After the last sector: nothing.
pub(crate) const LEAD_OUT: [Row; 0] = [];

/// Sectors are numbered from 0 in the order in which they pass.
pub(crate) const FIRST_SECTOR: u8 = 0;

/// The sectors of a track.
pub(crate) const SECTORS: u8 = 16;

/// The bytes of a sector.
pub(crate) const SECTOR_SIZE: u16 = 256;

/// The volume that is written. Any is read.
pub(crate) const VOLUME: u8 = 254;

/// The cells of a track.
pub(crate) const RING_CELLS: u32 = 49994;

/// The bytes of a header after its mark: volume, track, sector and check value, of two halves each.
pub(crate) const ADDRESS_BYTES: usize = 8;

/// Where they are read from, in cells from the header's begin.
pub(crate) const ADDRESS_PLACE: usize = 24;

/// The nibbles of a data field, after its mark.
pub(crate) const NIBBLES: usize = 343;
