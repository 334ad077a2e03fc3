ghost use Rattle.std.specs.Prelude.{◌≡◌, ℕ, ◌+◌, false, refl, Some};
ghost use Rattle.std.proofs.Common.{arith, inl, inr, lit≤};
ghost use Rattle.frame_law.specs.lemmas.OwnFrames.{fixed_ends};
ghost use Rattle.apple_nibbles.specs.Marks.{IsSync};
ghost use Rattle.macintosh_gcr.specs.lemmas.FrameLaws.{frame_stands};
ghost use Rattle.macintosh_gcr.specs.Layout.{format_of, row_cells, row_size, rows};
ghost use Rattle.macintosh_gcr.specs.lemmas.OwnLaws.{named_sector, one_content, one_name, sizes, tells, within_reach};
ghost use Rattle.macintosh_gcr.specs.lemmas.RowLaws.{row_follows, row_length};
ghost use Rattle.macintosh_gcr.specs.Sectors.{Hold, IsMacintoshTrack, IsNameOf, Names, NamesSector, sectors_of};
ghost use Rattle.macintosh_gcr.specs.Sectors.{zone_of};
ghost use Rattle.macintosh_gcr.specs.lemmas.Syncs.{own_data, own_syncs};
ghost use Rattle.apple_nibbles.specs.lemmas.FieldSyncs.{mark_syncs};
ghost use Rattle.macintosh_gcr.specs.lemmas.ZoneLaws.{counts, sums};

use crate::data_field::read_field;
use crate::header::{header_name, sector_named};
use crate::layout::{
    DATA_CELLS, FIRST_SECTOR, HEADER_CELLS, LEAD_IN, LEAD_OUT, Row, SECTOR, SECTOR_SIZE,
};
use crate::rows::push_row;
use apple_nibbles::{CODING, next_sync};
use cell_bits::Cells;
use disk_zones::macintosh_zone;
use flux_base::{HeaderName, Memory, TrackId};
use frame_law::{CellsFrom, Coding, Layout, SectorBuffer, SectorBytes};

/// The recording of the Macintosh's disks of 400 and 800 KB. Its tracks are the cylinders 0 to 79. Its sectors are
/// numbered from 0, as their headers name them, and are written in this order.
#[derive(Clone, Copy, Debug, PartialEq, Eq)]
pub enum MacintoshGcr {
    /// The disk of one head, 400 KB.
    SingleSided,
    /// The disk of two heads, 800 KB.
    DoubleSided,
}

impl MacintoshGcr {
    /// The format that its headers name. Any is read.
    pub(crate) fn format(self) -> u8
        ensures { result ≡ format_of self }
    {
        match self {
            MacintoshGcr::SingleSided => 0x02,
            MacintoshGcr::DoubleSided => 0x22,
        }
    }
}

impl Layout for MacintoshGcr {
    type Row = Row;

    const CODING: Coding = CODING;

    ghost CODING = { record { shortest = 1; longest = 3; sync = 0xD5AA96; sync_cells = 24 } };

    ghost has_track = { λ r track. IsMacintoshTrack r track };

    ghost lowest_sector = { λ r. 0 };

    ghost sector_count = { λ r track. sectors_of track };

    ghost sector_bytes = { λ r. 512 };

    ghost track_cells = { λ r track. (zone_of track).ring_cells };

    ghost names_sector = { λ r track cells s. NamesSector track cells s };

    ghost names = { λ r cells name. Names cells name };

    ghost is_name_of = { λ r track name s. IsNameOf track name s };

    ghost is_sync = { λ r cells place. IsSync cells place };

    ghost size_named = { λ r name. Some 512 };

    ghost hold = { λ r size cells sync bytes. Hold cells sync bytes };

    ghost data_cells = { λ r. 5656 };

    ghost header_cells = { 64 };

    ghost header_end = { λ r cells. 64 };

    ghost data_end = { λ r size cells sync. sync + 5656 };

    ghost data_place = { λ r. 148 };

    ghost rows = { λ r track. rows };

    ghost asks = { false };

    ghost row_cells = { λ r track before s bytes row. row_cells r track before s bytes row };

    ghost row_size = { λ r track count row. row_size (zone_of track) count row };

    ghost last_zeros = { 2 };

    fn lowest_sector(&self) -> u8 {
        FIRST_SECTOR
    }

    fn sector_count(&self, track: TrackId) -> u8 {
        macintosh_zone(track.cylinder).sectors
    }

    fn sector_bytes(&self) -> u16 {
        SECTOR_SIZE
    }

    fn size_named(&self, _name: HeaderName) -> Option<u16> {
        Some(SECTOR_SIZE)
    }

    fn track_cells(&self, track: TrackId) -> u32 {
        macintosh_zone(track.cylinder).ring_cells
    }

    fn lead_in(&self, _track: TrackId) -> &[Row] {
        &LEAD_IN
    }

    fn sector_rows(&self, _track: TrackId) -> &[Row] {
        &SECTOR
    }

    fn lead_out(&self, _track: TrackId) -> &[Row] {
        &LEAD_OUT
    }

    fn append_row(&self, of: &SectorBytes, row: Row, cells: &mut Cells) -> Result<(), Memory> {
        push_row(cells, row, *self, of.track, of.sector, of.bytes)
    }

    fn header_end(&self, frame: &CellsFrom) -> Option<usize> {
        frame.end_within(HEADER_CELLS)
    }

    fn read_name(&self, frame: &CellsFrom) -> Option<HeaderName> {
        header_name(frame)
    }

    fn sector_named(&self, track: TrackId, name: HeaderName) -> Option<u8> {
        sector_named(track, name)
    }

    fn next_sync(&self, frame: &CellsFrom, from: usize, to: usize) -> Option<usize> {
        next_sync(frame, from, to)
    }

    fn data_end(&self, _size: u16, frame: &CellsFrom, sync: usize) -> Option<usize> {
        frame.end_within(sync + DATA_CELLS)
    }

    fn read_data(
        &self,
        _size: u16,
        frame: &CellsFrom,
        sync: usize,
        buffer: &mut SectorBuffer,
    ) -> bool {
        read_field(frame, sync, buffer)
    }

    fn has_content(&self, _size: u16, frame: &CellsFrom, sync: usize) -> bool {
        let mut buffer = SectorBuffer::new();
        read_field(frame, sync, &mut buffer)
    }

    ghost sizes = { sizes };

    ghost counts = { λ r track known. counts track };

    ghost reach = { λ r. within_reach };

    ghost sums = { λ r track known. sums track };

    ghost row_length = { λ r track before s bytes row. row_length r track before s bytes row };

    ghost row_follows = { λ r track s bytes row known content. row_follows r track s bytes row known content };

    ghost ends = { λ r track before known. refl };

    ghost named_sector = { λ r track. named_sector track };

    ghost own_size = { λ r track name s is. refl };

    ghost data_some = { λ r size cells sync. Prim.omega arith };

    ghost one_name = { λ r cells n m first second. one_name cells n m first second };

    ghost one_content = { λ r cells sync xs ys first second. one_content cells sync xs ys first second };

    ghost content_size = { λ r cells sync xs held. held.size };

    ghost frame_stands = { λ r track s bytes before rest known number fit long.
        frame_stands r track s bytes before rest known number fit long };

    ghost frame_ends = { λ r track s bytes before rest known number fit long.
        record { header_ends = refl; data_ends = refl } };

    ghost tells_ends = { λ r. fixed_ends 64 5656 (lit≤ tt) (lit≤ tt) };

    ghost tells = { λ r. tells };

    ghost own_syncs = { λ r track known. own_syncs r track known };

    ghost header_syncs = { λ r. inl (λ cells place name stands named. mark_syncs cells place stands) };

    ghost own_data = { λ r track known. inr (own_data r track known) };
}
