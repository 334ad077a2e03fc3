ghost use Rattle.std.specs.Prelude.{◌≡◌, ℕ, ◌+◌, false, refl, Some};
ghost use Rattle.std.proofs.Common.{arith, inl, inr, lit≤};
ghost use Rattle.flux_base.specs.declared.header_name.HeaderName.TheVariants.{TrackSector};
ghost use Rattle.commodore_gcr.specs.lemmas.DataSyncs.{own_data};
ghost use Rattle.frame_law.specs.lemmas.OwnFrames.{fixed_ends};
ghost use Rattle.commodore_gcr.specs.lemmas.FrameLaws.{frame_stands};
ghost use Rattle.commodore_gcr.specs.Layout.{ring_cells_of, row_cells, row_size, rows};
ghost use Rattle.commodore_gcr.specs.lemmas.OwnLaws.{named_sector, one_content, one_name, sizes, tells, within_reach};
ghost use Rattle.commodore_gcr.specs.lemmas.RowLaws.{row_follows, row_length};
ghost use Rattle.commodore_gcr.specs.Sectors.{Hold, IsSync, Names, NamesSector};
ghost use Rattle.commodore_gcr.specs.lemmas.Syncs.{own_syncs};
ghost use Rattle.commodore_gcr.specs.lemmas.ZoneLaws.{counts, sums};
ghost use Rattle.commodore_gcr.specs.Zones.{IsCommodoreTrack, sectors_of, track_number as number_of_track};
ghost use Rattle.commodore_gcr.specs.Zones.{zone_of as zone_of_track};

use crate::data_block::{next_sync, read_block};
use crate::drive::CommodoreDrive;
use crate::header_block::header_name;
use crate::layout::{
    CODING, DATA_CELLS, HEADER_CELLS, LEAD_IN, LEAD_OUT, Row, SECTOR, SECTOR_SIZE,
};
use crate::rows::push_row;
use crate::zones::{track_number, zone_of};
use cell_bits::Cells;
use flux_base::{HeaderName, Memory, TrackId};
use frame_law::{CellsFrom, Coding, Layout, SectorBuffer, SectorBytes};

/// The recording of the disks of Commodore's drives. The tracks of a 1541's or 1571's are the cylinders 0 to 39 with
/// the heads 0 and 1, of which a 1541's disk has 35 or 40 with head 0, and a 1571's 35 with both; an 8050's has 77 with
/// head 0, and an 8250's with both. Headers number them from 1, and those of head 1 from 36 or from 78. Sectors are
/// numbered from 0.
///
/// Each header has the two bytes of the disk's id. They are written, and are not looked at when a sector is
/// read but through the header's check value: what stands is the same for all ids.
#[derive(Clone, Copy, Debug, PartialEq, Eq)]
pub struct CommodoreGcr {
    /// The kind of the drive.
    pub drive: CommodoreDrive,
    /// The first character of the id.
    pub id1: u8,
    /// The second character of the id.
    pub id2: u8,
}

impl Layout for CommodoreGcr {
    type Row = Row;

    const CODING: Coding = CODING;

    ghost CODING = { record { shortest = 1; longest = 3; sync = 0x7FE; sync_cells = 11 } };

    ghost has_track = { λ r track. IsCommodoreTrack r.drive track };

    ghost lowest_sector = { λ r. 0 };

    ghost sector_count = { λ r track. sectors_of r.drive track };

    ghost sector_bytes = { λ r. 256 };

    ghost track_cells = { λ r track. ring_cells_of r.drive track };

    ghost names_sector = { λ r track cells s. NamesSector r.drive track cells s };

    ghost names = { λ r cells name. Names cells name };

    ghost is_name_of = { λ r track name s. name ≡ TrackSector (number_of_track r.drive track) s };

    ghost is_sync = { λ r cells place. IsSync cells place };

    ghost size_named = { λ r name. Some 256 };

    ghost hold = { λ r size cells sync bytes. Hold cells sync bytes };

    ghost data_cells = { λ r. 2590 };

    ghost header_cells = { 70 };

    ghost header_end = { λ r cells. 70 };

    ghost data_end = { λ r size cells sync. sync + 2590 };

    ghost data_place = { λ r. 192 };

    ghost rows = { λ r track. rows };

    ghost asks = { false };

    ghost row_cells = { λ r track before s bytes row. row_cells r track before s bytes row };

    ghost row_size = { λ r track count row. row_size (zone_of_track r.drive track) count row };

    ghost last_zeros = { 1 };

    fn lowest_sector(&self) -> u8 {
        0
    }

    fn sector_count(&self, track: TrackId) -> u8 {
        zone_of(self.drive, track).sectors
    }

    fn sector_bytes(&self) -> u16 {
        SECTOR_SIZE
    }

    fn size_named(&self, _name: HeaderName) -> Option<u16> {
        Some(SECTOR_SIZE)
    }

    fn track_cells(&self, track: TrackId) -> u32 {
        zone_of(self.drive, track).ring_cells
    }

    fn lead_in(&self, _track: TrackId) -> &[Row] {
        &LEAD_IN
    }

    fn sector_rows(&self, _track: TrackId) -> &[Row] {
        &SECTOR
    }

    fn lead_out(&self, _track: TrackId) -> &[Row] {
        &LEAD_OUT
    }

    fn append_row(&self, of: &SectorBytes, row: Row, cells: &mut Cells) -> Result<(), Memory> {
        push_row(cells, row, *self, of.track, of.sector, of.bytes)
    }

    fn header_end(&self, frame: &CellsFrom) -> Option<usize> {
        frame.end_within(HEADER_CELLS)
    }

    fn read_name(&self, frame: &CellsFrom) -> Option<HeaderName> {
        header_name(frame)
    }

    fn sector_named(&self, track: TrackId, name: HeaderName) -> Option<u8> {
        name.sector_of_track(track_number(self.drive, track))
    }

    fn next_sync(&self, frame: &CellsFrom, from: usize, to: usize) -> Option<usize> {
        next_sync(frame, from, to)
    }

    fn data_end(&self, _size: u16, frame: &CellsFrom, sync: usize) -> Option<usize> {
        frame.end_within(sync + DATA_CELLS)
    }

    fn read_data(
        &self,
        _size: u16,
        frame: &CellsFrom,
        sync: usize,
        buffer: &mut SectorBuffer,
    ) -> bool {
        read_block(frame, sync, buffer)
    }

    fn has_content(&self, _size: u16, frame: &CellsFrom, sync: usize) -> bool {
        let mut buffer = SectorBuffer::new();
        read_block(frame, sync, &mut buffer)
    }

    ghost sizes = { sizes };

    ghost counts = { λ r track known. counts r.drive track };

    ghost reach = { λ r. within_reach };

    ghost sums = { λ r track known. sums r.drive track };

    ghost row_length = { λ r track before s bytes row. row_length r track before s bytes row };

    ghost row_follows = { λ r track s bytes row known content. row_follows r track s bytes row };

    ghost ends = { λ r track before known. refl };

    ghost named_sector = { λ r track. named_sector r.drive track };

    ghost own_size = { λ r track name s is. refl };

    ghost data_some = { λ r size cells sync. Prim.omega arith };

    ghost one_name = { λ r cells n m first second. one_name cells n m first second };

    ghost one_content = { λ r cells sync xs ys first second. one_content cells sync xs ys first second };

    ghost content_size = { λ r cells sync xs held. held.size };

    ghost frame_stands = { λ r track s bytes before rest known number fit long.
        frame_stands r track s bytes before rest known number fit long };

    ghost frame_ends = { λ r track s bytes before rest known number fit long.
        record { header_ends = refl; data_ends = refl } };

    ghost tells_ends = { λ r. fixed_ends 70 2590 (lit≤ tt) (lit≤ tt) };

    ghost tells = { λ r. tells };

    ghost own_syncs = { λ r track known. own_syncs r track };

    ghost header_syncs = { λ r. inl (λ cells place name stands named. stands) };

    ghost own_data = { λ r track known. inr (own_data r track) };
}
