ghost use Rattle.std.specs.Prelude.{◌≡◌, ℕ, ◌+◌, false, refl, Some};
ghost use Rattle.std.proofs.Common.{arith, inl, inr, lit≤};
ghost use Rattle.flux_base.specs.declared.header_name.HeaderName.TheVariants.{TrackSector};
ghost use Rattle.apple_gcr.specs.lemmas.DataSyncs.{own_data};
ghost use Rattle.apple_gcr.specs.lemmas.FrameLaws.{frame_ends, frame_stands};
ghost use Rattle.apple_gcr.specs.Layout.{row_cells, row_size, rows};
ghost use Rattle.apple_gcr.specs.lemmas.RowLaws.{row_follows, row_length};
ghost use Rattle.apple_gcr.specs.DiskBytes.{zeros_passed};
ghost use Rattle.apple_gcr.specs.Sectors.{Hold, IsAppleTrack, Names, NamesSector, data_end, header_end};
ghost use Rattle.apple_nibbles.specs.Marks.{IsSync};
ghost use Rattle.apple_gcr.specs.lemmas.ByteLaws.{zeros-few};
ghost use Rattle.apple_gcr.specs.lemmas.StandLaws.{named_sector, one_content, one_name, sizes, sums, tells, tells_ends};
ghost use Rattle.apple_gcr.specs.lemmas.StandLaws.{within_reach};
ghost use Rattle.apple_gcr.specs.lemmas.Syncs.{own_syncs};
ghost use Rattle.apple_nibbles.specs.lemmas.FieldSyncs.{mark_syncs};

use crate::data_field::{data_end, read_field};
use crate::disk_bytes::ByteRule;
use crate::header::{header_end, header_name};
use crate::layout::{
    FIRST_SECTOR, LEAD_IN, LEAD_OUT, RING_CELLS, Row, SECTOR, SECTOR_SIZE, SECTORS,
};
use crate::rows::push_row;
use apple_nibbles::{CODING, next_sync};
use cell_bits::Cells;
use flux_base::{HeaderName, Memory, TrackId};
use frame_law::{CellsFrom, Coding, Layout, SectorBuffer, SectorBytes};

/// The recording of Apple DOS 3.3 and ProDOS disks. Its tracks are the cylinders 0 to 34 with head 0. Its sectors
/// are numbered 0 to 15 as their headers name them, which is the order in which they pass.
#[derive(Clone, Copy, Debug, PartialEq, Eq)]
pub struct AppleGcr {
    /// By which rule it is read. It is written in one way.
    pub rule: ByteRule,
}

impl AppleGcr {
    /// Read exactly to the cell.
    pub const STRICT: AppleGcr = AppleGcr {
        rule: ByteRule::Strict,
    };
    /// Read as Apple's controller does.
    pub const CONTROLLER: AppleGcr = AppleGcr {
        rule: ByteRule::Controller,
    };
}

impl Layout for AppleGcr {
    type Row = Row;

    const CODING: Coding = CODING;

    ghost CODING = { record { shortest = 1; longest = 3; sync = 0xD5AA96; sync_cells = 24 } };

    ghost has_track = { λ r track. IsAppleTrack track };

    ghost lowest_sector = { λ r. 0 };

    ghost sector_count = { λ r track. 16 };

    ghost sector_bytes = { λ r. 256 };

    ghost track_cells = { λ r track. 49994 };

    ghost names_sector = { λ r track cells s. NamesSector (zeros_passed r.rule) track cells s };

    ghost names = { λ r cells name. Names (zeros_passed r.rule) cells name };

    ghost is_name_of = { λ r track name s. name ≡ TrackSector track.cylinder s };

    ghost is_sync = { λ r cells place. IsSync cells place };

    ghost size_named = { λ r name. Some 256 };

    ghost hold = { λ r size cells sync bytes. Hold (zeros_passed r.rule) cells sync bytes };

    ghost data_cells = { λ r. 2768 };

    ghost header_cells = { 88 };

    ghost header_end = { λ r cells. header_end (zeros_passed r.rule) cells };

    ghost data_end = { λ r size cells sync. data_end (zeros_passed r.rule) cells sync };

    ghost data_place = { λ r. 172 };

    ghost rows = { λ r track. rows };

    ghost asks = { false };

    ghost row_cells = { λ r track before s bytes row. row_cells track before s bytes row };

    ghost row_size = { λ r track count row. row_size count row };

    ghost last_zeros = { 2 };

    fn lowest_sector(&self) -> u8 {
        FIRST_SECTOR
    }

    fn sector_count(&self, _track: TrackId) -> u8 {
        SECTORS
    }

    fn sector_bytes(&self) -> u16 {
        SECTOR_SIZE
    }

    fn size_named(&self, _name: HeaderName) -> Option<u16> {
        Some(SECTOR_SIZE)
    }

    fn track_cells(&self, _track: TrackId) -> u32 {
        RING_CELLS
    }

    fn lead_in(&self, _track: TrackId) -> &[Row] {
        &LEAD_IN
    }

    fn sector_rows(&self, _track: TrackId) -> &[Row] {
        &SECTOR
    }

    fn lead_out(&self, _track: TrackId) -> &[Row] {
        &LEAD_OUT
    }

    fn append_row(&self, of: &SectorBytes, row: Row, cells: &mut Cells) -> Result<(), Memory> {
        push_row(cells, row, of.track, of.sector, of.bytes)
    }

    fn header_end(&self, frame: &CellsFrom) -> Option<usize> {
        header_end(self.rule, frame)
    }

    fn read_name(&self, frame: &CellsFrom) -> Option<HeaderName> {
        header_name(self.rule, frame)
    }

    fn sector_named(&self, track: TrackId, name: HeaderName) -> Option<u8> {
        name.sector_of_track(track.cylinder)
    }

    fn next_sync(&self, frame: &CellsFrom, from: usize, to: usize) -> Option<usize> {
        next_sync(frame, from, to)
    }

    fn data_end(&self, _size: u16, frame: &CellsFrom, sync: usize) -> Option<usize> {
        data_end(self.rule, frame, sync)
    }

    fn read_data(
        &self,
        _size: u16,
        frame: &CellsFrom,
        sync: usize,
        buffer: &mut SectorBuffer,
    ) -> bool {
        read_field(self.rule, frame, sync, buffer)
    }

    fn has_content(&self, _size: u16, frame: &CellsFrom, sync: usize) -> bool {
        let mut buffer = SectorBuffer::new();
        read_field(self.rule, frame, sync, &mut buffer)
    }

    ghost sizes = { sizes };

    ghost counts = { λ r track known. (lit≤ tt, lit≤ tt, lit≤ tt) };

    ghost reach = { λ r. within_reach };

    ghost sums = { λ r track known. (sums.0, sums.1, lit≤ tt) };

    ghost row_length = { λ r track before s bytes row. row_length track before s bytes row };

    ghost row_follows = { λ r track s bytes row known content.
        row_follows track s bytes row known content };

    ghost ends = { λ r track before known. refl };

    ghost named_sector = { λ r track. named_sector (zeros_passed r.rule) track };

    ghost own_size = { λ r track name s is. refl };

    ghost data_some = { λ r size cells sync.
        Prim.omega (arith, (tells_ends (zeros_passed r.rule) (zeros-few r.rule)).data_least cells sync) };

    ghost one_name = { λ r cells n m first second. one_name (zeros_passed r.rule) cells n m first second };

    ghost one_content = { λ r cells sync xs ys first second.
        one_content (zeros_passed r.rule) cells sync xs ys first second };

    ghost content_size = { λ r cells sync xs held. held.carried.size };

    ghost frame_stands = { λ r track s bytes before rest known number fit long.
        frame_stands (zeros_passed r.rule) track s bytes before rest known number fit long };

    ghost frame_ends = { λ r track s bytes before rest known number fit long.
        frame_ends (zeros_passed r.rule) track s bytes before rest known number fit long };

    ghost tells_ends = { λ r. tells_ends (zeros_passed r.rule) (zeros-few r.rule) };

    ghost tells = { λ r. tells (zeros_passed r.rule) (zeros-few r.rule) };

    ghost own_syncs = { λ r track known. own_syncs (zeros_passed r.rule) track known };

    ghost header_syncs = { λ r. inl (λ cells place name stands named. mark_syncs cells place stands) };

    ghost own_data = { λ r track known. inr (own_data (zeros_passed r.rule) (zeros-few r.rule) track known) };
}
