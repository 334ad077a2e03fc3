ghost use Rattle.std.specs.Prelude.{◌≡◌, ℕ, ◌+◌, [], true, refl, Some};
ghost use Rattle.std.proofs.Common.{arith, inl, inr, lit<, lit≤, sym, ◌∙◌};
ghost use Rattle.flux_base.specs.declared.header_name.HeaderName.TheVariants.{TrackSector};
ghost use Rattle.mfm_coding.specs.lemmas.CodingLaws.{length-coded};
ghost use Rattle.mfm_coding.specs.lemmas.SymbolRows.{symbols-follow};
ghost use Rattle.frame_law.specs.lemmas.OwnFrames.{fixed_ends};
ghost use Rattle.amiga_mfm.specs.lemmas.FrameLaws.{frame_stands};
ghost use Rattle.amiga_mfm.specs.Disks.{IsAmigaTrack, disk_of as numbers_of};
ghost use Rattle.amiga_mfm.specs.Layout.{row_cells, row_size, row_symbols, rows};
ghost use Rattle.amiga_mfm.specs.lemmas.OwnLaws.{tells};
ghost use Rattle.amiga_mfm.specs.lemmas.DiskLaws.{counts, ends, sums};
ghost use Rattle.amiga_mfm.specs.lemmas.RowLaws.{bytes_held, named_sector, one_name, sizes, symbols_sized};
ghost use Rattle.amiga_mfm.specs.Sectors.{Hold, IsDataPlace, Names, NamesSector, track_number as number_of_track};
ghost use Rattle.amiga_mfm.specs.lemmas.Syncs.{own_syncs};

use crate::data_field::read_content;
use crate::header::{header_name, track_number};
use crate::layout::{
    CONTENT_CELLS, FIRST_SECTOR, HEADER_CELLS, LEAD_OUT, Row, SECTOR, SECTOR_SIZE, disk_of,
};
use crate::rows::push_row;
use cell_bits::Cells;
use flux_base::{HeaderName, Memory, TrackId};
use frame_law::{CellsFrom, Coding, Layout, SectorBuffer, SectorBytes};
use mfm_coding::CODING;

/// The recording of Amiga disks (Amiga trackdisk). Its tracks are the cylinders 0 to 79 with the heads 0 and
/// 1; sectors are numbered from 0.
#[derive(Clone, Copy, Debug, PartialEq, Eq)]
pub enum AmigaMfm {
    /// Double density: 11 sectors on a track.
    DoubleDensity,
    /// High density: 22 sectors on a track.
    HighDensity,
}

impl Layout for AmigaMfm {
    type Row = Row;

    const CODING: Coding = CODING;

    ghost CODING = { record { shortest = 2; longest = 4; sync = 0x44894489; sync_cells = 32 } };

    ghost has_track = { λ r track. IsAmigaTrack track };

    ghost lowest_sector = { λ r. 0 };

    ghost sector_count = { λ r track. (numbers_of r).sectors };

    ghost sector_bytes = { λ r. 512 };

    ghost track_cells = { λ r track. (numbers_of r).cells };

    ghost names_sector = { λ r track cells s. NamesSector track cells s };

    ghost names = { λ r cells name. Names cells name };

    ghost is_name_of = { λ r track name s. name ≡ TrackSector (number_of_track track) s };

    ghost is_sync = { λ r cells place. IsDataPlace cells place };

    ghost size_named = { λ r name. Some 512 };

    ghost hold = { λ r size cells place bytes. Hold cells place bytes };

    ghost data_cells = { λ r. 8192 };

    ghost header_cells = { 480 };

    ghost header_end = { λ r cells. 480 };

    ghost data_end = { λ r size cells sync. sync + 8192 };

    ghost data_place = { λ r. 480 };

    ghost rows = { λ r track. rows };

    ghost asks = { true };

    ghost row_cells = { λ r track before s bytes row. row_cells (numbers_of r) track before s bytes row };

    ghost row_size = { λ r track count row. row_size (numbers_of r) count row };

    ghost last_zeros = { 2 };

    fn lowest_sector(&self) -> u8 {
        FIRST_SECTOR
    }

    fn sector_count(&self, _track: TrackId) -> u8 {
        disk_of(*self).sectors
    }

    fn sector_bytes(&self) -> u16 {
        SECTOR_SIZE
    }

    fn size_named(&self, _name: HeaderName) -> Option<u16> {
        Some(SECTOR_SIZE)
    }

    fn track_cells(&self, _track: TrackId) -> u32 {
        disk_of(*self).cells
    }

    fn lead_in(&self, _track: TrackId) -> &[Row] {
        &[]
    }

    fn sector_rows(&self, _track: TrackId) -> &[Row] {
        &SECTOR
    }

    fn lead_out(&self, _track: TrackId) -> &[Row] {
        &LEAD_OUT
    }

    fn append_row(&self, of: &SectorBytes, row: Row, cells: &mut Cells) -> Result<(), Memory> {
        push_row(cells, row, disk_of(*self), of.track, of.sector, of.bytes)
    }

    fn header_end(&self, frame: &CellsFrom) -> Option<usize> {
        frame.end_within(HEADER_CELLS)
    }

    fn read_name(&self, frame: &CellsFrom) -> Option<HeaderName> {
        header_name(frame)
    }

    fn sector_named(&self, track: TrackId, name: HeaderName) -> Option<u8> {
        name.sector_of_track(track_number(track))
    }

    fn next_sync(&self, _frame: &CellsFrom, from: usize, to: usize) -> Option<usize> {
        if HEADER_CELLS < from {
            return None;
        }
        if HEADER_CELLS >= to {
            return None;
        }
        Some(HEADER_CELLS)
    }

    fn data_end(&self, _size: u16, frame: &CellsFrom, sync: usize) -> Option<usize> {
        frame.end_within(sync + CONTENT_CELLS)
    }

    fn read_data(
        &self,
        _size: u16,
        frame: &CellsFrom,
        sync: usize,
        buffer: &mut SectorBuffer,
    ) -> bool {
        read_content(frame, sync, buffer)
    }

    fn has_content(&self, _size: u16, frame: &CellsFrom, sync: usize) -> bool {
        let mut buffer = SectorBuffer::new();
        read_content(frame, sync, &mut buffer)
    }

    ghost sizes = { sizes };

    ghost counts = { λ r track known. counts r };

    ghost reach = { λ r. record { after = lit≤ tt; near = lit< tt; few = lit≤ tt } };

    ghost sums = { λ r track known. sums r };

    ghost row_length = { λ r track before s bytes row.
        length-coded before (row_symbols (numbers_of r) track s bytes row)
        ∙ symbols_sized (numbers_of r) track s bytes row };

    ghost row_follows = { λ r track s bytes row known content.
        symbols-follow (row_symbols (numbers_of r) track s bytes row) };

    ghost ends = { λ r track before known. ends r track before };

    ghost named_sector = { λ r track. named_sector track };

    ghost own_size = { λ r track name s is. refl };

    ghost data_some = { λ r size cells sync. Prim.omega arith };

    ghost one_name = { λ r cells n m first second. one_name cells n m first second };

    ghost one_content = { λ r cells place xs ys first second. sym first.content ∙ second.content };

    ghost content_size = { λ r cells place xs held. bytes_held cells place xs held };

    ghost frame_stands = { λ r track s bytes before rest known number fit long.
        frame_stands r track s bytes before rest known number fit long };

    ghost frame_ends = { λ r track s bytes before rest known number fit long.
        record { header_ends = refl; data_ends = refl } };

    ghost tells_ends = { λ r. fixed_ends 480 8192 (lit≤ tt) (lit≤ tt) };

    ghost tells = { λ r. tells };

    ghost own_syncs = { λ r track known. own_syncs r track };

    ghost header_syncs = { λ r. inr (λ cells sync is. is) };

    ghost own_data = { λ r track known. inl (λ cells sync is. is) };
}
