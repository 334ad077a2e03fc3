ghost use Rattle.std.specs.Prelude.{◌≡◌, ℕ, ◌+◌, ◌*◌, IsFalse, IsTrue, true, refl};
ghost use Rattle.std.proofs.Common.{ap, arith, inl, inr, sym, ◌∙◌};
ghost use Rattle.ibm_disks.specs.Numbers.{FillMfmTrack, code_of, size_of};
ghost use Rattle.ibm_fields.specs.Fields.{sector_name, size_named as bytes_named};
ghost use Rattle.ibm_mfm.specs.lemmas.DataSyncs.{own_data};
ghost use Rattle.frame_law.specs.lemmas.OwnFrames.{fixed_ends};
ghost use Rattle.ibm_mfm.specs.lemmas.DiskLaws.{counts, ends, header_short, named_known, size_told, sums, within_reach};
ghost use Rattle.ibm_mfm.specs.Disks.{IsMfmTrack, named_track};
ghost use Rattle.ibm_mfm.specs.lemmas.FrameLaws.{frame_stands};
ghost use Rattle.ibm_mfm.specs.lemmas.HeaderSyncs.{own_syncs};
ghost use Rattle.ibm_mfm.specs.Layout.{row_cells, row_size, rows_of};
ghost use Rattle.ibm_mfm.specs.lemmas.OwnLaws.{bytes_held, data_long, marks_sync, named_sector, one_name, sizes, tells};
ghost use Rattle.ibm_mfm.specs.lemmas.RowLaws.{row_follows, row_length};
ghost use Rattle.ibm_mfm.specs.Sectors.{DATA_CELLS, Hold, Names, NamesSector};
ghost use Rattle.ibm_mfm.specs.Syncs.{SyncAt};

use crate::data_field::{has_field, next_sync, read_field};
use crate::header::header_name;
use crate::heads::HeadNumbers;
use crate::layout::{HEADER_CELLS, LEAD_OUT, Row, SECTOR, around, data_cells, lead_in};
use crate::rows::push_row;
use cell_bits::Cells;
use flux_base::{HeaderName, Memory, TrackId};
use frame_law::{CellsFrom, Coding, Layout, SectorBuffer, SectorBytes};
use ibm_disks::TrackNumbers;
use ibm_fields::size_named;
use mfm_coding::CODING;

/// The double density recording of the PC's disks, in the form of the IBM System 34, with the numbers of a track of
/// the PC's or of another disk that has it. The tracks are the cylinders 0 to 99 with the heads 0 and 1.
#[derive(Clone, Copy, Debug, PartialEq, Eq)]
pub struct IbmMfm {
    /// The numbers of each of the disk's tracks.
    pub numbers: TrackNumbers,
    /// How its headers number the heads.
    pub heads: HeadNumbers,
}

impl IbmMfm {
    /// The PC's with 8 sectors a track (160 and 320 KB).
    pub const PC_8: IbmMfm = IbmMfm {
        numbers: TrackNumbers::PC_8,
        heads: HeadNumbers::Same,
    };

    /// The PC's with 9 sectors a track (180, 360 and 720 KB), which the Atari ST and MSX have too.
    pub const PC_9: IbmMfm = IbmMfm {
        numbers: TrackNumbers::PC_9,
        heads: HeadNumbers::Same,
    };

    /// The PC's with 15 sectors a track (1200 KB).
    pub const PC_15: IbmMfm = IbmMfm {
        numbers: TrackNumbers::PC_15,
        heads: HeadNumbers::Same,
    };

    /// The PC's with 18 sectors a track (1440 KB).
    pub const PC_18: IbmMfm = IbmMfm {
        numbers: TrackNumbers::PC_18,
        heads: HeadNumbers::Same,
    };

    /// The Atari ST's with 10 sectors a track (800 KB).
    pub const ATARI_10: IbmMfm = IbmMfm {
        numbers: TrackNumbers::ATARI_10,
        heads: HeadNumbers::Same,
    };

    /// The Amstrad CPC's for data: 9 sectors a track, the first of which is C1 hexadecimal.
    pub const CPC_DATA: IbmMfm = IbmMfm {
        numbers: TrackNumbers::CPC_DATA,
        heads: HeadNumbers::Same,
    };

    /// The Amstrad CPC's with a system: the same with 41 hexadecimal.
    pub const CPC_SYSTEM: IbmMfm = IbmMfm {
        numbers: TrackNumbers::CPC_SYSTEM,
        heads: HeadNumbers::Same,
    };

    /// The Commodore 1581's: the Atari ST's 10 sectors a track, with the heads numbered the other way round.
    pub const C1581: IbmMfm = IbmMfm {
        numbers: TrackNumbers::ATARI_10,
        heads: HeadNumbers::Exchanged,
    };

    /// Whether the numbers fill a track, as those of a disk do.
    pub fn fills_track(&self) -> bool
        ensures yes { IsTrue result → FillMfmTrack self.now.numbers }
        ensures no { IsFalse result → ¬ FillMfmTrack self.now.numbers }
    {
        let numbers = self.numbers;
        numbers.fill_track(numbers.lead_in.mfm_before(), around(numbers.lead_in))
    }
}

impl Layout for IbmMfm {
    type Row = Row;

    const CODING: Coding = CODING;

    ghost CODING = { record { shortest = 2; longest = 4; sync = 0x44894489; sync_cells = 32 } };

    ghost has_track = { λ r track. IsMfmTrack r track };

    ghost lowest_sector = { λ r. r.numbers.first_sector };

    ghost sector_count = { λ r track. r.numbers.sectors };

    ghost sector_bytes = { λ r. size_of r.numbers.size };

    ghost track_cells = { λ r track. 16 * r.numbers.bytes };

    ghost names_sector = { λ r track cells s.
        NamesSector (code_of r.numbers.size) (named_track r.heads track) cells s };

    ghost names = { λ r cells name. Names cells name };

    ghost is_name_of = { λ r track name s. name ≡ sector_name (named_track r.heads track) s (code_of r.numbers.size) };

    ghost is_sync = { λ r cells place. SyncAt cells place };

    ghost size_named = { λ r name. bytes_named name };

    ghost hold = { λ r size cells sync bytes. Hold size cells sync bytes };

    ghost data_cells = { λ r. DATA_CELLS (size_of r.numbers.size) };

    ghost header_cells = { 160 };

    ghost header_end = { λ r cells. 160 };

    ghost data_end = { λ r size cells sync. sync + DATA_CELLS size };

    ghost data_place = { λ r. 704 };

    ghost rows = { λ r track. rows_of r.numbers };

    ghost asks = { true };

    ghost row_cells = { λ r track before s bytes row.
        row_cells r.numbers (named_track r.heads track) before s bytes row };

    ghost row_size = { λ r track count row. row_size r.numbers count row };

    ghost last_zeros = { 2 };

    fn lowest_sector(&self) -> u8 {
        self.numbers.first_sector
    }

    fn sector_count(&self, _track: TrackId) -> u8 {
        self.numbers.sectors
    }

    fn sector_bytes(&self) -> u16 {
        self.numbers.size.bytes()
    }

    fn size_named(&self, name: HeaderName) -> Option<u16> {
        size_named(name)
    }

    fn track_cells(&self, _track: TrackId) -> u32 {
        self.numbers.cells()
    }

    fn lead_in(&self, _track: TrackId) -> &[Row] {
        lead_in(self.numbers.lead_in)
    }

    fn sector_rows(&self, _track: TrackId) -> &[Row] {
        &SECTOR
    }

    fn lead_out(&self, _track: TrackId) -> &[Row] {
        &LEAD_OUT
    }

    fn append_row(&self, of: &SectorBytes, row: Row, cells: &mut Cells) -> Result<(), Memory> {
        let named = self.heads.named_track(of.track);
        push_row(cells, row, self.numbers, named, of.sector, of.bytes)
    }

    fn header_end(&self, frame: &CellsFrom) -> Option<usize> {
        frame.end_within(HEADER_CELLS)
    }

    fn read_name(&self, frame: &CellsFrom) -> Option<HeaderName> {
        header_name(frame)
    }

    fn sector_named(&self, track: TrackId, name: HeaderName) -> Option<u8> {
        let named = self.heads.named_track(track);
        name.sector_of_cylinder(named.cylinder, named.head, self.numbers.size.code())
    }

    fn next_sync(&self, frame: &CellsFrom, from: usize, to: usize) -> Option<usize> {
        next_sync(frame, from, to)
    }

    fn data_end(&self, size: u16, frame: &CellsFrom, sync: usize) -> Option<usize> {
        frame.end_within(sync + data_cells(size))
    }

    fn read_data(
        &self,
        size: u16,
        frame: &CellsFrom,
        sync: usize,
        buffer: &mut SectorBuffer,
    ) -> bool {
        read_field(frame, sync, size, buffer)
    }

    fn has_content(&self, size: u16, frame: &CellsFrom, sync: usize) -> bool {
        has_field(frame, sync, size)
    }

    ghost sizes = { sizes };

    ghost counts = { λ r track known. counts r.numbers known.fills };

    ghost reach = { λ r. within_reach r.numbers.size };

    ghost sums = { λ r track known. sums r.numbers known.fills };

    ghost row_length = { λ r track before s bytes row.
        row_length r.numbers (named_track r.heads track) before s bytes row };

    ghost row_follows = { λ r track s bytes row known content.
        row_follows r.numbers (named_track r.heads track) s bytes row };

    ghost ends = { λ r track before known. ends r.numbers known.fills (named_track r.heads track) before };

    ghost named_sector = { λ r track. named_sector (code_of r.numbers.size) (named_track r.heads track) };

    ghost own_size = { λ r track name s is. ap bytes_named is ∙ size_told r.numbers.size };

    ghost data_some = { λ r size cells sync. Prim.omega arith };

    ghost one_name = { λ r cells n m first second. one_name cells n m first second };

    ghost one_content = { λ r cells sync xs ys first second. sym first.content ∙ second.content };

    ghost content_size = { λ r cells sync xs held. bytes_held (size_of r.numbers.size) cells sync xs held };

    ghost frame_stands = { λ r track s bytes before rest known number fit long.
        frame_stands r (named_track r.heads track) s bytes before rest (named_known r track known) number fit long };

    ghost frame_ends = { λ r track s bytes before rest known number fit long.
        record { header_ends = refl; data_ends = refl } };

    ghost tells_ends = { λ r.
        fixed_ends 160 (DATA_CELLS (size_of r.numbers.size)) (data_long (size_of r.numbers.size))
        (header_short r.numbers.size) };

    ghost tells = { λ r. tells (size_of r.numbers.size) };

    ghost own_syncs = { λ r track known. own_syncs r.numbers known.fills (named_track r.heads track) };

    ghost header_syncs = { λ r. inl (λ cells place name stands named. marks_sync cells place name stands named) };

    ghost own_data = { λ r track known. inr (own_data r.numbers known.fills (named_track r.heads track)) };
}
