//! Whoever has a table of its tracks is a recording.

ghost use Rattle.std.specs.Prelude.{◌≡◌, ℕ, ◌+◌, ◌*◌, ◌<◌, ◌≤◌, List, Bool, length, drop};
ghost use Rattle.std.proofs.Common.{arith, refl, subst};
ghost use Rattle.frame_law.specs.Frames.{DataStand, HeaderStands, SectorStands};
ghost use Rattle.frame_law.specs.Controller.{DataStandAt, NamedHeaderStands};
ghost use Rattle.frame_law.specs.Others.{HasNamedData, IsSectorName};
ghost use Rattle.frame_law.specs.lemmas.Named.{named_header, own_named_data};
ghost use Rattle.frame_law.specs.lemmas.ControllerLaws.{data_alone, data_within, named_alone, own_content};
ghost use Rattle.frame_law.specs.lemmas.ControllerLaws.{strict_has_data};
ghost use Rattle.frame_law.specs.lemmas.FrameLaws.{frames-apart, frame_within, one_content, ring_length, ring_spaced};
ghost use Rattle.frame_law.specs.lemmas.FrameLaws.{sector_stands};
ghost use Rattle.frame_law.specs.lemmas.FrameSizes.{some_cells, some_header};
ghost use Rattle.frame_law.specs.lemmas.OwnFrames.{header_alone, same_sector, sector_alone};
ghost use Rattle.frame_law.specs.lemmas.OwnFrames.{track-header_agrees, track-header_own, track-named_own};
ghost use Rattle.frame_law.specs.lemmas.OwnFrames.{track-no_header, track-sector_own};
ghost use Rattle.track_rings.specs.OwnSectors.{between_zeros};
ghost use Rattle.track_rings.specs.Rings.{AreSectors, bytes_of};
ghost use Rattle.track_rings.specs.Rows.{place_of, ring_of};

use crate::data_search::{has_named_data, own_data, standing_name};
use crate::frame_reading::{header_sector, read_frame, sector_with_name};
use crate::ring_writing::append_track;
use crate::{CellsFrom, Layout, Reading, Recording, SectorBuffer};
use cell_bits::Cells;
use flux_base::{HeaderName, Memory, TrackId};

impl<L: Layout> Recording for L {
    const SHORTEST: u8 = L::CODING.shortest;

    const LONGEST: u8 = L::CODING.longest;

    ghost SHORTEST = { L.CODING.shortest };

    ghost LONGEST = { L.CODING.longest };

    ghost sync = { λ r. L.CODING.sync };

    ghost sync_cells = { λ r. L.CODING.sync_cells };

    ghost has_track = { λ r track. L.has_track r track };

    ghost header_at = { λ r track cells s.
        HeaderStands L.CODING.sync L.CODING.sync_cells (L.header_end r) (L.lowest_sector r) (L.sector_count r track)
        (L.names_sector r track) cells s };

    ghost sector_at = { λ r track cells s bytes.
        SectorStands
        (HeaderStands L.CODING.sync L.CODING.sync_cells (L.header_end r) (L.lowest_sector r) (L.sector_count r track)
        (L.names_sector r track) cells s)
        (DataStand (L.header_end r) (L.data_end r (L.sector_bytes r)) (L.is_sync r) (L.hold r (L.sector_bytes r)) cells
        bytes) };

    ghost data_at = { λ r cells place bytes.
        DataStandAt (L.header_end r) (L.data_end r (L.sector_bytes r)) (L.is_sync r) (L.hold r (L.sector_bytes r))
        (NamedHeaderStands L.CODING.sync L.CODING.sync_cells (L.header_end r) (L.names r)) cells place bytes };

    ghost named_at = { λ r cells name.
        NamedHeaderStands L.CODING.sync L.CODING.sync_cells (L.header_end r) (L.names r) cells name };

    ghost is_name_of = { λ r track name s.
        IsSectorName (L.is_name_of r track) (L.lowest_sector r) (L.sector_count r track) name s };

    ghost whole_data_of = { λ r cells name.
        HasNamedData (L.size_named r name)
        (λ size place bytes.
        DataStandAt (L.header_end r) (L.data_end r size) (L.is_sync r) (L.hold r size)
        (NamedHeaderStands L.CODING.sync L.CODING.sync_cells (L.header_end r) (L.names r)) cells place bytes) };

    ghost ring = { λ r track bytes.
        ring_of L.asks (L.row_cells r track) (L.lowest_sector r) (L.sector_count r track) (L.sector_bytes r) bytes
        (L.rows r track) };

    ghost sector_place = { λ r track s.
        place_of (L.row_size r track) (L.lowest_sector r) (L.sector_bytes r) (L.rows r track) s };

    ghost frame_cells = { λ r. L.data_place r + L.data_cells r };

    ghost first_sector = { λ r. L.lowest_sector r };

    ghost sectors = { λ r track. L.sector_count r track };

    ghost sector_size = { λ r. L.sector_bytes r };

    ghost ring_cells = { λ r track. L.track_cells r track };

    fn sync(&self) -> u32 {
        L::CODING.sync
    }

    fn sync_cells(&self) -> u8 {
        L::CODING.sync_cells
    }

    fn first_sector(&self) -> u8 {
        self.lowest_sector()
    }

    fn sectors(&self, track: TrackId) -> u8 {
        self.sector_count(track)
    }

    fn sector_size(&self) -> u16 {
        self.sector_bytes()
    }

    fn ring_cells(&self, track: TrackId) -> u32 {
        self.track_cells(track)
    }

    fn ring(&self, track: TrackId, bytes: &[u8], cells: &mut Cells) -> Result<(), Memory> {
        cells.clear();
        let written = append_track(self, track, bytes, cells);
        if written.is_err() {
            cells.clear();
        }
        written
    }

    fn read_at(
        &self,
        cells: &Cells,
        place: usize,
        track: TrackId,
        buffer: &mut SectorBuffer,
    ) -> Reading {
        let frame = CellsFrom::new(cells, place);
        if frame.stands_at(0, L::CODING.sync, L::CODING.sync_cells) {
            return read_frame(self, &frame, track, buffer);
        }
        buffer.clear();
        Reading::Nothing
    }

    fn read_after_sync(
        &self,
        cells: &Cells,
        place: usize,
        track: TrackId,
        buffer: &mut SectorBuffer,
    ) -> Reading {
        read_frame(self, &CellsFrom::new(cells, place), track, buffer)
    }

    fn header_after_sync(&self, cells: &Cells, place: usize, track: TrackId) -> Option<u8> {
        let frame = CellsFrom::new(cells, place);
        let header_end = self.header_end(&frame)?;
        header_sector(self, &frame, header_end, track)
    }

    fn next_data(
        &self,
        cells: &Cells,
        place: usize,
        from: usize,
        buffer: &mut SectorBuffer,
    ) -> Option<usize> {
        own_data(self, &CellsFrom::new(cells, place), from, buffer)
    }

    fn name_after_sync(&self, cells: &Cells, place: usize) -> Option<HeaderName> {
        standing_name(self, &CellsFrom::new(cells, place))
    }

    fn sector_of_name(&self, track: TrackId, name: HeaderName) -> Option<u8> {
        sector_with_name(self, track, name)
    }

    fn has_data(&self, cells: &Cells, place: usize, name: HeaderName) -> bool {
        has_named_data(self, &CellsFrom::new(cells, place), name)
    }

    ghost sync_size = { λ r. (L.sizes.some_cells, L.sizes.word) };

    ghost sync_leads = { λ r track cells s header. header.begins };

    ghost one_header = { λ r track cells s t first second.
        same_sector (L.names r) (L.is_name_of r track) (L.names_sector r track) (L.named_sector r track)
        cells cells s t (λ n m. L.one_name r cells n m) first.named second.named };

    ghost one_content = { λ r track cells s t xs ys first second.
        one_content (L.header_end r) (L.data_end r (L.sector_bytes r)) (L.is_sync r) (L.hold r (L.sector_bytes r)) cells
        xs ys (L.one_content r cells)
        first.content second.content };

    ghost header_of_sector = { λ r track cells s xs sector. sector.header };

    ghost header_number = { λ r track cells s known header. header.known };

    ghost content_size = { λ r track cells s xs sector.
        L.content_size r cells sector.content.sync xs sector.content.held };

    ghost sizes = { λ r track known.
        ((L.counts r track known).1, (L.counts r track known).2, (L.sums r track known).2) };

    ghost ring_length = { λ r track bytes known given.
        ring_length L.asks (L.row_cells r track) (L.row_size r track) (L.row_length r track)
        (L.lowest_sector r) (L.sector_count r track) (L.sector_bytes r) (L.rows r track) bytes (L.track_cells r track)
        given.whole (L.sums r track known).1 };

    ghost distances = { (L.sizes.apart, L.sizes.order, L.sizes.near) };

    ghost ring_spaced = { λ r track bytes known given.
        ring_spaced L.asks (L.row_cells r track) (L.row_size r track) (L.row_length r track)
        (L.lowest_sector r) (L.sector_count r track) (L.sector_bytes r) (L.rows r track)
        L.CODING.shortest L.CODING.longest L.last_zeros L.CODING.sync_cells L.header_cells L.sizes
        (λ s content row. L.row_follows r track s content row known)
        bytes (L.data_place r) (L.data_cells r) (L.counts r track known).0 (L.reach r) given (L.sums r track known).0
        (λ before. L.ends r track before known) };

    ghost sector_stands = { λ r track bytes s from count place known given number lies.
        sector_stands L.asks (L.row_cells r track) (L.row_size r track) (L.row_length r track)
        (L.lowest_sector r) (L.sector_count r track) (L.sector_bytes r) (L.rows r track)
        L.CODING.shortest L.CODING.longest L.last_zeros L.CODING.sync_cells L.header_cells L.sizes
        (λ n content row. L.row_follows r track n content row known)
        (L.data_cells r) L.CODING.sync (L.data_place r) (L.header_end r) (L.data_end r (L.sector_bytes r)) (L.is_sync r)
        (L.hold r (L.sector_bytes r))
        (L.names_sector r track)
        bytes s from count place (L.track_cells r track) given number
        (λ content before rest fit long. (
          L.frame_stands r track s content before rest known number fit long,
          L.frame_ends r track s content before rest known number fit long,
        ))
        (L.sums r track known).0 (L.sums r track known).1 (L.reach r) lies };

    ghost frame_whole = { λ r track bytes s known given number.
        frame_within L.asks (L.row_cells r track) (L.row_size r track) (L.row_length r track)
        (L.lowest_sector r) (L.sector_count r track) (L.sector_bytes r) (L.rows r track)
        L.CODING.shortest L.CODING.longest L.last_zeros L.CODING.sync_cells L.header_cells L.sizes
        (λ n content row. L.row_follows r track n content row known)
        bytes s (L.track_cells r track) (L.data_place r + L.data_cells r) (L.counts r track known).0 given number
        (L.sums r track known).0 (L.sums r track known).1 };

    ghost frame_some = { λ r. some_cells L.sizes (L.reach r) };

    ghost header_alone = { λ r track cells s header.
        header_alone L.header_cells (L.data_cells r) (L.header_end r) (L.data_end r (L.sector_bytes r)) (L.is_sync r)
        (L.hold r (L.sector_bytes r)) L.CODING.sync L.CODING.sync_cells (L.data_place r)
        (L.lowest_sector r) (L.sector_count r track) (L.names_sector r track) (L.tells_ends r) (L.sector_tells r track)
        cells s (some_header L.sizes) header };

    ghost sector_alone = { λ r track cells s xs sector.
        sector_alone L.header_cells (L.data_cells r) (L.header_end r) (L.data_end r (L.sector_bytes r)) (L.is_sync r)
        (L.hold r (L.sector_bytes r)) L.CODING.sync L.CODING.sync_cells (L.data_place r)
        (L.lowest_sector r) (L.sector_count r track) (L.names_sector r track) (L.tells_ends r) (L.sector_tells r track)
        cells s xs (some_header L.sizes) sector };

    ghost header_own = { λ r track bytes s zeros from count behind place known given header.
        track-header_own (L.track_told r track known) bytes given zeros from count behind place s header };

    ghost sector_own = { λ r track bytes s zeros from count behind place xs known given sector.
        track-sector_own (L.track_told r track known) bytes given zeros from count behind place s xs sector };

    ghost no_other = { λ r track bytes zeros from count behind place name known given header.
        track-named_own (L.track_told r track known) bytes given zeros from count behind place
        (L.is_name_of r track) (L.named_sector r track) (L.tells r) name header };

    ghost no_header = { λ r track count s known header. track-no_header (L.track_told r track known) count s header };

    ghost name_leads = { λ r cells name header. header.begins };

    ghost one_name = { λ r cells n m first second. L.one_name r cells n m first.named second.named };

    ghost header_named = { λ r track.
        named_header L.CODING.sync L.CODING.sync_cells (L.header_end r) (L.lowest_sector r) (L.sector_count r track)
        (L.names r) (L.is_name_of r track)
        (L.names_sector r track)
        (L.named_sector r track) };

    ghost named_data = { λ r track name s is cells.
        own_named_data (L.size_named r name) (L.sector_bytes r) (L.own_size r track name s is.0) _ };

    ghost named_alone = { λ r cells name header.
        named_alone L.header_cells (L.data_cells r) (L.header_end r) (L.data_end r (L.sector_bytes r)) (L.is_sync r)
        (L.hold r (L.sector_bytes r)) L.CODING.sync L.CODING.sync_cells (L.names r)
        (L.tells_ends r) (L.tells r) cells name (some_header L.sizes) header };

    ghost data_is_one = { λ r cells place xs ys first second.
        L.one_content r cells place xs ys first.rest.held second.rest.held };

    ghost data_size = { λ r cells place xs content. L.content_size r cells place xs content.rest.held };

    ghost data_inside = { λ r cells place xs content.
        data_within L.header_cells (L.data_cells r) (L.header_end r) (L.data_end r (L.sector_bytes r)) (L.is_sync r)
        (L.hold r (L.sector_bytes r)) L.CODING.sync L.CODING.sync_cells (L.names r)
        (L.tells_ends r) (L.tells r) cells place xs content };

    ghost data_of_sector = { λ r track cells s xs sector.
        strict_has_data L.header_cells (L.data_cells r) (L.header_end r) (L.data_end r (L.sector_bytes r)) (L.is_sync r)
        (L.hold r (L.sector_bytes r)) L.CODING.sync L.CODING.sync_cells (L.names r)
        (L.header_syncs r) cells xs sector.content };

    ghost data_alone = { λ r cells place xs content.
        data_alone L.header_cells (L.data_cells r) (L.header_end r) (L.data_end r (L.sector_bytes r)) (L.is_sync r)
        (L.hold r (L.sector_bytes r)) L.CODING.sync L.CODING.sync_cells (L.names r)
        (L.tells_ends r) (L.tells r) cells place xs content };

    ghost data_own = { λ r track bytes s zeros from count behind place at xs known given header content.
        own_content L.header_cells (L.data_cells r) (L.header_end r) (L.data_end r (L.sector_bytes r)) (L.is_sync r)
        (L.hold r (L.sector_bytes r)) L.CODING.sync L.CODING.sync_cells (L.names r)
        (L.tells_ends r) (L.tells r) (L.data_place r) (L.data_place r + L.data_cells r) (L.lowest_sector r)
        (L.sector_count r track)
        (place_of (L.row_size r track) (L.lowest_sector r) (L.sector_bytes r) (L.rows r track))
        (AreSectors (L.sector_count r track) (L.sector_bytes r))
        (λ content.
        ring_of L.asks (L.row_cells r track) (L.lowest_sector r) (L.sector_count r track) (L.sector_bytes r) content
        (L.rows r track))
        bytes given refl
        (frames-apart (L.row_size r track) (L.lowest_sector r) (L.sector_count r track) (L.sector_bytes r)
        (L.rows r track)
        (L.data_place r + L.data_cells r) (L.sums r track known).0)
        (L.header_syncs r) (L.own_data r track known)
        s at (bytes_of (L.lowest_sector r) (L.sector_bytes r) bytes s) xs
        (drop place
        (between_zeros
        (ring_of L.asks (L.row_cells r track) (L.lowest_sector r) (L.sector_count r track) (L.sector_bytes r) bytes
        (L.rows r track)) zeros from count behind))
        (track-header_agrees (L.track_told r track known) bytes given zeros from count behind place s header)
        content };
}
