//! One of two recordings is a recording: all that it says is what the one says that is there.

ghost use Rattle.std.specs.Prelude.{◌≡◌, ℕ, ◌≤◌, length, min, max};
ghost use Rattle.std.proofs.Common.{arith};
ghost use Rattle.either.specs.declared.Either.TheVariants.{Left, Right};
ghost use Rattle.frame_law.specs.lemmas.Spacing.{spaced_wider};

use crate::{Reading, Recording, SectorBuffer};
use cell_bits::Cells;
use either::{Either, for_both};
use flux_base::{HeaderName, Memory, TrackId};

impl<A: Recording, B: Recording> Recording for Either<A, B> {
    const SHORTEST: u8 = if A::SHORTEST < B::SHORTEST {
        A::SHORTEST
    } else {
        B::SHORTEST
    };

    const LONGEST: u8 = if A::LONGEST < B::LONGEST {
        B::LONGEST
    } else {
        A::LONGEST
    };

    ghost SHORTEST = { min A.SHORTEST B.SHORTEST };

    ghost LONGEST = { max A.LONGEST B.LONGEST };

    ghost sync = { elim [ Left r ↦ A.sync r | Right r ↦ B.sync r ] };

    ghost sync_cells = { elim [ Left r ↦ A.sync_cells r | Right r ↦ B.sync_cells r ] };

    ghost has_track = { elim [ Left r ↦ A.has_track r | Right r ↦ B.has_track r ] };

    ghost header_at = { elim [ Left r ↦ A.header_at r | Right r ↦ B.header_at r ] };

    ghost sector_at = { elim [ Left r ↦ A.sector_at r | Right r ↦ B.sector_at r ] };

    ghost data_at = { elim [ Left r ↦ A.data_at r | Right r ↦ B.data_at r ] };

    ghost named_at = { elim [ Left r ↦ A.named_at r | Right r ↦ B.named_at r ] };

    ghost is_name_of = { elim [ Left r ↦ A.is_name_of r | Right r ↦ B.is_name_of r ] };

    ghost whole_data_of = { elim [ Left r ↦ A.whole_data_of r | Right r ↦ B.whole_data_of r ] };

    ghost ring = { elim [ Left r ↦ A.ring r | Right r ↦ B.ring r ] };

    ghost sector_place = { elim [ Left r ↦ A.sector_place r | Right r ↦ B.sector_place r ] };

    ghost frame_cells = { elim [ Left r ↦ A.frame_cells r | Right r ↦ B.frame_cells r ] };

    ghost first_sector = { elim [ Left r ↦ A.first_sector r | Right r ↦ B.first_sector r ] };

    ghost sectors = { elim [ Left r ↦ A.sectors r | Right r ↦ B.sectors r ] };

    ghost sector_size = { elim [ Left r ↦ A.sector_size r | Right r ↦ B.sector_size r ] };

    ghost ring_cells = { elim [ Left r ↦ A.ring_cells r | Right r ↦ B.ring_cells r ] };

    fn sync(&self) -> u32 {
        for_both!(self, r => r.sync())
    }

    fn sync_cells(&self) -> u8 {
        for_both!(self, r => r.sync_cells())
    }

    fn first_sector(&self) -> u8 {
        for_both!(self, r => r.first_sector())
    }

    fn sectors(&self, track: TrackId) -> u8 {
        for_both!(self, r => r.sectors(track))
    }

    fn sector_size(&self) -> u16 {
        for_both!(self, r => r.sector_size())
    }

    fn ring_cells(&self, track: TrackId) -> u32 {
        for_both!(self, r => r.ring_cells(track))
    }

    fn ring(&self, track: TrackId, bytes: &[u8], cells: &mut Cells) -> Result<(), Memory> {
        for_both!(self, r => r.ring(track, bytes, cells))
    }

    fn read_at(
        &self,
        cells: &Cells,
        place: usize,
        track: TrackId,
        buffer: &mut SectorBuffer,
    ) -> Reading {
        for_both!(self, r => r.read_at(cells, place, track, buffer))
    }

    fn read_after_sync(
        &self,
        cells: &Cells,
        place: usize,
        track: TrackId,
        buffer: &mut SectorBuffer,
    ) -> Reading {
        for_both!(self, r => r.read_after_sync(cells, place, track, buffer))
    }

    fn header_after_sync(&self, cells: &Cells, place: usize, track: TrackId) -> Option<u8> {
        for_both!(self, r => r.header_after_sync(cells, place, track))
    }

    fn next_data(
        &self,
        cells: &Cells,
        place: usize,
        from: usize,
        buffer: &mut SectorBuffer,
    ) -> Option<usize> {
        for_both!(self, r => r.next_data(cells, place, from, buffer))
    }

    fn name_after_sync(&self, cells: &Cells, place: usize) -> Option<HeaderName> {
        for_both!(self, r => r.name_after_sync(cells, place))
    }

    fn sector_of_name(&self, track: TrackId, name: HeaderName) -> Option<u8> {
        for_both!(self, r => r.sector_of_name(track, name))
    }

    fn has_data(&self, cells: &Cells, place: usize, name: HeaderName) -> bool {
        for_both!(self, r => r.has_data(cells, place, name))
    }

    ghost sync_size = { elim [ Left r ↦ A.sync_size r | Right r ↦ B.sync_size r ] };

    ghost sync_leads = { elim [ Left r ↦ A.sync_leads r | Right r ↦ B.sync_leads r ] };

    ghost one_header = { elim [ Left r ↦ A.one_header r | Right r ↦ B.one_header r ] };

    ghost one_content = { elim [ Left r ↦ A.one_content r | Right r ↦ B.one_content r ] };

    ghost header_of_sector = { elim [ Left r ↦ A.header_of_sector r | Right r ↦ B.header_of_sector r ] };

    ghost header_number = { elim [ Left r ↦ A.header_number r | Right r ↦ B.header_number r ] };

    ghost content_size = { elim [ Left r ↦ A.content_size r | Right r ↦ B.content_size r ] };

    ghost sizes = { elim [ Left r ↦ A.sizes r | Right r ↦ B.sizes r ] };

    ghost ring_length = { elim [ Left r ↦ A.ring_length r | Right r ↦ B.ring_length r ] };

    ghost distances = { (
      Prim.omega (arith, A.distances.0, B.distances.0),
      Prim.omega (arith, A.distances.1, B.distances.1),
      Prim.omega (arith, A.distances.2, B.distances.2),
    ) };

    ghost ring_spaced = { elim [
      | Left r ↦ λ track bytes known sectors.
          spaced_wider _ _ (Prim.omega arith) (Prim.omega arith) (A.ring_spaced r track bytes known sectors)
      | Right r ↦ λ track bytes known sectors.
          spaced_wider _ _ (Prim.omega arith) (Prim.omega arith) (B.ring_spaced r track bytes known sectors)
    ] };

    ghost sector_stands = { elim [ Left r ↦ A.sector_stands r | Right r ↦ B.sector_stands r ] };

    ghost frame_whole = { elim [ Left r ↦ A.frame_whole r | Right r ↦ B.frame_whole r ] };

    ghost frame_some = { elim [ Left r ↦ A.frame_some r | Right r ↦ B.frame_some r ] };

    ghost header_alone = { elim [ Left r ↦ A.header_alone r | Right r ↦ B.header_alone r ] };

    ghost sector_alone = { elim [ Left r ↦ A.sector_alone r | Right r ↦ B.sector_alone r ] };

    ghost header_own = { elim [ Left r ↦ A.header_own r | Right r ↦ B.header_own r ] };

    ghost sector_own = { elim [ Left r ↦ A.sector_own r | Right r ↦ B.sector_own r ] };

    ghost name_leads = { elim [ Left r ↦ A.name_leads r | Right r ↦ B.name_leads r ] };

    ghost one_name = { elim [ Left r ↦ A.one_name r | Right r ↦ B.one_name r ] };

    ghost header_named = { elim [ Left r ↦ A.header_named r | Right r ↦ B.header_named r ] };

    ghost named_data = { elim [ Left r ↦ A.named_data r | Right r ↦ B.named_data r ] };

    ghost named_alone = { elim [ Left r ↦ A.named_alone r | Right r ↦ B.named_alone r ] };

    ghost no_other = { elim [ Left r ↦ A.no_other r | Right r ↦ B.no_other r ] };

    ghost data_is_one = { elim [ Left r ↦ A.data_is_one r | Right r ↦ B.data_is_one r ] };

    ghost data_size = { elim [ Left r ↦ A.data_size r | Right r ↦ B.data_size r ] };

    ghost data_inside = { elim [ Left r ↦ A.data_inside r | Right r ↦ B.data_inside r ] };

    ghost data_of_sector = { elim [ Left r ↦ A.data_of_sector r | Right r ↦ B.data_of_sector r ] };

    ghost data_alone = { elim [ Left r ↦ A.data_alone r | Right r ↦ B.data_alone r ] };

    ghost data_own = { elim [ Left r ↦ A.data_own r | Right r ↦ B.data_own r ] };

    ghost no_header = { elim [ Left r ↦ A.no_header r | Right r ↦ B.no_header r ] };
}
