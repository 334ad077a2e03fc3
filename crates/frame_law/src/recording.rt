ghost use Rattle.std.specs.Prelude.{◌≡◌, ℕ, ◌+◌, ◌*◌, ◌^◌, ◌<◌, ◌≤◌, ◌↔◌, List, [], Bool, false, length, drop};
ghost use Rattle.std.specs.Prelude.{replicate, IfNone, IfSome, IsTrue, OnOk, OnErr, IsOk};
ghost use Rattle.cell_bits.specs.Broken.{Unbroken};
ghost use Rattle.cell_bits.specs.State.{room};
ghost use Rattle.cell_bits.specs.Word.{Stands};
ghost use Rattle.flux_base.specs.Bounds.{LONGEST_RING, MOST_SECTOR_BYTES};
ghost use Rattle.flux_base.specs.declared.track.TrackId.{TrackId};
ghost use Rattle.frame_law.specs.Controller.{FirstData, START_ZEROS, SectorOf, StrictHasData};
ghost use Rattle.flux_base.specs.declared.header_name.HeaderName.{HeaderName};
ghost use Rattle.frame_law.specs.Others.{NamedDataAreOwn, NamesSectors};
ghost use Rattle.frame_law.specs.Readings.{Reads};
ghost use Rattle.track_rings.specs.OwnSectors.{IsAlone, IsAloneWithin, IsOwnPlace, between_zeros};
ghost use Rattle.track_rings.specs.Rings.{AreSectors, IsSectorNumber, IsSpaced, LiesAt, bytes_of, stretch};

use crate::{Reading, SectorBuffer};
use cell_bits::Cells;
use flux_base::{HeaderName, Memory, TrackId};

/// How the sectors of a disk's tracks are written as cells, and how they are read.
///
/// An impl says what its ghost members mean, in the terms of its standard: which tracks there are, when a
/// header and when a sector stands at the front of a list of cells, and the ring of cells of a whole track.
/// The calls equal these meanings, and the laws below the calls tie the ring to what stands.
pub trait Recording {
    /// The least distance of neighbouring ones of a ring, in cells.
    const SHORTEST: u8;
    /// The greatest distance of neighbouring ones of a ring, in cells, at most 4.
    const LONGEST: u8;

    ghost SHORTEST: { ℕ };

    ghost LONGEST: { ℕ };

    /// The cells with which each header begins, as a number, high bit first: what a search looks for.
    ghost sync: { Self → ℕ };

    /// How many cells these are, 1 to 32.
    ghost sync_cells: { Self → ℕ };

    /// The track is one of the recording's.
    ghost has_track: { Self → TrackId → Type 0 };

    /// The header of this sector of the track stands at the front of the cells.
    ghost header_at: { Self → TrackId → List Bool → ℕ → Type 0 };

    /// This sector of the track stands at the front of the cells, with these bytes.
    ghost sector_at: { Self → TrackId → List Bool → ℕ → List ℕ → Type 0 };

    /// By the second rule, as controllers read: data with these bytes stand at this place, counted from the front of
    /// the cells, where a header stands. It may have data at several places.
    ghost data_at: { Self → List Bool → ℕ → List ℕ → Type 0 };

    /// A header of this name stands at the front of the cells, whole and unbroken, with its check value.
    ghost named_at: { Self → List Bool → HeaderName → Type 0 };

    /// A header of this name is one of this sector of the track.
    ghost is_name_of: { Self → TrackId → HeaderName → ℕ → Type 0 };

    /// By the second rule: data of the size that this name tells stand at some place after the header at the front of
    /// the cells, which has this name.
    ghost whole_data_of: { Self → List Bool → HeaderName → Type 0 };

    /// The ring of a track: its cells, from one index hole to the next, with these bytes of all its sectors.
    ghost ring: { Self → TrackId → List ℕ → List Bool };

    /// The place in the ring at which a sector's header begins.
    ghost sector_place: { Self → TrackId → ℕ → ℕ };

    /// How many cells of the ring a sector's frame has, from the begin of its header to its end.
    ghost frame_cells: { Self → ℕ };

    ghost first_sector: { Self → ℕ };

    ghost sectors: { Self → TrackId → ℕ };

    ghost sector_size: { Self → ℕ };

    ghost ring_cells: { Self → TrackId → ℕ };

    /// The cells with which each header begins, as a number, high bit first.
    fn sync(&self) -> u32
        ensures { result ≡ sync self.now };

    /// How many cells these are, 1 to 32.
    fn sync_cells(&self) -> u8
        ensures { result ≡ sync_cells self.now };

    /// The number of a track's first sector.
    fn first_sector(&self) -> u8
        ensures { result ≡ first_sector self.now };

    /// How many sectors the track has.
    fn sectors(&self, track: TrackId) -> u8
        requires { has_track self.now track }
        ensures { result ≡ sectors self.now track };

    /// How many bytes a sector has.
    fn sector_size(&self) -> u16
        ensures { result ≡ sector_size self.now };

    /// How many cells the track's ring has.
    fn ring_cells(&self, track: TrackId) -> u32
        requires { has_track self.now track }
        ensures { result ≡ ring_cells self.now track };

    /// Makes `cells` the track's ring with the given bytes of its sectors, in order of the sector's number.
    /// After `Memory` they are empty.
    fn ring(&self, track: TrackId, bytes: &[u8], cells: &mut Cells) -> Result<(), Memory>
        requires track { has_track self.now track }
        requires bytes { length bytes.now ≡ sectors self.now track * sector_size self.now }
        ensures ok { OnOk result (cells.new.cells ≡ ring self.now track bytes.now) }
        ensures err { OnErr result (cells.new.cells ≡ []) }

        // Memory cannot come where there was room for the ring.
        ensures succeeds { ring_cells self.now track ≤ room cells.old → IsOk result }
        ensures room { room cells.old ≤ room cells.new };

    /// What is read at the place: a good sector where one stands whole, and a bad one where only its header
    /// does. Then `buffer` has a good sector's bytes, and is else empty.
    fn read_at(
        &self,
        cells: &Cells,
        place: usize,
        track: TrackId,
        buffer: &mut SectorBuffer,
    ) -> Reading
        requires { has_track self.now track }
        ensures { let here = drop place cells.now.cells in
            Reads (header_at self.now track here) (sector_at self.now track here) result buffer.new.items };

    /// The same, where the caller has found the sync at the place: it is not compared again.
    fn read_after_sync(
        &self,
        cells: &Cells,
        place: usize,
        track: TrackId,
        buffer: &mut SectorBuffer,
    ) -> Reading
        requires track { has_track self.now track }
        requires sync { Stands cells.now.cells (sync self.now) (sync_cells self.now) place }
        ensures { let here = drop place cells.now.cells in
            Reads (header_at self.now track here) (sector_at self.now track here) result buffer.new.items }
    {
        self.read_at(cells, place, track, buffer)
    }

    /// The sector of the track whose header stands at the place, where the caller has found the sync.
    fn header_after_sync(&self, cells: &Cells, place: usize, track: TrackId) -> Option<u8>
        requires track { has_track self.now track }
        requires sync { Stands cells.now.cells (sync self.now) (sync_cells self.now) place }
        ensures { SectorOf (header_at self.now track (drop place cells.now.cells)) result };

    /// The first place, counted from a header's and at least `from`, at which data of that header stand by the second
    /// rule. The buffer then has their bytes, and is else empty.
    fn next_data(
        &self,
        cells: &Cells,
        place: usize,
        from: usize,
        buffer: &mut SectorBuffer,
    ) -> Option<usize>
        ensures { FirstData (data_at self.now (drop place cells.now.cells)) from result buffer.new.items };

    /// The name of the header that stands at the place, where the caller has found the sync. None where none stands.
    fn name_after_sync(&self, cells: &Cells, place: usize) -> Option<HeaderName>
        requires sync { Stands cells.now.cells (sync self.now) (sync_cells self.now) place }
        ensures stands { IfSome result (λ name. named_at self.now (drop place cells.now.cells) name) }
        ensures none { IfNone result ((name : HeaderName) → ¬ named_at self.now (drop place cells.now.cells) name) };

    /// The sector of the track that has the name. None where none has it.
    fn sector_of_name(&self, track: TrackId, name: HeaderName) -> Option<u8>
        requires { has_track self.now track }
        ensures named { IfSome result (λ sector. is_name_of self.now track name sector) }
        ensures none { IfNone result ((sector : ℕ) → ¬ is_name_of self.now track name sector) };

    /// Whether data of the size that the name tells stand by the second rule after the header at the place, which has
    /// this name. They may have more bytes than a buffer has room for.
    fn has_data(&self, cells: &Cells, place: usize, name: HeaderName) -> bool
        ensures { IsTrue result ↔ whole_data_of self.now (drop place cells.now.cells) name };

    /// Each header begins with the sync cells.
    ghost sync_size: { (r : Self) → (1 ≤ sync_cells r) × (sync_cells r ≤ 32) };

    ghost sync_leads: { (r : Self) (track : TrackId) (cells : List Bool) (s : ℕ) →
        header_at r track cells s → Stands cells (sync r) (sync_cells r) 0 };

    /// What stands is one thing: no two headers, and no two contents of sectors, stand in the same cells.
    ghost one_header: { (r : Self) (track : TrackId) (cells : List Bool) (s t : ℕ) →
        header_at r track cells s → header_at r track cells t → s ≡ t };

    ghost one_content: { (r : Self) (track : TrackId) (cells : List Bool) (s t : ℕ) (xs ys : List ℕ) →
        sector_at r track cells s xs → sector_at r track cells t ys → xs ≡ ys };

    /// A sector has its header, and the number and the size of a sector of the track.
    ghost header_of_sector: { (r : Self) (track : TrackId) (cells : List Bool) (s : ℕ) (xs : List ℕ) →
        sector_at r track cells s xs → header_at r track cells s };

    ghost header_number: { (r : Self) (track : TrackId) (cells : List Bool) (s : ℕ) →
        has_track r track →
        header_at r track cells s → IsSectorNumber (first_sector r) (sectors r track) s };

    ghost content_size: { (r : Self) (track : TrackId) (cells : List Bool) (s : ℕ) (xs : List ℕ) →
        sector_at r track cells s xs → length xs ≡ sector_size r };

    /// A sector's number has 8 bits, its bytes fit the buffer, and a ring is not too long.
    ghost sizes: { (r : Self) (track : TrackId) →
        has_track r track →
        (first_sector r + sectors r track ≤ 256) × (sector_size r ≤ MOST_SECTOR_BYTES)
        × (ring_cells r track ≤ LONGEST_RING) };

    /// A ring has the length that `ring_cells` says.
    ghost ring_length: { (r : Self) (track : TrackId) (bytes : List ℕ) →
        has_track r track → AreSectors (sectors r track) (sector_size r) bytes →
        length (ring r track bytes) ≡ ring_cells r track };

    /// A ring has a one, and its neighbouring ones, read cyclically, are SHORTEST to LONGEST cells apart.
    ghost distances: { (1 ≤ SHORTEST) × (SHORTEST ≤ LONGEST) × (LONGEST ≤ 4) };

    ghost ring_spaced: { (r : Self) (track : TrackId) (bytes : List ℕ) →
        has_track r track → AreSectors (sectors r track) (sector_size r) bytes →
        IsSpaced SHORTEST LONGEST (ring r track bytes) };

    /// In any stretch of the repeated ring, where a sector's frame lies whole, the sector stands with its
    /// bytes.
    ghost sector_stands: { (r : Self) (track : TrackId) (bytes : List ℕ) (s from count place : ℕ) →
        has_track r track → AreSectors (sectors r track) (sector_size r) bytes →
        IsSectorNumber (first_sector r) (sectors r track) s →
        LiesAt (ring_cells r track) (sector_place r track s) (frame_cells r) from count place →
        sector_at r track (drop place (stretch (ring r track bytes) from count)) s
        (bytes_of (first_sector r) (sector_size r) bytes s) };

    /// A sector's frame lies whole in the ring, and is unbroken there.
    ghost frame_whole: { (r : Self) (track : TrackId) (bytes : List ℕ) (s : ℕ) →
        has_track r track → AreSectors (sectors r track) (sector_size r) bytes →
        IsSectorNumber (first_sector r) (sectors r track) s →
        let begin = sector_place r track s in
        let end = begin + frame_cells r in
        (end ≤ ring_cells r track) × Unbroken (ring r track bytes) begin end };

    ghost frame_some: { (r : Self) → 1 ≤ frame_cells r };

    /// What stands depends on its own cells alone.
    ghost header_alone: { (r : Self) (track : TrackId) (cells : List Bool) (s : ℕ) →
        header_at r track cells s → IsAlone (λ others. header_at r track others s) cells };

    ghost sector_alone: { (r : Self) (track : TrackId) (cells : List Bool) (s : ℕ) (xs : List ℕ) →
        sector_at r track cells s xs → IsAlone (λ others. sector_at r track others s xs) cells };

    /// In a stretch of the repeated ring between zeros, what stands is one of the ring's own sectors: a header
    /// stands where its sector does, and a sector has its bytes.
    ghost header_own: { (r : Self) (track : TrackId) (bytes : List ℕ) (s zeros from count behind place : ℕ) →
        has_track r track → AreSectors (sectors r track) (sector_size r) bytes →
        header_at r track (drop place (between_zeros (ring r track bytes) zeros from count behind)) s →
        IsOwnPlace (ring_cells r track) (sector_place r track s) zeros from place };

    ghost sector_own: { (r : Self) (track : TrackId) (bytes : List ℕ) (s zeros from count behind place : ℕ)
        (xs : List ℕ)
        →
        has_track r track → AreSectors (sectors r track) (sector_size r) bytes →
        sector_at r track (drop place (between_zeros (ring r track bytes) zeros from count behind)) s xs →
        xs ≡ bytes_of (first_sector r) (sector_size r) bytes s };

    /// A header of any name begins with the sync cells, and the cells tell its name.
    ghost name_leads: { (r : Self) (cells : List Bool) (name : HeaderName) →
        named_at r cells name → Stands cells (sync r) (sync_cells r) 0 };

    ghost one_name: { (r : Self) (cells : List Bool) (n m : HeaderName) →
        named_at r cells n → named_at r cells m → n ≡ m };

    /// A sector's header is one that has a name of the sector, which no other sector of the track has.
    ghost header_named: { (r : Self) (track : TrackId)
        → NamesSectors (named_at r) (is_name_of r track) (header_at r track) };

    /// After a header of a sector's name whole data stand exactly where the sector's do.
    ghost named_data: { (r : Self) (track : TrackId)
        → NamedDataAreOwn (whole_data_of r) (is_name_of r track) (data_at r) };

    ghost named_alone: { (r : Self) (cells : List Bool) (name : HeaderName) →
        named_at r cells name → IsAlone (λ others. named_at r others name) cells };

    /// In a stretch of the repeated ring between zeros, each header is that of one of the ring's own sectors.
    ghost no_other: { (r : Self) (track : TrackId) (bytes : List ℕ) (zeros from count behind place : ℕ)
        (name : HeaderName)
        →
        has_track r track → AreSectors (sectors r track) (sector_size r) bytes →
        named_at r (drop place (between_zeros (ring r track bytes) zeros from count behind)) name →
        (s : ℕ) × header_at r track (drop place (between_zeros (ring r track bytes) zeros from count behind)) s };

    /// Data that stand by the second rule are one thing at a place, have a sector's size, and begin in the cells.
    ghost data_is_one: { (r : Self) (cells : List Bool) (place : ℕ) (xs ys : List ℕ) →
        data_at r cells place xs → data_at r cells place ys → xs ≡ ys };

    ghost data_size: { (r : Self) (cells : List Bool) (place : ℕ) (xs : List ℕ) →
        data_at r cells place xs → length xs ≡ sector_size r };

    ghost data_inside: { (r : Self) (cells : List Bool) (place : ℕ) (xs : List ℕ) →
        data_at r cells place xs → place < length cells };

    /// What stands by the strict rule stands by the second.
    ghost data_of_sector: { (r : Self) (track : TrackId) → StrictHasData (sector_at r track) (data_at r) };

    /// Data depend on their own cells and those before them alone, in which no clock started anew.
    ghost data_alone: { (r : Self) (cells : List Bool) (place : ℕ) (xs : List ℕ) →
        data_at r cells place xs → IsAloneWithin START_ZEROS (λ others. data_at r others place xs) cells };

    /// In a stretch of the repeated ring between zeros, data after a header are its sector's.
    ghost data_own: { (r : Self) (track : TrackId) (bytes : List ℕ) (s zeros from count behind place at : ℕ)
        (xs : List ℕ)
        →
        has_track r track → AreSectors (sectors r track) (sector_size r) bytes →
        header_at r track (drop place (between_zeros (ring r track bytes) zeros from count behind)) s →
        data_at r (drop place (between_zeros (ring r track bytes) zeros from count behind)) at xs →
        xs ≡ bytes_of (first_sector r) (sector_size r) bytes s };

    /// No header stands in cells without a one.
    ghost no_header: { (r : Self) (track : TrackId) (count s : ℕ) →
        has_track r track → ¬ header_at r track (replicate count false) s };
}
