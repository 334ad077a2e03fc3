//! What the laws of every recording come to, for all its values, tracks, cells and bytes.

ghost use Rattle.std.specs.Prelude.{◌≡◌, ◌≤◌, ℕ, ◌+◌, List, Bool, length, drop};
ghost use Rattle.cell_bits.specs.Broken.{Unbroken};
ghost use Rattle.flux_base.specs.declared.track.TrackId.{TrackId};
ghost use Rattle.frame_law.specs.Controller.{DataAreTold, DataStandAlone, HasHeaderData, HasOnlyOwnData};
ghost use Rattle.frame_law.specs.Controller.{SearchesFindAll, SectorStandsBy, StrictHasData};
ghost use Rattle.frame_law.specs.Frames.{AreCellsOfRows};
ghost use Rattle.frame_law.specs.Laws.{HasOnlyOwn, HasOnlyOwnBetweenZeros, ReadingsAreAll, ReadingsAreOne};
ghost use Rattle.frame_law.specs.Laws.{SectorsAreTold, StandsAlone};
ghost use Rattle.frame_law.specs.Others.{HasNoOtherBetweenZeros, HeadersAreTold, NamedDataAreOwn};
ghost use Rattle.track_rings.specs.OwnSectors.{between_zeros};
ghost use Rattle.track_rings.specs.Rings.{AreSectors, IsSectorNumber, IsSpaced, LiesAt, bytes_of, stretch};
ghost use Rattle.track_rings.specs.Rows.{rows_cells};

use crate::{Layout, Recording};

/// A list is that of the readings that repeated searches find in a list of cells exactly where it is all that
/// stands there, and so they find one list.
pub fn readings_are_all<R: Recording>()
    ensures all { (r : R) (track : TrackId) → ReadingsAreAll (R.header_at r track) (R.sector_at r track) }
    ensures one { (r : R) (track : TrackId) → ReadingsAreOne (R.header_at r track) (R.sector_at r track) }
{}

/// The cells tell which header and which sector stands in them.
pub fn sectors_are_told<R: Recording>()
    ensures { (r : R) (track : TrackId) → SectorsAreTold (R.header_at r track) (R.sector_at r track) (R.sector_size r) }
{}

/// The ring of each track is as long as `ring_cells` says, with its neighbouring ones 1 to 4 cells apart, and has
/// each sector of the track, whole and unbroken, wherever the sector's frame lies whole in a stretch of it.
pub fn rings_hold_sectors<R: Recording>()
    ensures length { (r : R) (track : TrackId) (bytes : List ℕ) → R.has_track r track
        → AreSectors (R.sectors r track) (R.sector_size r) bytes
        → length (R.ring r track bytes) ≡ R.ring_cells r track }
    ensures spaced { (r : R) (track : TrackId) (bytes : List ℕ) → R.has_track r track
        → AreSectors (R.sectors r track) (R.sector_size r) bytes → IsSpaced 1 4 (R.ring r track bytes) }
    ensures stand { (r : R) (track : TrackId) (bytes : List ℕ) (s from count place : ℕ) → R.has_track r track
        → AreSectors (R.sectors r track) (R.sector_size r) bytes
        → IsSectorNumber (R.first_sector r) (R.sectors r track) s
        → LiesAt (R.ring_cells r track) (R.sector_place r track s) (R.frame_cells r) from count place
        → R.sector_at r track (drop place (stretch (R.ring r track bytes) from count)) s
        (bytes_of (R.first_sector r) (R.sector_size r) bytes s) }
    ensures whole { (r : R) (track : TrackId) (bytes : List ℕ) (s : ℕ) → R.has_track r track
        → AreSectors (R.sectors r track) (R.sector_size r) bytes
        → IsSectorNumber (R.first_sector r) (R.sectors r track) s
        → (R.sector_place r track s + R.frame_cells r ≤ R.ring_cells r track)
        × Unbroken (R.ring r track bytes) (R.sector_place r track s) (R.sector_place r track s + R.frame_cells r) }
    ensures some { (r : R) → 1 ≤ R.frame_cells r }
{}

/// Nothing but a ring's own sectors stands in it: what stands depends on its own cells alone, in any stretch of the
/// repeated ring between zeros it is one of the ring's sectors, and in a stretch alone a header has its sector where
/// the frame is not cut.
pub fn only_own<R: Recording>()
    ensures alone { (r : R) (track : TrackId) → R.has_track r track
        → StandsAlone (R.header_at r track) (R.sector_at r track) }
    ensures between_zeros { (r : R) (track : TrackId) (bytes : List ℕ) (zeros from count behind : ℕ)
        → R.has_track r track
        → AreSectors (R.sectors r track) (R.sector_size r) bytes
        → HasOnlyOwnBetweenZeros (R.header_at r track) (R.sector_at r track) (R.ring r track bytes)
        (R.ring_cells r track) (R.sector_place r track)
        (bytes_of (R.first_sector r) (R.sector_size r) bytes) zeros from count behind }
    ensures stretches { (r : R) (track : TrackId) (bytes : List ℕ) (from count : ℕ) → R.has_track r track
        → AreSectors (R.sectors r track) (R.sector_size r) bytes
        → HasOnlyOwn (R.header_at r track) (R.sector_at r track) (R.ring r track bytes)
        (R.ring_cells r track) (R.sector_place r track)
        (bytes_of (R.first_sector r) (R.sector_size r) bytes) (R.frame_cells r) from count }
{}

/// By the second rule, as controllers read: repeated searches find all data of a header, and all headers with all their
/// data, once each and by rising place; data at a place are one thing; and what stands by the strict rule stands by
/// this one, with the same bytes.
pub fn data_are_read<R: Recording>()
    ensures of_header { (r : R) (cells : List Bool) → SearchesFindAll (R.data_at r cells) }
    ensures of_track { (r : R) (track : TrackId) (cells : List Bool)
        → SearchesFindAll (HasHeaderData (R.header_at r track) (R.data_at r) cells) }
    ensures told { (r : R) → DataAreTold (R.data_at r) (R.sector_size r) }
    ensures strict { (r : R) (track : TrackId) → StrictHasData (R.sector_at r track) (R.data_at r) }
{}

/// The cells tell the name of each header, and which of the track's sectors it is of, if any; repeated searches find
/// all headers, once each and by rising place; and whole data of a sector's name are the sector's.
pub fn headers_are_told<R: Recording>()
    ensures told { (r : R) (track : TrackId)
        → HeadersAreTold (R.named_at r) (R.is_name_of r track) (R.header_at r track) }
    ensures own_data { (r : R) (track : TrackId)
        → NamedDataAreOwn (R.whole_data_of r) (R.is_name_of r track) (R.data_at r) }
{}

/// No other header than those of its sectors stands in any stretch of a repeated ring between zeros.
pub fn no_others<R: Recording>()
    ensures { (r : R) (track : TrackId) (bytes : List ℕ) (zeros from count behind : ℕ) → R.has_track r track
        → AreSectors (R.sectors r track) (R.sector_size r) bytes
        → HasNoOtherBetweenZeros (R.named_at r) (R.header_at r track) (R.ring r track bytes) zeros from count behind }
{}

/// Nothing but a ring's own sectors stands in it by the second rule either: what stands depends on its own cells alone,
/// without 31 zeros in a row; in any stretch of the repeated ring between zeros it is one of the ring's sectors; and a
/// sector stands wherever its frame lies whole.
pub fn only_own_data<R: Recording>()
    ensures alone { (r : R) (track : TrackId) → DataStandAlone (R.header_at r track) (R.data_at r) }
    ensures between_zeros { (r : R) (track : TrackId) (bytes : List ℕ) (zeros from count behind : ℕ)
        → R.has_track r track
        → AreSectors (R.sectors r track) (R.sector_size r) bytes
        → HasOnlyOwnData (R.header_at r track) (R.data_at r) (R.ring r track bytes) (R.ring_cells r track)
        (R.sector_place r track)
        (bytes_of (R.first_sector r) (R.sector_size r) bytes) zeros from count behind }
    ensures stand { (r : R) (track : TrackId) (bytes : List ℕ) (s from count place : ℕ) → R.has_track r track
        → AreSectors (R.sectors r track) (R.sector_size r) bytes
        → IsSectorNumber (R.first_sector r) (R.sectors r track) s
        → LiesAt (R.ring_cells r track) (R.sector_place r track s) (R.frame_cells r) from count place
        → SectorStandsBy (R.header_at r track) (R.data_at r) (drop place (stretch (R.ring r track bytes) from count)) s
        (bytes_of (R.first_sector r) (R.sector_size r) bytes s) }
{}

/// Where data stand by the second rule after a sector's header, in any stretch of a repeated ring between zeros, the
/// frame has the cells that were written, but for the last seven: those of its rows.
pub fn frames_have_own_cells<L: Layout>()
    ensures { (r : L) (track : TrackId) (bytes : List ℕ) (zeros from count behind place s at : ℕ) (xs : List ℕ)
        → L.has_track r track
        → AreSectors (L.sector_count r track) (L.sector_bytes r) bytes
        → let recording = ⟦<L as Recording>⟧ in
        let cells = drop place (between_zeros (recording.ring r track bytes) zeros from count behind) in
        recording.header_at r track cells s → recording.data_at r cells at xs
        → AreCellsOfRows
        (λ before. rows_cells L.asks (L.row_cells r track) before s
        (bytes_of (L.lowest_sector r) (L.sector_bytes r) bytes s) (L.rows r track).frame)
        (L.data_place r) (L.data_place r + L.data_cells r) cells at }
{}
