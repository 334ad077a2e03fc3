//! What the readings of a written track come to.

ghost use Rattle.std.specs.Prelude.{ℕ, Bool, List};
ghost use Rattle.flux_base.specs.declared.track.TrackId.{TrackId};
ghost use Rattle.law_decoded_rings.specs.Pieces.{RingPiece, cells_of_ring_pieces};
ghost use Rattle.law_decoded_rings.specs.Verdicts.{PiecesAreRight, PiecesAreRightWithin, TwoRingsHaveSectors};
ghost use Rattle.law_decoded_rings.specs.Written.{IsReadBy, IsReadWithin, WrittenTrack};
ghost use Rattle.frame_law.specs.Controller.{START_ZEROS, SectorStandsBy};
ghost use Rattle.frame_law.specs.Others.{HasNoOther, HasNoOtherBetweenZeros};
ghost use Rattle.track_rings.specs.Rings.{AreSectors};

use flux_base::TrackId;
use frame_law::{Recording, no_others};

/// Of a track that is read as its recording says, recovered in pieces of its ring with erased stretches between them: a
/// sector of which one place, with its whole frame, lies in one piece is good with the bytes that were written. Every
/// other one is good with these bytes, bad or missing, and none is contradictory. One piece of two rings or more has
/// each sector's frame whole. The same holds of what is read by the second rule, as controllers read.
pub fn own_sectors_are_right<R: Recording>()
    ensures pieces { (r : R) (track : TrackId) (written : WrittenTrack) →
        IsReadBy (R.sector_at r track) written →
        PiecesAreRight (R.sector_at r track) written }
    ensures two_rings { (r : R) (track : TrackId) (written : WrittenTrack) →
        IsReadBy (R.sector_at r track) written →
        TwoRingsHaveSectors (R.sector_at r track) written }
    ensures rewritten { (r : R) (track : TrackId) (written : WrittenTrack) →
        let sector = SectorStandsBy (R.header_at r track) (R.data_at r) in
        IsReadWithin START_ZEROS sector written →
        PiecesAreRightWithin sector written START_ZEROS × TwoRingsHaveSectors sector written }
{}

/// Of a track that was recovered in pieces of its ring, with erased stretches between them: each header that stands, of
/// whatever name, is that of one of the track's sectors, since so it is in a stretch of the ring between zeros.
pub fn no_others_in_pieces<R: Recording>()
    ensures pieces { (r : R) (track : TrackId) (ring : List Bool) →
        ((zeros from count behind : ℕ)
        → HasNoOtherBetweenZeros (R.named_at r) (R.header_at r track) ring zeros from count behind)
        →
        (first : RingPiece) (later : List RingPiece) →
        HasNoOther (R.named_at r) (R.header_at r track) (cells_of_ring_pieces ring first later) }
    ensures rings { (r : R) (track : TrackId) (bytes : List ℕ) (first : RingPiece) (later : List RingPiece)
        → R.has_track r track
        → AreSectors (R.sectors r track) (R.sector_size r) bytes
        → HasNoOther (R.named_at r) (R.header_at r track) (cells_of_ring_pieces (R.ring r track bytes) first later) }
{
    no_others::<R>()
}
