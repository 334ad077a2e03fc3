//! What data are that were written: no deleted ones.

ghost use Rattle.std.specs.Prelude.{◌≡◌, ℕ, ◌+◌, List, drop};
ghost use Rattle.cell_bits.specs.Bytes.{data_byte};
ghost use Rattle.flux_base.specs.declared.track.TrackId.{TrackId};
ghost use Rattle.ibm_disks.specs.Numbers.{size_of};
ghost use Rattle.ibm_fields.specs.Fields.{DATA_BYTE};
ghost use Rattle.ibm_mfm.specs.Disks.{IsMfmTrack};
ghost use Rattle.ibm_mfm.specs.Sectors.{FIRST_BYTE_PLACE};
ghost use Rattle.track_rings.specs.OwnSectors.{between_zeros};
ghost use Rattle.track_rings.specs.Rings.{AreSectors};

use crate::recording::IbmMfm;
use frame_law::{Recording, frames_have_own_cells};

/// Data that stand by the second rule after a sector's header, in any stretch of a track's repeated ring between zeros,
/// have the mark of data, FB: deleted data stand nowhere there.
pub fn own_data_are_not_deleted()
    ensures { (r : IbmMfm) (track : TrackId) (bytes : List ℕ) (zeros from count behind place s at : ℕ) (xs : List ℕ)
        → IsMfmTrack r track → AreSectors r.numbers.sectors (size_of r.numbers.size) bytes
        → let recording = ⟦<IbmMfm as Recording>⟧ in
        let cells = drop place (between_zeros (recording.ring r track bytes) zeros from count behind) in
        recording.header_at r track cells s → recording.data_at r cells at xs
        → data_byte cells (at + FIRST_BYTE_PLACE) ≡ DATA_BYTE }
{
    frames_have_own_cells::<IbmMfm>()
}
