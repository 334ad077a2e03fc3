ghost use Rattle.std.specs.Prelude.{ℕ, Bool, List};
ghost use Rattle.flux_base.specs.declared.header_name.HeaderName.{HeaderName};
ghost use Rattle.flux_base.specs.declared.track.TrackId.{TrackId};

use crate::recordings::DiskRecording;
use flux_base::TrackId;
use frame_law::Recording;

/// What a disk's recording means: the ghost members of [`Recording`], by which definitions name them.
pub trait Meaning {
    ghost has_track: { Self → TrackId → Type 0 };

    ghost header_at: { Self → TrackId → List Bool → ℕ → Type 0 };

    ghost sector_at: { Self → TrackId → List Bool → ℕ → List ℕ → Type 0 };

    ghost data_at: { Self → List Bool → ℕ → List ℕ → Type 0 };

    ghost named_at: { Self → List Bool → HeaderName → Type 0 };

    ghost is_name_of: { Self → TrackId → HeaderName → ℕ → Type 0 };

    ghost whole_data_of: { Self → List Bool → HeaderName → Type 0 };

    ghost ring: { Self → TrackId → List ℕ → List Bool };

    ghost sector_place: { Self → TrackId → ℕ → ℕ };

    ghost frame_cells: { Self → ℕ };

    ghost first_sector: { Self → ℕ };

    ghost sectors: { Self → TrackId → ℕ };

    ghost sector_size: { Self → ℕ };

    ghost ring_cells: { Self → TrackId → ℕ };
}

impl Meaning for DiskRecording {
    ghost has_track = { ⟦<DiskRecording as Recording>⟧.has_track };

    ghost header_at = { ⟦<DiskRecording as Recording>⟧.header_at };

    ghost sector_at = { ⟦<DiskRecording as Recording>⟧.sector_at };

    ghost data_at = { ⟦<DiskRecording as Recording>⟧.data_at };

    ghost named_at = { ⟦<DiskRecording as Recording>⟧.named_at };

    ghost is_name_of = { ⟦<DiskRecording as Recording>⟧.is_name_of };

    ghost whole_data_of = { ⟦<DiskRecording as Recording>⟧.whole_data_of };

    ghost ring = { ⟦<DiskRecording as Recording>⟧.ring };

    ghost sector_place = { ⟦<DiskRecording as Recording>⟧.sector_place };

    ghost frame_cells = { ⟦<DiskRecording as Recording>⟧.frame_cells };

    ghost first_sector = { ⟦<DiskRecording as Recording>⟧.first_sector };

    ghost sectors = { ⟦<DiskRecording as Recording>⟧.sectors };

    ghost sector_size = { ⟦<DiskRecording as Recording>⟧.sector_size };

    ghost ring_cells = { ⟦<DiskRecording as Recording>⟧.ring_cells };
}
