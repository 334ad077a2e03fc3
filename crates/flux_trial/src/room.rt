ghost use Rattle.std.specs.Prelude.{◌≡◌, IfOk};

use crate::kept::Kept;
use crate::source::TrialSource;
use flux_base::Memory;
use flux_engine::DiskRoom;
use sector_images::Format;
use std::alloc::Global;
use std::marker::Model;

/// All that a trial of one format needs: no answer of a call on it is for want of memory.
///
/// Contracts see the format, and whether a trial was run in it.
#[derive(Drop)]
pub struct TrialRoom {
    pub(crate) format: Format,
    pub(crate) disk: DiskRoom,
    pub(crate) source: TrialSource,
    pub(crate) image: Kept,
    pub(crate) used: bool,
}

impl Model for TrialRoom {
    ghost use Rattle.std.specs.Prelude.{◌≡◌, [], false};
    ghost use Rattle.flux_engine.specs.Room.{fresh};
    ghost use Rattle.flux_trial.specs.Room.{TrialState};

    ghost Value = { TrialState };

    ghost view = { λ a. record { format = a.format; used = a.used } };

    ghost invariant = { λ a.
        a.used ≡ false → (a.source.format ≡ a.format) × (a.disk ≡ fresh a.format) × (a.image ≡ []) };
}

impl TrialRoom {
    ghost use Rattle.std.specs.Prelude.{false};

    /// Takes all memory that a trial of the format needs, less than 128 MiB.
    pub fn reserve(alloc: Global, format: Format) -> Result<TrialRoom, Memory>
        ensures { IfOk result (λ room. room ≡ record { format = format; used = false }) }
    {
        // The largest last, so that there is little to give back where memory lacks.
        let image = Kept::reserve(alloc)?;
        let source = TrialSource::reserve(alloc, format)?;
        let disk = DiskRoom::reserve(alloc, format)?;
        Ok(TrialRoom {
            format,
            disk,
            source,
            image,
            used: false,
        })
    }
}
