//! The memory for walks over the headers of streams.

use cell_bits::Cells;
use flux_base::Memory;
use flux_engine::MOST_CELLS;
use phase_loop::Loop;
use std::alloc::Global;
use std::marker::Model;

/// What a stream is recovered with: 18 MiB.
#[derive(Drop)]
pub struct WalkRoom {
    pub(crate) clock: Loop,
    pub(crate) cells: Cells,
}

impl Model for WalkRoom {
    ghost use Rattle.std.specs.Prelude.{◌≤◌};
    ghost use Rattle.cell_bits.specs.State.{room as room_in};
    ghost use Rattle.flux_engine.specs.Room.{MOST_CELLS};

    ghost Value = { Unit {0} };

    ghost view = { λ room. record {} };

    ghost invariant = { λ room. MOST_CELLS ≤ room_in room.cells };
}

impl WalkRoom {
    /// Takes it.
    pub fn reserve(alloc: Global) -> Result<WalkRoom, Memory> {
        let clock = Loop::new(alloc)?;
        let mut cells = Cells::new(alloc);
        cells.reserve(MOST_CELLS)?;
        Ok(WalkRoom { clock, cells })
    }
}
