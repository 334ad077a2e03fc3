//! Division of a window's totals by a table of reciprocals, several times as fast as a division.
ghost use Rattle.std.specs.Prelude.{◌≡◌, ◌*◌, ◌/◌, ◌≤◌};
ghost use Rattle.phase_loop.specs.Reciprocals.{AreReciprocals};
ghost use Rattle.phase_loop.specs.inside.Window.{WIDEST};

use std::alloc::{AllocError, Global};

/// The reciprocals of 1 to 2048, each 2^40 over the number, rounded up past it.
#[derive(Drop)]
pub(crate) struct Reciprocals {
    table: Vec<u64>,
    ghost exact: { AreReciprocals table.items },
}

/// The largest divisor, 64 intervals of 32 cells.
const LARGEST: u64 = 2048;

impl Reciprocals {
    pub(crate) fn new(alloc: Global) -> Result<Reciprocals, AllocError> {
        let mut table = Vec::with_capacity(alloc, LARGEST as usize)?;
        for before in 0..LARGEST {
            table.push((1 << 40) / (before + 1) + 1)?;
        }
        Ok(Reciprocals { table })
    }

    /// The quotient, rounded down. The bounds are such that the rounding of the reciprocal does not show.
    pub(crate) fn quotient(&self, total: u64, count: u64) -> u64
        requires total { total ≤ 64 * WIDEST }
        requires least { 64 ≤ count }
        requires largest { count ≤ 2048 }
        ensures { result ≡ total / count }
    {
        let reciprocal = self.table[count as usize - 1];
        (total * reciprocal) >> 40
    }

    /// The quotient of so many ticks in fine units, rounded down.
    pub(crate) fn quotient_of_ticks(&self, ticks: u64, count: u64) -> u64
        requires ticks { 1024 * ticks ≤ 64 * WIDEST }
        requires least { 64 ≤ count }
        requires largest { count ≤ 2048 }
        ensures { result ≡ 1024 * ticks / count }
    {
        let reciprocal = self.table[count as usize - 1];
        (ticks * reciprocal) >> 30
    }
}
