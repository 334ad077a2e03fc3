ghost use Rattle.std.specs.Prelude.{◌≡◌, ℕ, ◌+◌, ◌^◌, ◌<◌, ◌≤◌, [], List, false, length, IsTrue};
ghost use Rattle.amiga_mfm.specs.Sectors.{Hold};

use crate::layout::{DATA_CHECK, DATA_HALVES, HALF_CELLS};
use crate::longs::{check_at, read_long, take_data};
use frame_law::{CellsFrom, SectorBuffer};

/// Whether the data, which begin at the place, hold bytes. Then the buffer, which was empty, has them.
pub(crate) fn read_content(frame: &CellsFrom, place: usize, buffer: &mut SectorBuffer) -> bool
    requires after { 480 ≤ place }
    requires near { place < 2 ^ 31 }
    requires whole { place + 8192 ≤ length frame.now }
    requires empty { buffer.old.items ≡ [] }
    ensures good { IsTrue result → Hold frame.now place buffer.new.items }
    ensures bad { result ≡ false → (bytes : List ℕ) → ¬ Hold frame.now place bytes }
{
    let check = read_long(frame, DATA_CHECK, HALF_CELLS);
    if check != check_at(frame, place, DATA_HALVES) {
        return false;
    }
    take_data(frame, place, buffer);
    true
}
