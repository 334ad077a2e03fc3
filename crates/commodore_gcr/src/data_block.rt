ghost use Rattle.std.specs.Prelude.{◌≡◌, ℕ, ◌+◌, ◌^◌, ◌<◌, ◌≤◌, [], List, false, length, IfNone, IfSome, IsTrue};
ghost use Rattle.frame_law.specs.Frames.{IsFirstSync, NoSync};
ghost use Rattle.commodore_gcr.specs.Sectors.{Hold, IsSync};

use crate::fields::{stands_at, take_bytes};
use crate::layout::{CODING, CONTENT_CHECK_PLACE, CONTENT_PLACE, DATA_BYTE, SYNC_ONES};
use check_values::xor_bytes;
use frame_law::{CellsFrom, SectorBuffer};

/// The first sync at a place from `from` to below `to`.
pub(crate) fn next_sync(frame: &CellsFrom, from: usize, to: usize) -> Option<usize>
    requires order { from ≤ to }
    requires near { to < 2 ^ 32 }
    ensures first { IfSome result (λ sync. IsFirstSync (IsSync frame.now) from to sync) }
    ensures none { IfNone result (NoSync (IsSync frame.now) from to) }
{
    frame.find_word(from, to, CODING.sync, CODING.sync_cells)
}

/// Whether the block after the sync at the place is one of data. Then the buffer, which was empty, has their
/// bytes.
pub(crate) fn read_block(frame: &CellsFrom, sync: usize, buffer: &mut SectorBuffer) -> bool
    requires near { sync < 2 ^ 31 }
    requires whole { sync + 2590 ≤ length frame.now }
    requires empty { buffer.old.items ≡ [] }
    ensures good { IsTrue result → Hold frame.now sync buffer.new.items }
    ensures bad { result ≡ false → (bytes : List ℕ) → ¬ Hold frame.now sync bytes }
{
    if !stands_at(frame, sync + SYNC_ONES, DATA_BYTE) {
        return false;
    }
    if !take_bytes(frame, sync + CONTENT_PLACE, buffer) {
        return false;
    }
    let check = xor_bytes(buffer.as_slice());
    stands_at(frame, sync + CONTENT_CHECK_PLACE, check)
}
