ghost use Rattle.std.specs.Prelude.{◌≡◌, ℕ, ◌+◌, ◌*◌, ◌^◌, ◌<◌, ◌≤◌, [], List, false, drop, length, IfNone, IfSome};
ghost use Rattle.std.specs.Prelude.{IsTrue};
ghost use Rattle.macintosh_gcr.specs.Coding.{AreSixBits};
ghost use Rattle.macintosh_gcr.specs.Sectors.{Hold, NibblesAt};

use crate::coding::{Plain, TAGS, VALUES, Values, plain_of};
use crate::layout::{DATA_SECTOR_PLACE, SECTOR_PLACE, SECTOR_SIZE, VALUES_PLACE};
use apple_nibbles::{BYTE_CELLS, DATA_BYTE, DATA_BYTE_PLACE, disk_byte_at, value_of};
use frame_law::{CellsFrom, SectorBuffer};

/// Whether the sync at the place opens data of the header's sector, and they hold bytes. Then the buffer, which was
/// empty, has them.
pub(crate) fn read_field(frame: &CellsFrom, sync: usize, buffer: &mut SectorBuffer) -> bool
    requires near { sync < 2 ^ 31 }
    requires whole { sync + 5656 ≤ length frame.now }
    requires empty { buffer.old.items ≡ [] }
    ensures good { IsTrue result → Hold frame.now sync buffer.new.items }
    ensures bad { result ≡ false → (bytes : List ℕ) → ¬ Hold frame.now sync bytes }
{
    if disk_byte_at(frame, sync + DATA_BYTE_PLACE) != DATA_BYTE {
        return false;
    }
    if disk_byte_at(frame, sync + DATA_SECTOR_PLACE) != disk_byte_at(frame, SECTOR_PLACE) {
        return false;
    }
    let Some(values) = values_from(frame, sync + VALUES_PLACE) else {
        return false;
    };
    let Some(plain) = plain_of(&values) else {
        return false;
    };
    take_content(&plain, buffer);
    true
}

/// The values whose nibbles stand one after another from the offset on. None where one of them is no nibble.
fn values_from(frame: &CellsFrom, from: usize) -> Option<Values>
    requires near { from < 2 ^ 32 }
    requires whole { from + 5624 ≤ length frame.now }
    ensures size { IfSome result (λ values. length values.items ≡ 703) }
    ensures fit { IfSome result (λ values. AreSixBits values.items) }
    ensures stand { IfSome result (λ values. NibblesAt frame.now from values.items) }
    ensures none { IfNone result
        ((values : List ℕ) → length values ≡ 703 → AreSixBits values → ¬ NibblesAt frame.now from values) }
{
    let mut values = Values::new();
    for index in 0..VALUES {
        values.push(value_of(disk_byte_at(frame, from + BYTE_CELLS * index))?);
    }
    Some(values)
}

/// Puts a sector's bytes into the buffer, which was empty: those after the tags.
fn take_content(plain: &[u8], buffer: &mut SectorBuffer)
    requires size { length plain.now ≡ 524 }
    requires empty { buffer.old.items ≡ [] }
    ensures { buffer.new.items ≡ drop 12 plain.now }
{
    for index in 0..SECTOR_SIZE as usize {
        buffer.push(plain[TAGS + index]);
    }
}
