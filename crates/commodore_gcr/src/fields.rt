ghost use Rattle.std.specs.Prelude.{◌≡◌, ℕ, ◌+◌, ◌^◌, ◌<◌, ◌≤◌, [], List, false, length, IfNone, IfSome, IsTrue, ◌↔◌};
ghost use Rattle.commodore_gcr.specs.Coding.{ByteAt, BytesAt};

use crate::coding::{coded, decoded};
use crate::layout::{BYTE_CELLS, SECTOR_SIZE};
use frame_law::{CellsFrom, SectorBuffer};

/// The byte whose ten cells stand at the offset. None where they are not two codes.
pub(crate) fn byte_at(frame: &CellsFrom, offset: usize) -> Option<u8>
    requires { offset + 10 ≤ length frame.now }
    ensures byte { IfSome result (λ byte. ByteAt frame.now offset byte) }
    ensures none { IfNone result ((byte : ℕ) → ¬ ByteAt frame.now offset byte) }
{
    decoded(frame.word_at(offset, BYTE_CELLS))
}

/// Whether the ten cells of this byte stand at the offset.
pub(crate) fn stands_at(frame: &CellsFrom, offset: usize, byte: u8) -> bool
    requires { offset < 2 ^ 32 }
    ensures { IsTrue result ↔ ByteAt frame.now offset byte }
{
    frame.stands_at(offset, coded(byte), BYTE_CELLS)
}

/// How many bytes are taken from the cells at once.
const THREE: usize = 3;

/// The cells of as many bytes, which lie in one word.
const THREE_CELLS: u8 = 30;

/// The three bytes whose thirty cells stand at the offset. None where they are not six codes.
#[inline(always)]
fn three_at(frame: &CellsFrom, offset: usize) -> Option<[u8; 3]>
    requires { offset + 30 ≤ length frame.now }
    ensures size { IfSome result (λ bytes. length bytes ≡ 3) }
    ensures bytes { IfSome result (λ bytes. BytesAt frame.now offset bytes) }
    ensures none { IfNone result ((bytes : List ℕ) → length bytes ≡ 3 → ¬ BytesAt frame.now offset bytes) }
{
    let cells = frame.word_at(offset, THREE_CELLS);
    Some([
        decoded(cells / 1_048_576)?,
        decoded(cells / 1024 % 1024)?,
        decoded(cells % 1024)?,
    ])
}

/// Whether a sector's 256 bytes stand at the offset. Then the buffer, which was empty, has them.
pub(crate) fn take_bytes(frame: &CellsFrom, offset: usize, buffer: &mut SectorBuffer) -> bool
    requires empty { buffer.old.items ≡ [] }
    requires near { offset < 2 ^ 32 }
    requires whole { offset + 2560 ≤ length frame.now }
    ensures size { IsTrue result → length buffer.new.items ≡ 256 }
    ensures bytes { IsTrue result → BytesAt frame.now offset buffer.new.items }
    ensures none { result ≡ false → (bytes : List ℕ) → length bytes ≡ 256 → ¬ BytesAt frame.now offset bytes }
{
    let groups = SECTOR_SIZE as usize / THREE;
    for group in 0..groups {
        let Some(three) = three_at(frame, offset + THREE_CELLS as usize * group) else {
            return false;
        };
        buffer.push(three[0]);
        buffer.push(three[1]);
        buffer.push(three[2]);
    }
    let Some(last) = byte_at(frame, offset + THREE_CELLS as usize * groups) else {
        return false;
    };
    buffer.push(last);
    true
}
