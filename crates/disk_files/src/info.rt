//! The Info block that stands in front of each file.

ghost use Rattle.std.specs.Prelude.{◌≡◌, ◌+◌, ◌++◌, ◌≤◌, length};
ghost use Rattle.disk_files.specs.Files.{MOST_VERSION, info_block};

use arrayvec::ArrayVec;

/// The most bytes of a version.
pub const MOST_VERSION: usize = 64;

/// The most bytes of a block, and of its text.
const ROOM: usize = 192;

/// An Info block.
pub(crate) type InfoBlock = ArrayVec<u8, ROOM>;

/// The block: who wrote the stream, and in hertz the clocks of its transitions and of its index counter.
#[tactic(auto, unfolding(crate::specs::Files::info_text))]
pub(crate) fn info_block(version: &str) -> InfoBlock
    requires { length version.now ≤ MOST_VERSION }
    ensures { result.items ≡ info_block version.now }
{
    let mut text = InfoBlock::new();
    put(&mut text, b"name=flux, version=");
    put(&mut text, version.as_bytes());
    put(&mut text, b", sck=24027428.5714285, ick=3003428.5714285\0");
    let mut block = InfoBlock::new();
    put(&mut block, &[0x0D, 4, text.len() as u8, 0]);
    put(&mut block, &text);
    block
}

/// Appends bytes, for which there is room.
fn put(block: &mut InfoBlock, bytes: &[u8])
    requires { length block.old.items + length bytes.now ≤ 192 }
    ensures { block.new.items ≡ block.old.items ++ bytes.now }
{
    match block.try_extend_from_slice(bytes) {
        Ok(()) => {}
        Err(_) => unreachable!(),
    }
}
