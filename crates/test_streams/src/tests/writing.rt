//! Blocks as they are spelled, and a sink that fails.
ghost use Rattle.std.specs.Prelude.{IsTrue};
ghost use Rattle.kryo_stream.specs.Spelling.{HasNopBytes};

use flux_base::{Failed, MemorySink};
use kryo_stream::{Block, write_block};
use std::process::Abort;
use std::test::Fail;

/// Blocks, and their spelling in as few bytes as fit.
const SPELLED: &[(Block, &[u8])] = &[
    (Block::Flux { ticks: 0 }, b"\0\0"),
    (Block::Flux { ticks: 0x0D }, b"\0\x0D"),
    (Block::Flux { ticks: 0x0E }, b"\x0E"),
    (Block::Flux { ticks: 0xFF }, b"\xFF"),
    (Block::Flux { ticks: 0x100 }, b"\x01\0"),
    (Block::Flux { ticks: 0x7FF }, b"\x07\xFF"),
    (Block::Flux { ticks: 0x800 }, b"\x0C\x08\0"),
    (Block::Flux { ticks: 0xFFFF }, b"\x0C\xFF\xFF"),
    (Block::Overflow, b"\x0B"),
    (Block::Nop { bytes: 1 }, b"\x08"),
    (Block::Nop { bytes: 3 }, b"\x0A\0\0"),
    (
        Block::Index {
            position: 2,
            sample: 100,
            counter: 16396,
        },
        b"\x0D\x02\x0C\0\x02\0\0\0\x64\0\0\0\x0C\x40\0\0",
    ),
    (
        Block::StreamInfo {
            position: 0x01020304,
            time: 5,
        },
        b"\x0D\x01\x08\0\x04\x03\x02\x01\x05\0\0\0",
    ),
    (
        Block::StreamEnd {
            position: 4,
            code: 0,
        },
        b"\x0D\x03\x08\0\x04\0\0\0\0\0\0\0",
    ),
    (Block::Info { length: 2 }, b"\x0D\x04\x02\0  "),
    (Block::End, b"\x0D\x0D\x0D\x0D"),
];

/// Whether a Nop has 1 to 3 bytes.
fn has_nop_bytes(block: &Block) -> bool
    ensures { IsTrue result → HasNopBytes block.now }
{
    match *block {
        Block::Nop { bytes } => bytes >= 1 && bytes <= 3,
        _ => true,
    }
}

/// Compares what a block appends to a sink.
fn spells(rt: &impl Abort, sink: &mut MemorySink, block: &Block, spelled: &[u8]) {
    let before = sink.bytes().len();
    assert!(rt; has_nop_bytes(block));
    assert_eq!(rt; write_block(block, sink), Ok(()));
    assert_eq!(rt; sink.bytes().get(before..), Some(spelled), "of {block:?}");
}

#[test]
fn blocks_are_spelled_one_after_another(rt: HostRuntime) -> Result<(), Fail> {
    let mut sink = MemorySink::new(rt.alloc(), 128, Vec::new(rt.alloc()))?;
    for (block, spelled) in SPELLED {
        spells(&rt, &mut sink, block, spelled);
    }
    Ok(())
}

// A long text goes out in pieces, of which the third fails.
#[test]
fn a_failed_write_leaves_a_prefix(rt: HostRuntime) -> Result<(), Fail> {
    let mut sink = MemorySink::new(rt.alloc(), 1000, vec![in rt.alloc(); 2]?)?;
    let answer = write_block(&Block::Info { length: 700 }, &mut sink);
    assert_eq!(rt; (answer, sink.bytes().len()), (Err(Failed), 260));
    Ok(())
}
