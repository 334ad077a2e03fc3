ghost use Rattle.std.specs.Prelude.{◌≡◌};

use crate::block::{Block, SpelledBlock};

/// What stands before a block of a stream.
#[derive(Clone, Copy)]
pub struct Before {
    /// The bytes of all blocks.
    pub offset: u32,
    /// The bytes of the in-stream blocks, which is the stream position.
    pub counted: u32,
    /// Whether a StreamEnd is among the blocks.
    pub ended: bool,
    /// The ticks of all blocks.
    pub time: u64,
}

impl Before {
    ghost use Rattle.kryo_stream.specs.inside.Tally.{at_start, behind, IsWithin, MayFollow};

    /// What stands before the first block: nothing.
    pub fn start() -> Before
        ensures { result ≡ at_start }
    {
        Before {
            offset: 0,
            counted: 0,
            ended: false,
            time: 0,
        }
    }

    /// What stands before the next block.
    #[inline(always)]
    pub fn behind(&self, piece: &SpelledBlock) -> Before
        requires within { IsWithin self.now }
        requires follows { MayFollow self.now piece.now }
        ensures value { result ≡ behind self.now piece.now }
        ensures within { IsWithin (behind self.now piece.now) }
    {
        let bytes = piece.bytes as u32;
        let next = Before {
            offset: self.offset + bytes,
            ..*self
        };
        match piece.block {
            Block::Flux { ticks } => Before {
                counted: self.counted + bytes,
                time: self.time + u64::from(ticks),
                ..next
            },
            Block::Overflow => Before {
                counted: self.counted + bytes,
                time: self.time + 65536,
                ..next
            },
            Block::Nop { .. } => Before {
                counted: self.counted + bytes,
                ..next
            },
            Block::StreamEnd { .. } => Before {
                ended: true,
                ..next
            },
            Block::StreamInfo { .. } | Block::Index { .. } | Block::Info { .. } | Block::End =>
                next,
        }
    }
}
