//! A sink that takes few bytes at once.
ghost use Rattle.std.specs.Prelude.{Some};

use flux_base::{Failed, MemorySink, Sink};

/// A sink in memory of which a write takes at most so many bytes of a piece.
#[derive(Drop)]
pub struct ShortSink {
    pub sink: MemorySink,
    pub chunk: usize,
}

impl Sink for ShortSink {
    ghost faults = { λ s. s.sink.faults };

    ghost failed = { λ s. Some s.sink.faults };

    fn write(&mut self, piece: &[u8]) -> Result<usize, Failed> {
        let most = self.chunk.max(1).min(piece.len());
        self.sink.write(&piece[..most])
    }
}
