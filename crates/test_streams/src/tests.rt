//! Streams from memory, and blocks into memory.
mod padding;
mod reading;
mod scp;
mod unpacked;
mod writing;

use flux_base::MemorySource;
use index_turns::TrackFlux;
use kryo_stream::{Intake, StreamBench, StreamFault, TrackFault, read_track};
use std::alloc::Global;
use std::process::Abort;
use std::test::Fail;

/// Two transitions in one turn: an Index, two Flux blocks, an Index, a StreamEnd, an End.
const ONE_TURN: &[u8] =
    b"\x0D\x02\x0C\0\0\0\0\0\0\0\0\0\0\0\0\0\x60\x60\x0D\x02\x0C\0\x02\0\0\0\x05\0\0\0\x18\0\0\0\
    \x0D\x03\x08\0\x02\0\0\0\0\0\0\0\x0D\x0D\x0D\x0D";

/// What reading a stream comes to: the answer, and the transitions and index times of the track.
struct Came {
    answer: Result<(), TrackFault>,
    times: &'static [u64],
    indexes: &'static [u64],
}

/// What `ONE_TURN` comes to.
const TURN: Came = Came {
    answer: Ok(()),
    times: &[96, 192],
    indexes: &[0, 197],
};

/// The first block needs bytes that the input does not have. After a fault the track is empty.
const TRUNCATED: Came = Came {
    answer: Err(TrackFault::Refused {
        block: 0,
        fault: StreamFault::Truncated,
    }),
    times: &[],
    indexes: &[],
};

/// An input: its front, so many bytes of one value, and its other parts. It comes in chunks of a size, and the reads of
/// some numbers fail.
#[derive(Clone, Copy)]
struct Input<'a> {
    front: &'a [u8],
    count: usize,
    byte: u8,
    parts: &'a [&'a [u8]],
    chunk: u32,
    failing: &'a [u64],
}

impl Input<'_> {
    fn bytes(&self, alloc: Global) -> Result<Vec<u8>, Fail> {
        let mut bytes = self.front.to_vec(alloc)?;
        bytes.resize(self.front.len().saturating_add(self.count), self.byte)?;
        for part in self.parts {
            bytes.extend_from_slice(part)?;
        }
        Ok(bytes)
    }
}

/// A reader, and what it reads from.
#[derive(Drop)]
struct Reader {
    source: MemorySource,
    intake: Intake,
    flux: TrackFlux,
    bench: StreamBench,
}

impl Reader {
    fn new(alloc: Global, input: &Input) -> Result<Reader, Fail> {
        let failing = input.failing.to_vec(alloc)?;
        let mut reader = Reader {
            source: MemorySource::new(input.bytes(alloc)?, input.chunk.max(1), failing),
            intake: Intake::new(alloc)?,
            flux: TrackFlux::new(alloc),
            bench: StreamBench::new(alloc),
        };
        reader.bench.reserve()?;
        reader.flux.reserve(2, 2)?;
        Ok(reader)
    }

    /// Reads the next stream.
    fn read(&mut self) -> Result<(), TrackFault> {
        read_track(
            &mut self.source,
            &mut self.intake,
            &mut self.flux,
            &mut self.bench,
        )
    }
}

/// Compares the transitions and index times of the stream that was read last.
fn holds(rt: &impl Abort, flux: &TrackFlux, wanted: &Came, what: &str, chunk: u32) {
    assert_eq!(rt;
        (flux.times(), flux.indexes()),
        (wanted.times, wanted.indexes),
        "{what} in chunks of {chunk}"
    );
}

/// Compares what reading a stream came to.
fn comes_to(
    rt: &impl Abort,
    answer: Result<(), TrackFault>,
    flux: &TrackFlux,
    wanted: &Came,
    what: &str,
    chunk: u32,
) {
    assert_eq!(rt; answer, wanted.answer, "{what} in chunks of {chunk}");
    holds(rt, flux, wanted, what, chunk);
}
