//! What is gathered of the streams of a track.

use arrayvec::ArrayVec;
use sector_report::Passed;
use turn_merge::{Book, Others};

/// A stream of a track that was passed over.
#[derive(Clone, Copy, Debug, PartialEq, Eq)]
pub struct PassedStream {
    /// Its number among those of the track, from 0.
    pub capture: u8,
    pub why: Passed,
}

impl Default for PassedStream {
    fn default() -> Self {
        PassedStream {
            capture: 0,
            why: Passed::Absent,
        }
    }
}

/// The streams of a track that were passed over, of the at most 16 that it has.
pub type PassedStreams = ArrayVec<PassedStream, 16>;

/// What was gathered of a track.
#[derive(Drop)]
pub struct Gathered {
    /// The readings of its sectors.
    pub book: Book,
    /// The streams that were passed over, in order.
    pub passed: PassedStreams,
    /// The headers that name none of its sectors.
    pub others: Others,
}
