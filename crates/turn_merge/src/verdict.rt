use crate::clock::Clock;

/// A place in the cells of a track that a clock recovered of one of the streams that capture it.
#[derive(Clone, Copy, Debug, PartialEq, Eq)]
pub struct Place {
    /// The number of the stream among those that capture the track, from 0.
    pub capture: u8,
    /// The clock by which its cells were recovered.
    pub clock: Clock,
    /// The revolution of this stream, which is the number of index times at or before the place's time. Revolution 0 is
    /// the part before the first index.
    pub turn: u32,
    /// The number of the cell in the list of all these cells, from 0.
    pub cell: u64,
}

/// What all readings of a sector say together. `good` and `bad` are the numbers of readings with and
/// without data that match their check value.
#[derive(Clone, Copy, Debug, PartialEq, Eq)]
pub enum Verdict {
    /// There is a good reading, and all good ones hold the same data. `first` is the first good one.
    Good {
        good: u64,
        bad: u64,
        first: Place,
    },
    /// Two good readings differ. `first` is the first good one, `other` the first good one that differs
    /// from it.
    Contradictory {
        good: u64,
        bad: u64,
        first: Place,
        other: Place,
    },
    /// There is a bad reading and no good one. `first` is the first bad one.
    Bad {
        bad: u64,
        first: Place,
    },
    /// There is no reading.
    Missing,
}
