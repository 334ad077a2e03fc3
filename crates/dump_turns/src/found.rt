//! What is found of a file.

use sector_report::Passed;

/// The revolutions of a file, between its first index moment and its last. All times are in ticks.
#[derive(Clone, Copy, Debug, PartialEq, Eq)]
pub struct FileTurns {
    /// The file's bytes, of which at most 8388608 are counted; of an SCP file those of the stream that the track
    /// stands for.
    pub bytes: u32,
    pub transitions: u32,
    /// How many revolutions there are: one at least.
    pub turns: u32,
    /// The shortest of them.
    pub least: u64,
    /// The longest of them.
    pub greatest: u64,
    /// All of them together.
    pub ticks: u64,
}

/// What is found of a file: why it is passed over, or its revolutions.
#[derive(Clone, Copy, Debug, PartialEq, Eq)]
pub enum Found {
    PassedOver(Passed),
    Read(FileTurns),
}
