use crate::finding::Finding;

/// What is known of a dump that was read as each disk.
#[derive(Clone, Copy, Debug, PartialEq, Eq)]
pub struct Identity {
    /// The disk that explains it best, if one has a good sector.
    pub best: Option<Finding>,
    /// Whether one of its files failed as it was opened or read.
    pub failed: bool,
    /// Whether headers name other heads than the drive's.
    pub foreign: bool,
}
