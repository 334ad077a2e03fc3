use disk_summary::Summary;
use dump_identity::Candidate;
use flux_base::MemorySink;

/// The texts of a disk, in memory.
#[derive(Drop)]
pub(crate) struct HeldDisk {
    pub summary: Summary,
    pub image: MemorySink,
    pub report: MemorySink,
    pub picture: MemorySink,
    /// The summary's line.
    pub line: MemorySink,
}

/// A disk that was found, and whether a file failed as it was looked for.
#[derive(Clone, Copy)]
pub(crate) struct FoundDisk {
    pub candidate: Candidate,
    pub failed: bool,
}
