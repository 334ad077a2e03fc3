use dump_identity::Candidate;
use flux_base::Word;

/// Of which disk all is to be kept, and where.
#[derive(Clone, Copy)]
pub struct ArchiveAsked<'a> {
    /// The disk and its steps. None: those of the first dump that is of a disk.
    pub disk: Option<Candidate>,
    /// The folder that is made.
    pub folder: &'a Word,
    /// The dumps by their names: each is a folder, or one of its files.
    pub dumps: &'a [Word],
}
