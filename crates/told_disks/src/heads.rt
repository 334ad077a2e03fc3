/// Which heads the headers of a disk name.
#[derive(Clone, Copy, Debug, PartialEq, Eq)]
pub enum NamedHeads {
    /// The drive's own.
    Own,
    /// On both heads the first.
    First,
    /// On each of two heads the other one.
    Changed,
}
