use sector_images::Format;
use track_shelf::Stepping;

/// A disk that a dump may be of: one of this format, captured with these steps.
#[derive(Clone, Copy, Debug, PartialEq, Eq)]
pub struct Candidate {
    pub stepping: Stepping,
    pub format: Format,
}
