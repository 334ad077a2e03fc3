use crate::verb::Verb;

/// What the program can say of itself.
#[derive(Clone, Copy, Debug, PartialEq, Eq)]
pub enum Page {
    /// The commands, the formats and the exit codes, a line for each.
    Help,
    /// The version, in one line.
    Version,
    /// One command, with an example.
    About(Verb),
}
