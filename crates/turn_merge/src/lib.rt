//! What all readings of a sector, in all revolutions, say together. A book folds the readings of a
//! track as they come, and keeps no list of them.
#![tactic(auto)]

mod book;
mod clock;
mod fold;
mod others;
mod verdict;

pub use book::Book;
pub use clock::Clock;
pub use others::{MOST_TOLD, OtherTold, Others, data_are_known};
pub use verdict::{Place, Verdict};
