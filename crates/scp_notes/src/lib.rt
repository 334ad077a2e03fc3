//! What is told of dumps that are SCP files beside what their streams tell: that the sum of a file's bytes is not the
//! one that it names, and which tracks end early, of which the revolutions before that are read.
#![tactic(auto)]

mod dumps;
mod early;
mod file;
mod lines;
mod reading;
mod sums;

pub use dumps::note_dumps;
pub use lines::sums_line;
pub use sums::{Sums, find_sums};
