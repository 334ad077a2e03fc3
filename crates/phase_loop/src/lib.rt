//! Clock recovery: the times of a track's transitions become counts of bit cells.
#![tactic(auto)]

mod in_step;
mod laws;
mod phase;
mod reciprocals;
mod recovery;
mod sizes;
mod start;
mod window;

pub use in_step::recover_in_step;
pub use laws::{disturbed_rings_are_recovered, steady_rings_are_recovered};
pub use phase::Loop;
pub use recovery::recover;
pub use sizes::cells_are_few;
pub use start::{Band, LoopStart};
