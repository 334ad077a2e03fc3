//! The inputs of which decoding a set promises something, spelled a second time: so many captures of each track, by
//! their numbers in one input, any of which may be the one that has a sector whole. There are no others. Definitions
//! and laws; nothing here is called for what it does.
#![tactic(auto)]

mod laws;

pub use laws::{disks_are_sets_of_one, sets_are_as_stated, sets_reach_each_bound};
