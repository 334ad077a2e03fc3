//! What dumps have of a disk's tracks, spelled a second time: files by their paths, of which some may be missing or
//! damaged, and streams by the bytes with which files begin, each a capture of `law_stated_captures`, whole or in
//! pieces. Nothing else is asked of them. Definitions and laws; nothing here is called for what it does.
#![tactic(auto)]

mod laws;

pub use laws::{dumps_are_as_stated, dumps_reach_each_bound};
