//! What a file of ImageDisk has that is made of captured tracks of an IBM disk, and of the sectors that `read` finds.
//! Definitions and laws; nothing here is called for what it does.
#![tactic(auto)]

mod laws;

pub use laws::{captured_tracks_are_found, read_sectors_are_found};
