//! What the headers of a track of an IBM disk say by the disk's rate: of a captured one, and of what stands in any
//! cells. Definitions and laws; nothing here is called for what it does.
#![tactic(auto)]

mod laws;

pub use laws::{captured_tracks_have_own_names, standing_sectors_are_named};
