//! What captured disks are: streams that carry an image's written tracks, disturbed within the bounds, whole or beside
//! erased stretches. What is written of an image is one; and no header of another name is read in one. Definitions and
//! laws, for all formats; nothing here is called for what it does.
#![tactic(auto)]

mod laws;

pub use laws::{captures_have_no_others, written_disks_are_captured};
