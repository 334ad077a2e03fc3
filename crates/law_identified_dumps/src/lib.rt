//! What is said of a dump whose files capture an image of a disk by its numbers: the disk is among those that are
//! tried, with every sector good, or one that has a name covers it. Definitions and a law; nothing here is called for
//! what it does.
#![tactic(auto)]

mod laws;

pub use laws::captured_disks_are_named;
