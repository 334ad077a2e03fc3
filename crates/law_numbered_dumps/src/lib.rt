//! What a dump comes to whose files capture an image of a disk by its numbers: the disk is found by these numbers, and
//! read as it every sector is called good. Definitions and laws, for all rates and numbers; nothing here is called for
//! what it does.
#![tactic(auto)]

mod laws;

pub use laws::{captured_disks_are_found, captured_dumps_are_called_good};
