//! What dumps come to that capture a disk's tracks and are read together: the disk, or what is told of it is never
//! wrong unsaid. Definitions and a law, for all formats; nothing here is called for what it does.
#![tactic(auto)]

mod laws;

pub use laws::captured_dumps_are_read;
