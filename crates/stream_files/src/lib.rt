//! Joined streams as files: each stream as it came, named in their order by the tracks of a disk of one head or of
//! two.
#![tactic(auto)]

mod ahead;
mod fault;
mod heads;
mod laws;
mod room;
mod splitting;

pub use fault::SplitFault;
pub use heads::Heads;
pub use laws::files_are_joined;
pub use room::SplitRoom;
pub use splitting::split_streams;
