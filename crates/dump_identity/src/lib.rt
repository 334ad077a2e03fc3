//! Which disk a dump is of: its files are read as tracks of each disk that has a name, and once more as tracks of the
//! disks by numbers that they tell, and what each disk comes to is said.
#![tactic(auto)]

mod candidate;
mod finding;
mod identifying;
mod identity;
mod laws;
mod lines;
mod reading;
mod room;
mod tried;
mod trying;

pub use candidate::Candidate;
pub use finding::Finding;
pub use identifying::identify;
pub use identity::Identity;
pub use laws::{complete_is_read_whole, identities_are_one, lines_are_of_all_files};
pub use room::IdentityRoom;
