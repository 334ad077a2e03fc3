//! The headers of any IBM disk, whatever sectors its tracks should have: by the recording, the cell and the ring of a
//! rate, each header that a stream has is noted by its name, with the whole data behind it and their mark.
#![tactic(auto)]

mod data;
mod rates;
mod room;
mod walk;

pub use room::WalkRoom;
pub use walk::note_names;
