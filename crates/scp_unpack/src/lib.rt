//! The tracks of an SCP file as files of streams: each track as the stream that it stands for, named by its number.
#![tactic(auto)]

mod fault;
mod lines;
mod room;
mod track;
mod unpacking;

pub use fault::UnpackFault;
pub use lines::refused_scp_line;
pub use room::UnpackRoom;
pub use track::track_of;
pub use unpacking::{Unpacked, unpack};
