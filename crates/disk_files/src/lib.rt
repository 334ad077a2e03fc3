//! An image as files: for each track the file that other programs read, `trackCC.H.raw`, with the
//! track's stream behind an Info block.
#![tactic(auto)]

mod fault;
mod info;
mod laws;
mod room;
mod writing;

pub use fault::FilesFault;
pub use info::MOST_VERSION;
pub use laws::files_are_captures;
pub use room::FilesRoom;
pub use writing::write_disk_files;
