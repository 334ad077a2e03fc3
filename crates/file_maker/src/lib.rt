//! Files that are made: the trait [`FileMaker`], a file that is made whole, a maker in memory, and the paths of what is
//! made.
#![tactic(auto)]

mod maker;
mod memory;
mod path;
mod whole;

pub use maker::FileMaker;
pub use memory::{MadeFile, MemoryFile, MemoryMaker};
pub use path::{file_path, folder_path};
pub use whole::make_whole;
