//! The track files of dumps, as they lie on the disk: the trait [`Shelf`], a shelf in memory, the names and the paths
//! of the files, what lies under the name of a dump, and the line for a file that is missing.
#![tactic(auto)]

mod kind;
mod laws;
mod memory;
mod names;
mod path;
mod scp;
mod shelf;
mod stepping;

pub use kind::{DumpKind, Prefix};
pub use laws::{files_name_dumps, folder_paths_tell};
pub use memory::{MemoryShelf, ShelfFile};
pub use names::{file_name, missing_line};
pub use path::{Path, TrackPath, is_scp, names_file};
pub use shelf::Shelf;
pub use stepping::Stepping;
