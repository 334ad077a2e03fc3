//! All that is kept of a disk of its dumps: its image, the report, a picture and a summary, as files of a folder that is
//! made for them. All four are made in memory, and the files one after another behind that.
#![tactic(auto)]

mod archiving;
mod asked;
mod fault;
mod finding;
mod held;
mod kept_writer;
mod making;
mod names;
mod reading;

pub use archiving::archive;
pub use asked::ArchiveAsked;
pub use fault::ArchiveFault;
pub use names::{KeptFile, file_name};
