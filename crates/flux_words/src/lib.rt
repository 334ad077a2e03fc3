//! The words of the command line, without the program's name, and what they ask for.
#![tactic(auto)]

mod archive_words;
mod behind;
mod commands;
mod count;
mod dump_words;
mod g64_disk;
mod imd_words;
mod options;
mod sector_words;
mod seed;

pub use archive_words::{ArchiveAsked, DiskAsked};
pub use commands::{Command, Output, StreamsAsked, Way, command_of, words_ask_once};
pub use dump_words::DumpsAsked;
pub use g64_disk::G64Disk;
pub use imd_words::ImdAsked;
pub use options::Shown;
pub use sector_words::{ShowAsked, reports_name_them};
