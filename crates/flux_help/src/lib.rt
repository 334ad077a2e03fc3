//! What the program says of itself: its commands, its formats and its exit codes, its version, and
//! which of its words are wrong.
#![tactic(auto)]

mod meanings;
mod nearest;
mod page;
mod texts;
mod unfit;
mod verb;
mod writing;
mod wrong_words;

pub use nearest::nearest_format;
pub use page::Page;
pub use texts::version_number;
pub use unfit::unfit_is_no_disk;
pub use verb::Verb;
pub use writing::write_page;
pub use wrong_words::write_wrong_words;
