//! The program's one call [`run`], and what it does for each of the words that it is asked by; with it the adapters
//! over the standard streams (`std_streams`).
#![tactic(auto)]

mod archive;
mod empty;
mod endings;
mod files;
mod files_told;
mod folder;
mod identity;
mod imd;
mod imd_law;
mod laws;
mod noted;
mod output_told;
mod planned;
mod program;
mod read;
mod shelf_task;
mod task;
mod turns;
mod unpack;

pub use imd_law::imd_outcomes_are_one;
pub use laws::{
    identity_outcomes_are_one, info_outcomes_are_one, outcomes_are_one, read_outcomes_are_one,
    sector_outcomes_are_one,
};
pub use noted::notes_are_one;
pub use program::run;
pub use std_streams::{StdMaker, StdShelf, StdSink, StdSource};
