//! The other inputs of which the program promises something, spelled a second time: the files of a folder, by the
//! places of their bytes when they are joined, the paths of a dump's files, byte by byte, and the numbers of trials
//! without a hole. There are no others. Definitions and laws; nothing here is called for what it does.
#![tactic(auto)]

mod laws;

pub use laws::{folders_are_as_stated, paths_are_as_stated, seeds_are_as_stated};
