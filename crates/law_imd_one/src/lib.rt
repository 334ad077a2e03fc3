//! That there is one file of ImageDisk, at most, of the files of dumps. Definitions and laws; nothing here is called
//! for what it does.
#![tactic(auto)]

mod laws;

pub use laws::found_files_are_one;
