//! The file that is written of a Commodore disk's image, spelled a second time by the places of its bytes: the
//! signature, the tables of offsets and speeds, and of each track its size, the bits of its ring, and what fills its
//! room. Definitions and a law; nothing here is called for what it does.
#![tactic(auto)]

mod laws;

pub use laws::written_files_are_as_stated;
