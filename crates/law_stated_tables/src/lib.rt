//! The tables of formats spelled a second time, from their standards: what has a name has these
//! numbers, each ring takes a turn of a drive, and there are no other words. Definitions and laws;
//! nothing here is called for what it does.
//!
//! So a change of one number in the tables of `ibm_disks`, `disk_zones` or `sector_images`, made in code and
//! definition alike, breaks a law here.
#![tactic(auto)]

mod laws;

pub use laws::{
    names_are_stated, numbers_are_stated, places_are_stated, tracks_take_a_turn, words_are_stated,
};
