//! MFM, the coding of double density disks (IBM System 34), also with the marks that break its rule for clock
//! cells. All recordings that are made of bytes and such marks are written by it.
#![tactic(auto)]

mod coding;
mod pushes;
mod symbol;

pub use coding::CODING;
pub use pushes::{push_bytes, push_run, push_symbol};
pub use symbol::Symbol;
