//! The standard streams as a source and two sinks, and the files of the system as a shelf, and as a maker of files.
#![tactic(auto)]

mod standard;
mod std_maker;
mod std_shelf;

pub use standard::{StdSink, StdSource};
pub use std_maker::StdMaker;
pub use std_shelf::StdShelf;
