//! What every crate of `flux` stands on: the traits of the outside, objects of the outside that live
//! in memory, the ids of tracks, what headers name, the program's words and its exit status.
#![tactic(auto)]

mod bounds;
mod header_name;
mod memory;
mod outside;
mod status;
mod track;
mod word;
mod writing;

pub use bounds::{MOST_SECTOR_BYTES, MOST_TRACK_BYTES};
pub use header_name::HeaderName;
pub use memory::{CountingSink, MemorySink, MemorySource, PlainSource, copy_front};
pub use outside::{Failed, Memory, Sink, Source};
pub use status::Status;
pub use track::TrackId;
pub use word::Word;
pub use writing::write_whole;
