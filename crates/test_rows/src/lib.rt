//! What tests of whole runs are made of: the streams of disks, what they come to, put together line by line from the
//! formats' numbers, and runs of the program over objects in memory, whose answers are compared with it.
//!
//! Tests alone call it, in the crates above, and its calls promise nothing but to be safe.
#![tactic(auto)]

mod disk;
mod dump;
mod runs;
mod short_sink;
mod streams;
mod text;

pub use disk::{ACORN_DFS_40, Disk, IBM_360, IBM_720, IBM_3740};
pub use dump::{Dump, short_dump};
pub use runs::{
    Ended, Files, Mismatch, Run, RunPart, Want, decode, decode_folder, decode_set, end_of, gives,
    is_cut, report, turns,
};
pub use short_sink::ShortSink;
pub use streams::{SHORT, content_of, ring_of, short_streams};
pub use text::{first_bytes, first_lines, first_lines_and};
