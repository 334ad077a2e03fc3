//! The recording of the Macintosh's disks of 400 and 800 KB (Sony's drives, 6-and-2 GCR with three sums): 80 cylinders
//! of one head or two, 12 to 8 sectors of 512 bytes by zone.
#![tactic(auto)]

mod coding;
mod data_field;
mod header;
mod layout;
mod recording;
mod rows;
mod sums;

pub use recording::MacintoshGcr;
