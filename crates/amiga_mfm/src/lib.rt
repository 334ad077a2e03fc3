//! The recording of Amiga disks (Amiga trackdisk): MFM, 80 cylinders of two heads, 11 or 22 sectors of 512 bytes on
//! each track.
#![tactic(auto)]

mod data_field;
mod half;
mod header;
mod layout;
mod longs;
mod recording;
mod rows;

pub use recording::AmigaMfm;
