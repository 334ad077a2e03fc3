//! The recording of the disks of Commodore's drives: group code (GCR), which writes a nibble as five cells, in sectors
//! of 256 bytes. The 1541 and the 1571 have up to 40 cylinders with tracks of 17 to 21 of them, the 8050 and the 8250
//! have 77 with tracks of 23 to 29.
#![tactic(auto)]

mod coding;
mod data_block;
mod drive;
mod fields;
mod header_block;
mod layout;
mod recording;
mod rows;
mod zones;

pub use drive::CommodoreDrive;
pub use recording::CommodoreGcr;
