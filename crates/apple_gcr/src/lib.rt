//! The recording of Apple DOS 3.3 and ProDOS: 6-and-2 GCR, 35 tracks of 16 sectors of 256 bytes.
#![tactic(auto)]

mod data_field;
mod disk_bytes;
mod four_and_four;
mod header;
mod laws;
mod layout;
mod recording;
mod rows;
mod six_and_two;

pub use disk_bytes::ByteRule;
pub use laws::rules_agree;
pub use recording::AppleGcr;
