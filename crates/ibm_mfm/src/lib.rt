//! The recording of the PC's disks (IBM System 34, double density), and of other disks that have it with numbers of
//! their own: MFM, sectors of 128 to 1024 bytes.
#![tactic(auto)]

mod data_field;
mod header;
mod heads;
mod laws;
mod layout;
mod recording;
mod rows;

pub use heads::HeadNumbers;
pub use laws::own_data_are_not_deleted;
pub use recording::IbmMfm;
