//! The recording of the IBM 3740 diskette (8 inch, single density): FM, 77 tracks of 26 sectors of 128 bytes; and of
//! other disks, which have it with numbers of their own.
#![tactic(auto)]

mod data_field;
mod header;
mod laws;
mod layout;
mod recording;
mod rows;

pub use laws::own_data_are_not_deleted;
pub use recording::IbmFm;
