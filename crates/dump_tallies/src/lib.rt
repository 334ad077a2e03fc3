//! What the files of a dump come to as the tracks of a disk, in numbers: they are noted one by one, for as many disks as
//! are wanted, so that each file is read once.
#![tactic(auto)]

mod disk_tally;
mod files;
mod noting;
mod tally_room;
mod totals;

pub use disk_tally::DiskTally;
pub use files::{MOST_FILES, file_track};
pub use noting::note_file;
pub use tally_room::TallyRoom;
