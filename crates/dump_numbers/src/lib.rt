//! Which disks by their numbers the files of a dump tell: the stream of each file is read by each rate that such a disk
//! may have, and of each the sector numbers of its own names with whole data are kept, and of those that name another
//! head.
#![tactic(auto)]

mod finding;
mod header;
mod heads;
mod laws;
mod names;
mod rates;
mod room;
mod sets;
mod turn_rule;

pub use finding::{NumbersFound, find_disks};
pub use laws::numbers_are_one;
pub use rates::{disk_with_one, recording_with_one};
pub use room::NumbersRoom;
pub use told_disks::{ForeignDisk, NumberedDisk};
