//! Which disks by their numbers the headers of some tracks tell: of each track the sector numbers of its own names that
//! have whole data. No flux, no file: what is here is arithmetic of finite sets.
#![tactic(auto)]

mod disks;
mod foreign;
mod heads;
mod laws;
mod name_set;
mod named;
mod told;

pub use disks::{NumberedDisk, push_disks};
pub use foreign::{ForeignDisk, TrackSets, push_foreign};
pub use heads::NamedHeads;
pub use laws::{foreign_disks_are_one, told_disks_are_one};
pub use name_set::NameSet;
pub use told::has_any;
