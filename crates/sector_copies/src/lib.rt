//! One sector of a disk that is read of several dumps: the verdict over its readings, and the distinct contents that
//! its good ones hold. The track's files of all dumps are read, as `dump_reading` reads them, and no others.
#![tactic(auto)]

mod copies;
mod laws;
mod lines;
mod notes;
mod printing;
mod reading;
mod show;
mod tools;
mod totals;
mod walk;

pub use copies::SectorCopy;
pub use laws::{copies_are_right, shown_sectors_are_one};
pub use reading::{SectorRoom, read_sector};
pub use show::show_sector;
pub use totals::SectorTotals;
