//! Disks that are read of several dumps: of each track the files of all dumps are read, one that is missing or refused
//! is passed over, and one verdict for each sector is given over all readings. What becomes of the verdicts is a
//! writer's (`read_dump_tracks`): the image and the report here, a picture in `disk_map`.
#![tactic(auto)]

mod beside;
mod dumps;
mod fault;
mod looking;
mod looks;
mod reading;
mod report;
mod totals;

pub use beside::{BesideReport, BesideWriter, Unsaid, has_track, most_cylinders, near_track};
pub use dumps::Dumps;
pub use fault::NoFiles;
pub use looking::find_empty;
pub use looks::Looks;
pub use reading::{end_report, read_dump_tracks, read_dumps, read_dumps_by};
pub use report::{DumpReport, write_passed};
pub use totals::DumpTotals;
