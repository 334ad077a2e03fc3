//! Disks of the Commodore 1541 as emulators keep them: G64 files, which have the cells of each track.
//!
//! An image becomes a file: for each track the ring of cells with the image's bytes in its sectors (`flux_engine`). And
//! a file becomes an image and a report: each track's cells are read as a ring, from which one verdict for each sector
//! comes, and from the verdicts the track's part of the image and its lines.
#![tactic(auto)]

mod check;
mod fault;
mod front;
mod laws;
mod line;
mod reading;
mod record;
mod room;
mod track;
mod writing;

pub use fault::G64Fault;
pub use laws::{
    file_disks_are_one, file_lines_tell, good_is_right_in_files, written_files_come_back,
    written_files_have_rings,
};
pub use line::g64_line;
pub use reading::from_g64;
pub use room::G64Room;
pub use writing::to_g64;
