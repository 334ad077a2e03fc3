//! The lines that the program prints: each ends with one byte 0A, and its numbers are decimal.
#![tactic(auto)]

mod dump_lines;
mod laws;
mod line;
mod naming;
mod refused;
mod scp_lines;
mod sector_lines;
mod stream_lines;
mod totals;
mod trial_lines;
mod usage;

pub use dump_lines::{Passed, other_line, passed_line, traces_line, unread_line, untold_line};
pub use laws::{dumps_have_lines, sector_lines_tell, sectors_have_one_line, totals_have_one_line};
pub use line::{Line, put, put_named, put_u32, put_u64, write_line};
pub use naming::Naming;
pub use refused::{image_line, put_fault, refused_capture_line, refused_line};
pub use scp_lines::{put_scp_fault, put_scp_file_fault};
pub use sector_lines::{named_line, put_place, put_two_digits, sector_line, total_line};
pub use stream_lines::{transitions_line, turn_line};
pub use totals::Totals;
pub use trial_lines::trial_line;
pub use usage::{USAGE, usage_line};
