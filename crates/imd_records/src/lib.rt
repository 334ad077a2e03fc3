//! Which sectors of a track stand in its record of a file of ImageDisk (IMD 1.18, Dave Dunfield): those of the mode and
//! the size that most bytes of the track have, in the order in which they lie on it.
#![tactic(auto)]

mod books;
mod choice;
mod lines;
mod mode;
mod record;
mod rows;

pub use books::TrackBooks;
pub use choice::{Choice, choose};
pub use lines::{left_line, lost_line, mode_line, more_line};
pub use mode::Mode;
pub use record::{has_other_cylinder, write_record};
pub use rows::{MOST_ROWS, fill_rows, is_row};
