//! Any IBM disk as it is found, as a file of ImageDisk (IMD 1.18, Dave Dunfield): of each track the sectors of that
//! mode and size that most bytes of it have, and a report of all that the file leaves out.
#![tactic(auto)]

mod finding;
mod lines;
mod reach;
mod room;
mod streams;
mod tally;
mod telling;
mod totals;
mod writing;

pub use room::ImdRoom;
pub use totals::ImdTotals;
pub use writing::write_imd;
