//! What the files of a dump tell without any format: of each how many bytes, transitions and revolutions it has and how
//! long these are; which files turned otherwise than the others; and how fast the drive was.
#![tactic(auto)]

mod files;
mod found;
mod laws;
mod lines;
mod measured;
mod measuring;
mod reach;
mod room;
mod spread;
mod telling;
mod totals;

pub use found::{FileTurns, Found};
pub use laws::turns_are_one;
pub use measured::{DumpTurns, measure_turns};
pub use reach::{Reach, find_reach};
pub use room::TurnsRoom;
pub use spread::Spread;
pub use telling::tell_turns;
pub use totals::TurnTotals;
