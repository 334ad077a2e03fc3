//! Writes streams of flux transitions (KryoFlux stream protocol): of given times, of a list of bit cells, and of a
//! track's ring.
//!
//! Spellings are gathered in a piece of 4096 bytes, so that the sink is called once a piece. No
//! answer is for want of memory.
#![tactic(auto)]

mod indexes;
mod laws;
mod piece;
mod stream;
mod times;
mod track;

pub use laws::{capture_law, track_law, turns_law, written_law};
pub use stream::interval_length;
pub use times::write_times;
pub use track::{write_track, write_turns};
