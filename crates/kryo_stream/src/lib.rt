//! Reads streams of flux transitions (KryoFlux stream protocol).
#![tactic(auto)]

mod before;
mod bench;
mod block;
mod fault;
mod flux_maker;
mod front;
mod held;
mod intake;
mod kept;
mod laws;
mod padding;
mod reading;
mod room;
mod writing;

pub use bench::{MOST_INDEXES, MOST_TIMES, StreamBench};
pub use block::{Block, Mark, SpelledBlock};
pub use fault::{CaptureFault, StreamFault, TrackFault};
pub use flux_maker::FluxMaker;
pub use intake::Intake;
pub use laws::{
    blocks_law, growth_law, joined_law, padding_law, spelling_law, stream_law, turn_faults_law,
};
pub use padding::padding_at_hand;
pub use reading::read_track;
pub use room::StreamRoom;
pub use writing::{index_spelling, write_block};
