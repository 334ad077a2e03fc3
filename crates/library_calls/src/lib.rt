//! Tracks and disks of which each track has one stream, and sets of streams, each by a call of its own: what a
//! library's user asks the engine for, where the program asks it by a plan.
//!
//! Each call is a thin one over the engine's (`flux_engine`), and says in plain words, which no plan is in, what it
//! reads and writes. The laws say what these words come to, for captured and for written disks too.
#![tactic(auto)]

mod capture;
mod captured;
mod disk;
mod fault;
mod laws;
mod set;
mod set_laws;
mod track;

pub use capture::read_capture;
pub use captured::{captured_disks_decode, written_disks_decode};
pub use disk::decode_disk;
pub use fault::{EngineFault, SetFault};
pub use laws::{
    good_is_right, good_is_right_on_disks, lines_tell_verdicts, outcomes_are_one,
    parts_fill_images, parts_stay,
};
pub use set::decode_set;
pub use set_laws::{good_is_right_in_sets, sets_are_one, sets_of_one_are_decoded};
pub use track::decode_track;
