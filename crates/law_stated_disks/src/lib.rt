//! The inputs of which decoding and rescuing promise something, spelled a second time: streams by their places in one
//! input, the captures of `law_stated_captures`, and sectors by their places in the repeated ring. There are no others;
//! and each image has such inputs at each bound. Definitions and laws; nothing here is called for what it does.
//!
//! So a change that leaves inputs out, as those with padding, breaks a law here, also where the proofs
//! of the decoder would bear it.
#![tactic(auto)]

mod laws;

pub use laws::{
    disks_are_as_stated, disks_reach_each_bound, sectors_lie_as_stated,
    streams_are_joined_as_stated,
};
