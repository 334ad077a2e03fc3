//! The class of captures that is promised to decode, spelled a second time in plain numbers: what keeps these numbers
//! is a capture, also in pieces, and there are no others; and each ring has captures at each bound. Definitions and
//! laws; nothing here is called for what it does.
//!
//! So a change of one bound in the definitions of `phase_loop` or `flux_engine`, which the proofs of the decoder
//! would bear, breaks a law here.
#![tactic(auto)]

mod laws;

pub use laws::{captures_are_as_stated, captures_reach_each_bound};
