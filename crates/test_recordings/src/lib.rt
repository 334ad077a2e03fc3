//! Frames and rings of the recordings, made and worked out by hand: tests alone, of `Recording::read_at`, `ring` and
//! `next_reading`. They stand apart from the recordings, whose proofs a check of tests in them would make once more.
#![tactic(auto)]

#[cfg(test)]
mod tests;
