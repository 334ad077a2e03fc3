//! Streams of tracks and disks, decoded and written: tests alone, of the public calls of `flux_writer` and
//! `flux_engine`. They stand apart from these, whose proofs a check of tests in them would make once more.
#![tactic(auto)]

#[cfg(test)]
mod tests;
