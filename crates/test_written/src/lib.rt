//! Images that are written, disks of which several streams capture each track, and dumps whose files lie
//! on a shelf in memory, where a call fails or is counted: tests alone, of `flux_cli::run`. What needs
//! neither is a row of `.ci/rows`.
#![tactic(auto)]

#[cfg(test)]
mod tests;
