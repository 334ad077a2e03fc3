//! Lines of sets, disks that are read of their dumps, the disks that they are of, pictures of disks and trials: tests
//! alone, of the public calls of `sector_report`, `dump_reading`, `dump_identity`, `disk_map`, `disk_files` and `flux_trial`. They
//! stand apart from these, whose proofs a check of tests in them would make once more.
#![tactic(auto)]

#[cfg(test)]
mod tests;
