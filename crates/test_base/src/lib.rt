//! What every crate of the product stands on, called from outside: tests alone, of the public calls of
//! `flux_base`, `index_turns`, `check_values`, `turn_merge`, `name_book`, `ibm_disks`, `sector_images`, `mfm_coding`,
//! `sector_report`, `track_shelf`, `told_disks`, `flux_help` and `imd_records`. They stand apart from these, whose
//! proofs a check of tests in them would make once more.
#![tactic(auto)]

#[cfg(test)]
mod tests;
