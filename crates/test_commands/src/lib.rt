//! Each command's words over short inputs, and objects that fail: tests alone, of `flux_cli::run`. They stand apart
//! from `flux_cli`, whose proof a check of tests in it would make once more.
#![tactic(auto)]

#[cfg(test)]
mod tests;
