//! Runs over whole disks in which an object fails or a stream is refused: tests alone, of `flux_cli::run`.
#![tactic(auto)]

#[cfg(test)]
mod tests;
