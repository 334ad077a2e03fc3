//! G64 files that are whole, broken and cut: tests alone, of `g64_image::to_g64` and `from_g64`. They stand apart from
//! `g64_image`, whose proof a check of tests in it would make once more.
#![tactic(auto)]

#[cfg(test)]
mod tests;
