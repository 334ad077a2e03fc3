//! The adapters over the system, held against what is written down of them: tests alone, of
//! `std_streams`. No clause says what the system gives or takes. So what stands in for it writes down
//! each call, and each of these fails in its turn.
#![tactic(auto)]

#[cfg(test)]
mod tests;
