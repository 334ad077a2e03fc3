//! Lists of cells, and the clock that recovers them: tests alone, of the public calls of `cell_bits` and `phase_loop`.
//! They stand apart from these, whose proofs a check of tests in them would make once more.
#![tactic(auto)]

#[cfg(test)]
mod tests;
