//! The ring of cells of a written track, which the turning disk repeats endlessly: what a stretch of it is, how far
//! its ones are apart, and where its sectors lie. Definitions and their laws alone; the crates that read and write
//! tracks cite them.
#![tactic(auto)]
