//! What the lines of a report tell of dumps that were read together: whose line one is that has the text
//! of a sector's, or of a stream's that is passed over. Definitions and a law, for all formats; nothing
//! here is called for what it does.
#![tactic(auto)]

mod laws;

pub use laws::dump_lines_tell;
