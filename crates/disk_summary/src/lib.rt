//! The summary of a disk that is read of its dumps: one line of JSON (RFC 8259) that another program reads. It has the
//! numbers of the report, and a note of each file that was passed over, of each sector that is not good, of each other
//! header with data, and of each file that turned otherwise than the others of its dump.
//!
//! The text is what the kit's `json` prints for a value, so that it parses to this value. The notes are written as the
//! tracks are read (`NoteWriter`), each with a comma before it, since a track's writer knows no other track.
//! Those of turns stand behind them (`note_turns`). The summary takes all without the first comma (`write_summary`).
#![tactic(auto)]

mod laws;
mod note;
mod note_writer;
mod summary;
mod turn_notes;

pub use laws::{drawings_are_noted, summaries_parse};
pub use note::{Note, note_piece};
pub use note_writer::NoteWriter;
pub use summary::{Summary, write_summary};
pub use turn_notes::note_turns;
