//! What dumps come to that are read together: one outcome; for each sector a line and bytes that its readings bear out;
//! of the report where each sector's line stands, and what each line is; and where they are complete. Definitions and
//! laws, for all formats; nothing here is called for what it does.
#![tactic(auto)]

mod laws;

pub use laws::{
    all_of_dumps_is_one, complete_dumps_are_all_read, dump_reports_have_lines, dumps_are_one,
    dumps_say_each_sector,
};
