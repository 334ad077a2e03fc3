//! The bytes of Apple's disks, of 5 1/4 inches (DOS 3.3) and of 3 1/2 (Macintosh): nibbles, self-syncs, and the marks
//! with which fields begin, out of cells and into them.
#![tactic(auto)]

mod marks;
mod nibbles;
mod writing;

pub use marks::{
    ADDRESS_MARK, BYTE_CELLS, CODING, DATA_BYTE, DATA_BYTE_PLACE, DATA_MARK, MARK_CELLS, next_sync,
};
pub use nibbles::{disk_byte_at, nibble_of, value_of};
pub use writing::{push_byte, push_mark, push_self_syncs};
