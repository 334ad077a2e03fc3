//! Lists of bit cells, as a read head sees them: a one where a flux transition lies in the cell, else a zero.
//!
//! A list is packed, 64 cells a `u64`. Words of cells, FM bytes and MFM bytes are appended, read and sought
//! by whole words, and `Cells::find_one` steps from one transition to the next. Whoever walks a list forward
//! and wants the number of ones up to each place, asks `Cells::ones_between` for the part walked since the last
//! place and adds it to a total, so that the whole walk counts each cell once.
#![tactic(auto)]

mod cells;
mod laws;
mod marks;

pub use cells::{Cells, longest_run};
pub use laws::marks_law;
pub use marks::{
    FM_DATA_MARK, FM_DELETED_DATA_MARK, FM_ID_MARK, FM_INDEX_MARK, MFM_A1_MARK, MFM_C2_MARK,
};
