//! The fields of the IBM formats, single density (3740) and double density (System 34): bytes that stand
//! after a mark, read at an offset from a header's begin, and the bytes with which fields begin. No call takes
//! memory.
#![tactic(auto)]

mod fields;
mod marks;

pub use fields::{address_at, check_of_bytes, name_of, number_at, size_named, take_bytes};
pub use marks::{CHECK_START, DATA_BYTE, DELETED_DATA_BYTE, ID_BYTE};
