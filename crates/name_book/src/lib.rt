//! What the headers of a track say together by the names of their sectors: which names there are, where each lies, and
//! what its data hold. No flux, no cells: a book folds headers and data as they come, and keeps no list of them.
#![tactic(auto)]

mod book;
mod entry;
mod name;

pub use book::NameBook;
pub use name::{NameKind, NamedHeader, SectorName, SectorPlace};
