//! The interface behind which every recording stands: how a track's sectors are written as a ring of cells,
//! and how one is read at a place of a list of cells. A recording is an impl of [`Recording`] and nothing
//! else; whoever reads or writes tracks is generic over it.
#![tactic(auto)]

mod cells_from;
mod coding;
mod data_reader;
mod data_search;
mod frame_reading;
mod laws;
mod layout;
mod one_of_two;
mod reading;
mod recording;
mod ring_writing;
mod search;
mod sector_bytes;
mod table_recording;

pub use cells_from::CellsFrom;
pub use coding::Coding;
pub use laws::{
    data_are_read, frames_have_own_cells, headers_are_told, no_others, only_own, only_own_data,
    readings_are_all, rings_hold_sectors, sectors_are_told,
};
pub use layout::Layout;
pub use reading::{FoundHeader, Reading, SectorBuffer};
pub use recording::Recording;
pub use search::{next_found, next_header, next_reading};
pub use sector_bytes::SectorBytes;
