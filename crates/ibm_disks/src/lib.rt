//! Disks that have one of IBM's two recordings, single density (FM) or double density (MFM), by their numbers: what the
//! tracks of each have of their own. No call takes memory.
#![tactic(auto)]

mod disk;
mod gap_plan;
mod named;
mod rate;
mod sector_size;
mod text;
mod track_numbers;
mod word;

pub use disk::{IbmDisk, disks_have_tracks, words_name_disks};
pub use rate::{Density, Rate};
pub use sector_size::SectorSize;
pub use text::{DiskWord, name_word};
pub use track_numbers::{LeadIn, TrackNumbers};
pub use word::DiskNumbers;
