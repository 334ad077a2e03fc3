//! Which recording the tracks of each format have. This is the one place that names the recordings: whoever
//! reads or writes disks goes through [`Recording`](frame_law::Recording) alone.
#![tactic(auto)]

mod disk_id;
mod laws;
mod meaning;
mod recordings;
mod sectors;

pub use disk_id::{DiskId, IdPlace};
pub use laws::{
    apple_disks_are_read_too, headers_have_names, rewritten_tracks_are_read,
    rewritten_tracks_have_only_own, tracks_are_read, tracks_have_no_others, tracks_have_only_own,
    tracks_have_rings,
};
pub use recordings::{DiskRecording, controller_format, id_place, recording_of};
pub use sectors::{Sectors, sectors_of};
