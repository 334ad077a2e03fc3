//! The formats of sector images: which there are, where a track and a sector lie in the image, and how
//! tracks are recorded. No answer is for want of memory.
#![tactic(auto)]

mod format;
mod laws;
mod numbered_disks;
mod places;

pub use format::{Format, all_formats};
pub use laws::{
    sectors_fill_tracks, sectors_lie_in_images, tracks_fill_images, tracks_keep_bounds,
    words_name_formats,
};
pub use places::{
    image_place, image_sector, image_size, nominal, ring_cells, track_bytes, track_count, track_id,
    track_place,
};
