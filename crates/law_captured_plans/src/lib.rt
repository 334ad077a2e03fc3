//! What captured disks come to that are read by a plan: from streams that capture each of an image's written
//! tracks, disturbed within the bounds, the image itself, every sector good; and where stretches are erased,
//! each sector that one of the captures has whole. Definitions and laws, for all formats and plans; nothing
//! here is called for what it does.
#![tactic(auto)]

mod laws;

pub use laws::{
    captured_plans_are_read, captured_plans_have_no_others, planned_lines_tell,
    planned_parts_fit_images, planned_sectors_are_said,
};
