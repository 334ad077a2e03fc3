//! A trial of the whole program from a number: an image, a drive that turns over its tracks within the bounds of
//! disturbance and may lose a stretch of each, and what decoding the streams of that drive comes to.
#![tactic(auto)]

mod flux;
mod head;
mod hole;
mod image;
mod kept;
mod laws;
mod room;
mod source;
mod trial;

pub use flux::trial_flux;
pub use image::trial_image;
pub use laws::{trials_are_captured, whole_trials_have_one_line};
pub use room::TrialRoom;
pub use trial::run_trial;
