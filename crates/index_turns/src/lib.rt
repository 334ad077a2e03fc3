//! The transitions and index moments of one captured track, in ticks of the capture's sample clock, and
//! the turns that the index moments divide it into.
#![tactic(auto)]

mod track_flux;

pub use track_flux::TrackFlux;
