//! The tracks of an SCP file that lies on a shelf. The file is opened at each place that is read of it, and given back,
//! so that no memory is taken for it.
#![tactic(auto)]

mod reading;
mod stream;
mod track;

pub use reading::read_begin;
pub use stream::{ScpRead, read_scp};
pub use track::{TrackPlace, read_track};
