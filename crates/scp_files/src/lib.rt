//! SCP files: captures of the tracks of a disk, all in one file (SuperCard Pro image file format). A track stands for a
//! KryoFlux stream, so that what is said of streams is said of it.
//!
//! The begin of a file is a `ScpHeader`, which tells where each track lies. At a track's place stands a `TrackHead`,
//! which tells of each revolution how long it took and where its entries lie. These are read into a `Capture`, one
//! revolution after the other, each from a source that is at its first entry.
#![tactic(auto)]

mod capture;
mod fault;
mod filling;
mod head;
mod header;
mod laws;
mod refusal;
mod stream;
mod units;

pub use capture::Capture;
pub use fault::{CaptureRefused, RevolutionFault, ScpFault, ScpTrackFault, TrackTold};
pub use head::{Revolution, TrackHead};
pub use header::ScpHeader;
pub use laws::{begins_tell, captures_read_back};
pub use refusal::find_refusal;
pub use stream::stream_size;
