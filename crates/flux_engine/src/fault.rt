use kryo_stream::StreamFault;
use std::fmt::Display;
use thiserror::Error;

/// Why the reading of a disk stopped: what of the outside failed, or what was refused.
#[derive(Clone, Copy, Debug, PartialEq, Eq, Error)]
#[error_bound(R: Display)]
pub enum Stopped<R> {
    /// The source failed.
    #[error("the source failed")]
    ReadFault,
    /// The sink of the image failed, or of what is shown in its place: a picture, a sector's
    /// contents, or which disk it is.
    #[error("the image was not written")]
    ImageFault,
    /// The sink of the notes failed.
    #[error("the notes were not written")]
    NotesFault,
    /// The input is refused for this.
    #[error("{0}")]
    Refused(R),
}

/// The stream of a capture that has a fault: the track's number in the order of reading, the capture's number among
/// those of the track, the block's number in its stream, all from 0, and the fault.
#[derive(Clone, Copy, Debug, PartialEq, Eq, Error)]
#[error("track {track}, capture {capture}, block {block}: {fault}")]
pub struct RefusedCapture {
    pub track: u32,
    pub capture: u32,
    pub block: u32,
    pub fault: StreamFault,
}
