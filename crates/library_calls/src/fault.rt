use kryo_stream::StreamFault;
use thiserror::Error;

/// Why decoding stopped.
#[derive(Clone, Copy, Debug, PartialEq, Eq, Error)]
pub enum EngineFault {
    /// The source failed.
    #[error("the source failed")]
    ReadFault,
    /// The sink of the image failed.
    #[error("the image was not written")]
    ImageFault,
    /// The sink of the notes failed.
    #[error("the notes were not written")]
    NotesFault,
    /// The stream of a track has a fault: the track's number in the order of reading, the block's number in
    /// its stream, both from 0, and the fault.
    #[error("track {track}, block {block}: {fault}")]
    Refused {
        track: u32,
        block: u32,
        fault: StreamFault,
    },
}

/// Why the decoding of a set stopped.
#[derive(Clone, Copy, Debug, PartialEq, Eq, Error)]
pub enum SetFault {
    /// The source failed.
    #[error("the source failed")]
    ReadFault,
    /// The sink of the image failed.
    #[error("the image was not written")]
    ImageFault,
    /// The sink of the notes failed.
    #[error("the notes were not written")]
    NotesFault,
    /// The stream of a capture has a fault: the track's number in the order of reading, the capture's number among those of
    /// the track, the block's number in its stream, all from 0, and the fault.
    #[error("track {track}, capture {capture}, block {block}: {fault}")]
    Refused {
        track: u32,
        capture: u32,
        block: u32,
        fault: StreamFault,
    },
}
