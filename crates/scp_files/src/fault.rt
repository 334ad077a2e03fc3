use kryo_stream::StreamFault;
use thiserror::Error;

/// Why an SCP file has no tracks.
#[derive(Clone, Copy, Debug, PartialEq, Eq, Error)]
pub enum ScpFault {
    /// It has so many bytes, fewer than its header's 16.
    #[error("the file ends inside its header, after {0} bytes")]
    ShortHeader(u8),
    /// It does not begin with `SCP`.
    #[error("the file does not begin with SCP")]
    BadSignature,
    /// It says that it is of no floppy disk.
    #[error("the file is of no floppy disk")]
    NotFloppy,
    /// Its entries have so many bits, and not 16.
    #[error("entries of {0} bits")]
    BadWidth(u8),
}

/// Why a track of an SCP file is refused.
#[derive(Clone, Copy, Debug, PartialEq, Eq, Error)]
pub enum ScpTrackFault {
    /// The file ends inside the track's header.
    #[error("the file ends inside the header of the track")]
    ShortTrack,
    /// The track does not begin with `TRK`.
    #[error("the track does not begin with TRK")]
    BadSignature,
    /// The track says that it has this number.
    #[error("the track has the number {0}")]
    BadNumber(u8),
    /// There are more than 4194304 entries, or a stream of the track would be too long.
    #[error("the track is too long")]
    TooLong,
    /// The file ends inside this revolution, counted from 0.
    #[error("the file ends inside revolution {0}")]
    ShortData(u8),
}

/// What is told of a track that is not whole.
#[derive(Clone, Copy, Debug, PartialEq, Eq)]
pub enum TrackTold {
    /// The file says so. Where it ends inside a revolution that is not the first, those before are kept.
    Fault(ScpTrackFault),
    /// The stream that the track stands for has this fault, in the block of this number from 0.
    Refused { block: u32, fault: StreamFault },
}

/// Why a revolution was not read.
#[derive(Clone, Copy, Debug, PartialEq, Eq, Error)]
pub enum RevolutionFault {
    /// The source failed.
    #[error("the source failed")]
    ReadFault,
    /// The source ended before the revolution's entries did.
    #[error("the source ended inside a revolution")]
    Ended,
}

/// Why a capture is no stream.
#[derive(Clone, Copy, Debug, PartialEq, Eq, Error)]
pub enum CaptureRefused {
    /// A time is above 2^32 - 1 ticks, or the stream would have more than 4194304 bytes.
    #[error("the track is too long")]
    TooLong,
    /// The stream has this fault, of the block of this number from 0.
    #[error("block {block}: {fault}")]
    Refused { block: u32, fault: StreamFault },
}
