use thiserror::Error;

/// Why a file is refused. Tracks are counted from 1.
#[derive(Clone, Copy, Debug, PartialEq, Eq, Error)]
pub enum G64Fault {
    /// It has more than 4194304 bytes.
    #[error("the file has more than 4194304 bytes")]
    TooLarge,
    /// It has so many bytes, fewer than its header's 12.
    #[error("the file ends inside its header, after {0} bytes")]
    ShortHeader(u32),
    /// It does not begin with `GCR-1541`.
    #[error("the file does not begin with GCR-1541")]
    BadSignature,
    /// It has this version, and not 0.
    #[error("the file has version {0}")]
    BadVersion(u8),
    /// It has this number of half tracks: none, or more than 84.
    #[error("the file has {0} half tracks")]
    BadTracks(u8),
    /// It has so many bytes, and ends inside its tables of offsets and speeds.
    #[error("the file ends inside its tables, after {0} bytes")]
    ShortTable(u32),
    /// Where the track's length is to stand, the file has ended.
    #[error("track {track} lies at {offset}, past the end of the file")]
    BadOffset { track: u8, offset: u32 },
    /// The file ends inside the track, which is to have so many bytes.
    #[error("the file ends inside track {track}, which has {length} bytes")]
    ShortTrack { track: u8, length: u16 },
}
