use thiserror::Error;

/// Why an image was not written as files, or not all of it. Tracks are told by their numbers, from 0 in the format's
/// order.
#[derive(Clone, Copy, Debug, PartialEq, Eq, Error)]
pub enum FilesFault {
    /// The source failed.
    #[error("the source failed")]
    ReadFault,
    /// An image of the format has another size: the bytes that were read, at most one more than it has, and
    /// those that it has.
    #[error("{read} bytes were read of an image of {wanted}")]
    WrongSize { read: u32, wanted: u32 },
    /// There is a file of this track already.
    #[error("the file of track {track} is there")]
    Exists { track: u32 },
    /// The folder was not made.
    #[error("the folder was not made")]
    FolderFault,
    /// The file of this track was not made, or not all of it was written.
    #[error("the file of track {track} was not written")]
    FileFault { track: u32 },
}
