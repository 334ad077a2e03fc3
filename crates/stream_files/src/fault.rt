use kryo_stream::StreamFault;
use thiserror::Error;

/// Why joined streams were not made files, or not all of them. Streams are told by their numbers, from 0.
#[derive(Clone, Copy, Debug, PartialEq, Eq, Error)]
pub enum SplitFault {
    /// The source failed.
    #[error("the source failed")]
    ReadFault,
    /// The stream of this number has a fault, in the block of this number.
    #[error("stream {stream} is refused in block {block}: {fault}")]
    Refused {
        stream: u32,
        block: u32,
        fault: StreamFault,
    },
    /// No name is left for the stream of this number.
    #[error("there is no name for stream {stream}")]
    NoName {
        stream: u32,
    },
    /// There is a file already of the name that the stream of this number would have.
    #[error("the file of stream {stream} is there")]
    Exists {
        stream: u32,
    },
    /// The folder was not made.
    #[error("the folder was not made")]
    FolderFault,
    /// The file of the stream of this number was not made, or not all of it was written.
    #[error("the file of stream {stream} was not written")]
    FileFault {
        stream: u32,
    },
}
