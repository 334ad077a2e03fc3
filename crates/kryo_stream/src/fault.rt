use thiserror::Error;

/// Why a list of bytes is not a stream.
#[derive(Clone, Copy, Debug, PartialEq, Eq, Error)]
pub enum StreamFault {
    /// The input ends before the bytes that the block needs.
    #[error("the input ends inside a block")]
    Truncated,
    /// An out-of-band block of a type that the protocol does not know.
    #[error("unknown type {0} of an out-of-band block")]
    UnknownType(u8),
    /// The size of an out-of-band block is not that of its type.
    #[error("wrong size {0} of an out-of-band block")]
    BadSize(u16),
    /// The position in a StreamInfo or StreamEnd is not the number of in-stream bytes before it.
    #[error("stream position {said} where {counted} bytes were counted")]
    WrongPosition { said: u32, counted: u32 },
    /// The device ended its transfer with a code other than 0.
    #[error("the device failed with code {0}")]
    DeviceFault(u32),
    /// An in-stream block stands after a StreamEnd.
    #[error("an in-stream block after the end of the transfer")]
    DataAfterEnd,
    /// The position in an Index is above the number of all in-stream bytes.
    #[error("the position of an index is behind the stream")]
    IndexPosition,
    /// An index time is not above the index time before it.
    #[error("an index time that does not rise")]
    IndexOrder,
    /// The stream has fewer than two Index blocks.
    #[error("no full turn")]
    NoTurn,
    /// A block needs a byte past the first 4194304 of the stream.
    #[error("the stream is too long")]
    TooLong,
}

/// Why a track was not read.
#[derive(Clone, Copy, Debug, PartialEq, Eq, Error)]
pub enum TrackFault {
    /// The source failed.
    #[error("the source failed")]
    ReadFault,
    /// There was not enough memory.
    #[error("not enough memory")]
    Memory,
    /// The input does not begin with a stream: the fault and its block's number from 0.
    #[error("block {block}: {fault}")]
    Refused { block: u32, fault: StreamFault },
}

/// Why a stream that captures a track was not read, where all room was reserved.
#[derive(Clone, Copy, Debug, PartialEq, Eq, Error)]
pub enum CaptureFault {
    /// The source failed.
    #[error("the source failed")]
    ReadFault,
    /// The input does not begin with a stream: the fault and its block's number from 0.
    #[error("block {block}: {fault}")]
    Refused { block: u32, fault: StreamFault },
}
