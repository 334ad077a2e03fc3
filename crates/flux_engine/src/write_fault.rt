use thiserror::Error;

/// Why what is made of an image, the streams of its tracks or a file, was not written, or not all.
#[derive(Clone, Copy, Debug, PartialEq, Eq, Error)]
pub enum WriteFault {
    /// The source failed.
    #[error("the source failed")]
    ReadFault,
    /// The sink that it goes to failed.
    #[error("what is made of the image was not written")]
    ImageFault,
    /// An image of the format has another size: the bytes that were read, at most one more than it has, and
    /// those that it has.
    #[error("{read} bytes were read of an image of {wanted}")]
    WrongSize { read: u32, wanted: u32 },
}
