use scp_files::ScpFault;
use thiserror::Error;

/// Why the tracks of an SCP file were not made files, or not all of them. Tracks are told by their numbers, 2 C + H for
/// cylinder C and head H.
#[derive(Clone, Copy, Debug, PartialEq, Eq, Error)]
pub enum UnpackFault {
    /// There is no such file.
    #[error("there is no such file")]
    NotThere,
    /// The file could not be opened or read.
    #[error("the file failed")]
    ReadFault,
    /// It is no SCP file of a disk.
    #[error("the file is refused: {0}")]
    Refused(ScpFault),
    /// There is a file already of the name that the file of the track of this number would have.
    #[error("the file of track {number} is there")]
    Exists { number: u8 },
    /// The folder was not made.
    #[error("the folder was not made")]
    FolderFault,
    /// The file of the track of this number was not made, or not all of it was written.
    #[error("the file of track {number} was not written")]
    FileFault { number: u8 },
    /// What is told of tracks was not written.
    #[error("the notes failed")]
    NotesFault,
}
