use crate::names::KeptFile;
use dump_reading::NoFiles;

/// Why not all was kept.
#[derive(Clone, Copy, Debug, PartialEq, Eq)]
pub enum ArchiveFault {
    /// There is no memory, or a text does not fit in the room for it. Nothing is made.
    Memory,
    /// The folder is there already.
    Exists,
    /// A dump has none of the disk's files.
    NoFiles(NoFiles),
    /// No disk explains a dump, and none is asked for.
    NoDisk,
    /// The folder was not made.
    FolderFault,
    /// This file was not made, or not all of it was written. Those before it are whole.
    FileFault(KeptFile),
    /// The sink of the summary failed. All files are whole.
    OutputFault,
}
