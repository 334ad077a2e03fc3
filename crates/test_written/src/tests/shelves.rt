//! The files of a dump.
use flux_base::{Memory, TrackId};
use std::alloc::Global;
use track_shelf::ShelfFile;

/// The folder in which a dump's files lie.
pub const FOLDER: &str = "dump";

/// A track's file in a folder.
pub fn file(
    alloc: Global,
    folder: &str,
    track: TrackId,
    bytes: &[u8],
) -> Result<ShelfFile, Memory> {
    let name = folder.as_bytes().to_vec(alloc)?;
    let content = bytes.to_vec(alloc)?;
    Ok(ShelfFile::new(name, track, content))
}
