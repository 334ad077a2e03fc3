//! Tracks of dumps, SCP files among them, on a shelf in memory.

ghost use Rattle.std.specs.Prelude.{◌≡◌, is_some, option_map};
ghost use Rattle.track_shelf.specs.DumpKinds.{kind_by_fault, kind_of_scp};
ghost use Rattle.track_shelf.specs.Files.{file_at, has_track, scp_track_in};

use crate::kind::DumpKind;
use crate::memory::{ShelfFile, place_of};
use crate::path::{TrackPath, is_scp};
use flux_base::TrackId;
use scp_files::{ScpFault, ScpHeader, begins_tell};

/// What lies under the name of a dump that is an SCP file.
pub(crate) fn kind_of_scp(files: &[ShelfFile], dump: &[u8]) -> DumpKind
    ensures { result ≡ kind_of_scp (file_at files.now dump.now) }
{
    begins_tell();
    match file_named(files, dump) {
        Some(file) => kind_by_fault(ScpHeader::of_bytes(file.bytes()).fault()),
        None => DumpKind::NotThere,
    }
}

/// What an SCP file is that has this fault, or none.
fn kind_by_fault(fault: Option<ScpFault>) -> DumpKind
    ensures { result ≡ kind_by_fault fault }
{
    match fault {
        Some(fault) => DumpKind::RefusedScp(fault),
        None => DumpKind::OtherTracks,
    }
}

/// Whether a track of a dump is there.
pub(crate) fn has_track(files: &[ShelfFile], dump: &[u8], track: TrackId) -> bool
    ensures { result ≡ has_track files.now dump.now track }
{
    if is_scp(dump) {
        has_scp_track(files, dump, track)
    } else {
        place_of(files, &TrackPath::of_dump(dump, track)).is_some()
    }
}

/// Whether an SCP file is there and has a track.
fn has_scp_track(files: &[ShelfFile], dump: &[u8], track: TrackId) -> bool
    ensures { result ≡ is_some (scp_track_in (file_at files.now dump.now) track) }
{
    begins_tell();
    match file_named(files, dump) {
        Some(file) => ScpHeader::of_bytes(file.bytes()).place_of(track).is_some(),
        None => false,
    }
}

/// The file of this path.
fn file_named<'a>(files: &'a [ShelfFile], path: &[u8]) -> Option<&'a ShelfFile>
    ensures { option_map (λ file. file.now) result ≡ file_at files.now path.now }
{
    files.iter().find(|file| file.is_named(path))
}
