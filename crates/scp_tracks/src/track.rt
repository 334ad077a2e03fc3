//! A track of the file: its header, and its revolutions up to the first that is not read.

ghost use Rattle.std.specs.Prelude.{◌≡◌, ◌≤◌, [], ℕ, List, Some, None, drop, is_err, length, take, IfOk};
ghost use Rattle.flux_base.specs.Counts.{Counts};
ghost use Rattle.flux_base.specs.World.{source_counts};
ghost use Rattle.track_shelf.specs.Files.{File, file_at};
ghost use Rattle.track_shelf.specs.Told.{with_failed};
ghost use Rattle.track_shelf.specs.World.{told_at};
ghost use Rattle.scp_files.specs.Captures.{Holds};
ghost use Rattle.scp_files.specs.declared.fault.ScpTrackFault.TheVariants.{ShortTrack};
ghost use Rattle.scp_files.specs.Tracks.{head_size};
ghost use Rattle.scp_tracks.specs.Tracks.{ReadsTrack, lost};
ghost use Rattle.scp_tracks.specs.inside.Walk.{ReadsRevolutions};

use crate::reading::{read_head, read_revolution};
use flux_base::Failed;
use scp_files::{Capture, ScpTrackFault, TrackHead, begins_tell};
use track_shelf::Shelf;

/// A track in the file: its number, where it lies, and how many revolutions it has at most.
#[derive(Clone, Copy, Debug, PartialEq, Eq)]
pub struct TrackPlace {
    pub number: u8,
    pub offset: u32,
    pub revolutions: u8,
}

/// Reads a track into a capture that is begun: its revolutions up to the first without entries. Why the track is not
/// whole, if it is not; the revolutions before the one that is not whole are in the capture then. Where there is no such
/// file, it is a short track. `Failed` comes where the shelf's count of faults rose. No memory is taken.
pub fn read_track<H: Shelf>(
    path: &[u8],
    place: TrackPlace,
    capture: &mut Capture,
    shelf: &mut H,
) -> Result<Option<ScpTrackFault>, Failed>
    requires begun { Holds [] [] capture.old }
    ensures is { (files : List File) (file : File) → H.files shelf.old ≡ Some files → file_at files path.now ≡ Some file
        → IfOk result (ReadsTrack place (drop place.offset file.bytes) capture.new) }
    ensures absent { (files : List File) → H.files shelf.old ≡ Some files → file_at files path.now ≡ None
        → IfOk result (λ fault. (fault ≡ Some ShortTrack) × (capture.new ≡ capture.old)) }
    ensures resolution { capture.new.resolution ≡ capture.old.resolution }
    ensures told { told_at H.Source H.Shelf.own shelf.new
        ≡ with_failed (lost path.now result) (told_at H.Source H.Shelf.own shelf.old) }
    ensures counts { Counts (is_err result) (source_counts H.Source shelf.old) (source_counts H.Source shelf.new) }
{
    begins_tell();
    let offset = u64::from(place.offset);
    let head = match read_head(path, offset, place.revolutions, shelf) {
        Ok(Some(head)) => head,
        Ok(None) => return Ok(Some(ScpTrackFault::ShortTrack)),
        Err(failed) => return Err(failed),
    };
    match head.fault(place.revolutions, place.number) {
        Some(fault) => Ok(Some(fault)),
        None => read_revolutions(path, place, &head, capture, shelf),
    }
}

/// Reads the revolutions that the header names into the capture, up to the first without entries. Why not all of them
/// are read, if they are not.
fn read_revolutions<H: Shelf>(
    path: &[u8],
    place: TrackPlace,
    head: &TrackHead,
    capture: &mut Capture,
    shelf: &mut H,
) -> Result<Option<ScpTrackFault>, Failed>
    requires begun { Holds [] [] capture.old }
    requires head { head_size place.revolutions ≤ length head.now }
    requires revolutions { place.revolutions ≤ 255 }
    ensures is { (files : List File) (file : File) → H.files shelf.old ≡ Some files → file_at files path.now ≡ Some file
        → head.now ≡ take (head_size place.revolutions) (drop place.offset file.bytes)
        → IfOk result (ReadsRevolutions place.revolutions (drop place.offset file.bytes) capture.new) }
    ensures resolution { capture.new.resolution ≡ capture.old.resolution }
    ensures told { told_at H.Source H.Shelf.own shelf.new
        ≡ with_failed (lost path.now result) (told_at H.Source H.Shelf.own shelf.old) }
    ensures counts { Counts (is_err result) (source_counts H.Source shelf.old) (source_counts H.Source shelf.new) }
{
    begins_tell();
    for number in 0..place.revolutions {
        let revolution = head.revolution(number);
        if revolution.entries == 0 {
            return Ok(None);
        }
        if !capture.takes(revolution) {
            return Ok(Some(ScpTrackFault::TooLong));
        }
        let at = u64::from(place.offset) + u64::from(revolution.offset);
        match read_revolution(path, at, revolution, capture, shelf) {
            Ok(true) => {}
            Ok(false) => return Ok(Some(ScpTrackFault::ShortData(number))),
            Err(failed) => return Err(failed),
        }
    }
    Ok(None)
}
