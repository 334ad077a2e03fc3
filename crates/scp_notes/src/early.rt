//! Tracks of which the file ends inside a revolution that is not the first.

ghost use Rattle.std.specs.Prelude.{◌≡◌, ◌≤◌, List, Some, drop, is_err, length, take, IfOk};
ghost use Rattle.flux_base.specs.Counts.{Counts};
ghost use Rattle.flux_base.specs.World.{source_counts};
ghost use Rattle.scp_files.specs.Tracks.{end_fault, head_size, track_fault};
ghost use Rattle.scp_tracks.specs.Tracks.{lost};
ghost use Rattle.track_shelf.specs.Files.{File, file_at};
ghost use Rattle.track_shelf.specs.Told.{with_failed};
ghost use Rattle.track_shelf.specs.World.{told_at};
ghost use Rattle.scp_notes.specs.Files.{some_whole, whole_before};

use crate::reading::{has_byte, read_head};
use flux_base::Failed;
use scp_files::{TrackHead, begins_tell};
use scp_tracks::TrackPlace;
use track_shelf::Shelf;

/// The most entries of a track, in all its revolutions.
const MOST_ENTRIES: u64 = 4194304;

/// A track of which the file ends early, by its number, 2 C + H for cylinder C and head H: so many revolutions before
/// that are whole, one at least.
#[derive(Clone, Copy, Debug, PartialEq, Eq, Default)]
pub struct EarlyEnd {
    pub number: u8,
    pub whole: u8,
}

/// How many revolutions of a track are whole before the one inside which the file ends, if it does and there are any.
/// None of its entries is read.
pub(crate) fn find_early_end<H: Shelf>(
    path: &[u8],
    place: TrackPlace,
    shelf: &mut H,
) -> Result<Option<u8>, Failed>
    ensures is { (files : List File) (file : File) → H.files shelf.old ≡ Some files → file_at files path.now ≡ Some file
        → IfOk result (λ it. it
        ≡ whole_before (track_fault place.revolutions place.number (drop place.offset file.bytes))) }
    ensures told { told_at H.Source H.Shelf.own shelf.new
        ≡ with_failed (lost path.now result) (told_at H.Source H.Shelf.own shelf.old) }
    ensures counts { Counts (is_err result) (source_counts H.Source shelf.old) (source_counts H.Source shelf.new) }
{
    begins_tell();
    let offset = u64::from(place.offset);
    let head = match read_head(path, offset, place.revolutions, shelf) {
        Ok(Some(head)) => head,
        Ok(None) => return Ok(None),
        Err(failed) => return Err(failed),
    };
    match head.fault(place.revolutions, place.number) {
        Some(_) => Ok(None),
        None => find_early_revolution(path, place, &head, shelf),
    }
}

/// The same of a track whose header has no fault.
fn find_early_revolution<H: Shelf>(
    path: &[u8],
    place: TrackPlace,
    head: &TrackHead,
    shelf: &mut H,
) -> Result<Option<u8>, Failed>
    requires head { head_size place.revolutions ≤ length head.now }
    ensures is { (files : List File) (file : File) → H.files shelf.old ≡ Some files → file_at files path.now ≡ Some file
        → head.now ≡ take (head_size place.revolutions) (drop place.offset file.bytes)
        → IfOk result (λ it. it ≡ whole_before (end_fault place.revolutions (drop place.offset file.bytes))) }
    ensures told { told_at H.Source H.Shelf.own shelf.new
        ≡ with_failed (lost path.now result) (told_at H.Source H.Shelf.own shelf.old) }
    ensures counts { Counts (is_err result) (source_counts H.Source shelf.old) (source_counts H.Source shelf.new) }
{
    begins_tell();
    let mut entries = 0;
    for number in 0..place.revolutions {
        let revolution = head.revolution(number);
        entries += u64::from(revolution.entries);
        if revolution.entries == 0 || entries > MOST_ENTRIES {
            return Ok(None);
        }
        let begin = u64::from(place.offset) + u64::from(revolution.offset);
        match has_byte(path, begin + 2 * u64::from(revolution.entries) - 1, shelf) {
            Ok(true) => {}
            Ok(false) => return Ok(some_whole(number)),
            Err(failed) => return Err(failed),
        }
    }
    Ok(None)
}

/// So many revolutions, where there are any.
fn some_whole(whole: u8) -> Option<u8>
    ensures { result ≡ some_whole whole }
{
    if whole > 0 { Some(whole) } else { None }
}
