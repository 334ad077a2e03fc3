//! What stands at places of the file: its begin, the header of a track, and the entries of a revolution. For each the
//! file is opened, read and closed.

ghost use Rattle.std.specs.Prelude.{◌≡◌, ◌+◌, ◌*◌, ◌<◌, ◌≤◌, ℕ, List, Some, None, take, drop, is_err, IfOk};
ghost use Rattle.flux_base.specs.Counts.{Counts, counts_of};
ghost use Rattle.flux_base.specs.World.{source_counts};
ghost use Rattle.track_shelf.specs.Files.{File, file_at};
ghost use Rattle.track_shelf.specs.Told.{with_closed, with_failed};
ghost use Rattle.track_shelf.specs.World.{told_at};
ghost use Rattle.scp_files.specs.Files.{FRONT_SIZE};
ghost use Rattle.scp_files.specs.Tracks.{MOST_ENTRIES, head_size};
ghost use Rattle.scp_tracks.specs.Tracks.{IsBeginOf, lost};
ghost use Rattle.scp_tracks.specs.inside.Places.{IsFresh, ReadsAt};

use flux_base::Failed;
use scp_files::{Capture, Revolution, RevolutionFault, ScpHeader, TrackHead};
use track_shelf::Shelf;

/// The begin of the file. None where there is no such file.
pub fn read_begin<H: Shelf>(path: &[u8], shelf: &mut H) -> Result<Option<ScpHeader>, Failed>
    ensures is { (files : List File) → H.files shelf.old ≡ Some files
        → IfOk result (IsBeginOf (file_at files path.now)) }
    ensures told { told_at H.Source H.Shelf.own shelf.new
        ≡ with_failed (lost path.now result) (told_at H.Source H.Shelf.own shelf.old) }
    ensures counts { Counts (is_err result) (source_counts H.Source shelf.old) (source_counts H.Source shelf.new) }
{
    match shelf.open_at(path, 0) {
        Ok(Some(file)) => match take_begin(file, shelf) {
            Ok(header) => Ok(Some(header)),
            Err(failed) => Err(failed),
        },
        Ok(None) => Ok(None),
        Err(failed) => Err(failed),
    }
}

/// The begin of the file that is open, which is given back.
fn take_begin<H: Shelf>(file: H::File, shelf: &mut H) -> Result<ScpHeader, Failed>
    ensures is { (bytes : List ℕ) → H.File.left file ≡ Some bytes
        → IfOk result (λ header. header ≡ take FRONT_SIZE bytes) }
    ensures told { IsFresh (counts_of H.File.faults H.File.failed file) (source_counts H.Source shelf.old)
        → told_at H.Source H.Shelf.own shelf.new
        ≡ with_closed (is_err result) (told_at H.Source H.Shelf.own shelf.old) }
    ensures counts { IsFresh (counts_of H.File.faults H.File.failed file) (source_counts H.Source shelf.old)
        → Counts (is_err result) (source_counts H.Source shelf.old) (source_counts H.Source shelf.new) }
{
    let mut file = file;
    let header = ScpHeader::read(&mut file);
    shelf.close_file(file);
    header
}

/// The header of the track at this place. None where there is no such file.
pub(crate) fn read_head<H: Shelf>(
    path: &[u8],
    place: u64,
    revolutions: u8,
    shelf: &mut H,
) -> Result<Option<TrackHead>, Failed>
    ensures is { (files : List File) (file : File) → H.files shelf.old ≡ Some files → file_at files path.now ≡ Some file
        → IfOk result (λ head. head ≡ Some (take (head_size revolutions) (drop place file.bytes))) }
    ensures absent { (files : List File) → H.files shelf.old ≡ Some files → file_at files path.now ≡ None
        → IfOk result (λ head. head ≡ None) }
    ensures told { told_at H.Source H.Shelf.own shelf.new
        ≡ with_failed (lost path.now result) (told_at H.Source H.Shelf.own shelf.old) }
    ensures counts { Counts (is_err result) (source_counts H.Source shelf.old) (source_counts H.Source shelf.new) }
{
    match shelf.open_at(path, place) {
        Ok(Some(file)) => match take_head(file, revolutions, shelf) {
            Ok(head) => Ok(Some(head)),
            Err(failed) => Err(failed),
        },
        Ok(None) => Ok(None),
        Err(failed) => Err(failed),
    }
}

/// The header of the track at which the file is open, which is given back.
fn take_head<H: Shelf>(file: H::File, revolutions: u8, shelf: &mut H) -> Result<TrackHead, Failed>
    ensures is { (bytes : List ℕ) → H.File.left file ≡ Some bytes
        → IfOk result (λ head. head ≡ take (head_size revolutions) bytes) }
    ensures told { IsFresh (counts_of H.File.faults H.File.failed file) (source_counts H.Source shelf.old)
        → told_at H.Source H.Shelf.own shelf.new
        ≡ with_closed (is_err result) (told_at H.Source H.Shelf.own shelf.old) }
    ensures counts { IsFresh (counts_of H.File.faults H.File.failed file) (source_counts H.Source shelf.old)
        → Counts (is_err result) (source_counts H.Source shelf.old) (source_counts H.Source shelf.new) }
{
    let mut file = file;
    let head = TrackHead::read(revolutions, &mut file);
    shelf.close_file(file);
    head
}

/// Reads the entries of a revolution at this place into the capture. Whether they are all there; else the capture is
/// what it was.
pub(crate) fn read_revolution<H: Shelf>(
    path: &[u8],
    place: u64,
    revolution: Revolution,
    capture: &mut Capture,
    shelf: &mut H,
) -> Result<bool, Failed>
    requires few { capture.old.entries + revolution.entries ≤ MOST_ENTRIES }
    requires turns { capture.old.revolutions < 255 }
    ensures is { (files : List File) (file : File) → H.files shelf.old ≡ Some files → file_at files path.now ≡ Some file
        → IfOk result (ReadsAt (drop place file.bytes) revolution capture.old capture.new) }
    ensures resolution { capture.new.resolution ≡ capture.old.resolution }
    ensures told { told_at H.Source H.Shelf.own shelf.new
        ≡ with_failed (lost path.now result) (told_at H.Source H.Shelf.own shelf.old) }
    ensures counts { Counts (is_err result) (source_counts H.Source shelf.old) (source_counts H.Source shelf.new) }
{
    match shelf.open_at(path, place) {
        Ok(Some(file)) => take_revolution(file, revolution, capture, shelf),
        Ok(None) => Ok(false),
        Err(failed) => Err(failed),
    }
}

/// The same at the place at which the file is open, which is given back.
fn take_revolution<H: Shelf>(
    file: H::File,
    revolution: Revolution,
    capture: &mut Capture,
    shelf: &mut H,
) -> Result<bool, Failed>
    requires few { capture.old.entries + revolution.entries ≤ MOST_ENTRIES }
    requires turns { capture.old.revolutions < 255 }
    ensures is { (bytes : List ℕ) → H.File.left file ≡ Some bytes
        → IfOk result (ReadsAt bytes revolution capture.old capture.new) }
    ensures resolution { capture.new.resolution ≡ capture.old.resolution }
    ensures told { IsFresh (counts_of H.File.faults H.File.failed file) (source_counts H.Source shelf.old)
        → told_at H.Source H.Shelf.own shelf.new
        ≡ with_closed (is_err result) (told_at H.Source H.Shelf.own shelf.old) }
    ensures counts { IsFresh (counts_of H.File.faults H.File.failed file) (source_counts H.Source shelf.old)
        → Counts (is_err result) (source_counts H.Source shelf.old) (source_counts H.Source shelf.new) }
{
    let mut file = file;
    let answer = capture.read_revolution(revolution, &mut file);
    shelf.close_file(file);
    match answer {
        Ok(()) => Ok(true),
        Err(RevolutionFault::Ended) => Ok(false),
        Err(RevolutionFault::ReadFault) => Err(Failed),
    }
}
