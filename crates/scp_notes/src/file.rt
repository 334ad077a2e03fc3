//! What is noted of a file.

ghost use Rattle.std.specs.Prelude.{◌≡◌, ◌≤◌, ◌<◌, ◌+◌, ◌++◌, List, [], Some, None, is_err, take, IfOk};
ghost use Rattle.arrayvec.specs.ArrayVec.{array_vec_len};
ghost use Rattle.flux_base.specs.Counts.{Counts};
ghost use Rattle.flux_base.specs.World.{source_counts};
ghost use Rattle.scp_files.specs.Files.{FRONT_SIZE, file_fault};
ghost use Rattle.scp_tracks.specs.Tracks.{lost};
ghost use Rattle.track_shelf.specs.Files.{File, file_at};
ghost use Rattle.track_shelf.specs.Told.{with_failed};
ghost use Rattle.track_shelf.specs.World.{told_at};
ghost use Rattle.scp_notes.specs.Files.{all_notes, early_ends, no_notes, notes_in};
ghost use Rattle.scp_notes.specs.inside.Walk.{ends_by};

use crate::early::{EarlyEnd, find_early_end};
use crate::sums::{Sums, compare_sums};
use arrayvec::ArrayVec;
use flux_base::Failed;
use scp_files::{ScpHeader, begins_tell};
use scp_tracks::{TrackPlace, read_begin};
use std::marker::Model;
use track_shelf::Shelf;

/// How many tracks a file has at most.
const TRACKS: u8 = 168;

/// Tracks of which the file ends early, by number.
pub(crate) type EarlyEnds = ArrayVec<EarlyEnd, 168>;

/// What is noted of a file: its sums, where they differ, and the tracks of which it ends early.
#[derive(Drop)]
pub(crate) struct FileNotes {
    pub(crate) sums: Option<Sums>,
    pub(crate) ends: EarlyEnds,
}

impl Model for FileNotes {
    ghost use Rattle.scp_notes.specs.Files.{Notes};

    ghost Value = { Notes };

    ghost view = { λ it. record { sums = it.sums; ends = it.ends.items } };
}

/// The notes of a file. There are none where it is not there or has a fault.
pub(crate) fn look_at<H: Shelf>(path: &[u8], shelf: &mut H) -> Result<FileNotes, Failed>
    ensures is { (files : List File) → H.files shelf.old ≡ Some files
        → IfOk result (λ notes. notes ≡ notes_in (file_at files path.now)) }
    ensures told { told_at H.Source H.Shelf.own shelf.new
        ≡ with_failed (lost path.now result) (told_at H.Source H.Shelf.own shelf.old) }
    ensures counts { Counts (is_err result) (source_counts H.Source shelf.old) (source_counts H.Source shelf.new) }
{
    begins_tell();
    let header = match read_begin(path, shelf) {
        Ok(Some(header)) => header,
        Ok(None) => return Ok(no_notes()),
        Err(failed) => return Err(failed),
    };
    match header.fault() {
        Some(_) => Ok(no_notes()),
        None => look_behind(path, &header, shelf),
    }
}

/// The notes of a file whose begin is at hand, and has no fault.
fn look_behind<H: Shelf>(
    path: &[u8],
    header: &ScpHeader,
    shelf: &mut H,
) -> Result<FileNotes, Failed>
    requires { file_fault header.now ≡ None }
    ensures is { (files : List File) (file : File) → H.files shelf.old ≡ Some files → file_at files path.now ≡ Some file
        → header.now ≡ take FRONT_SIZE file.bytes → IfOk result (λ notes. notes ≡ all_notes file.bytes) }
    ensures told { told_at H.Source H.Shelf.own shelf.new
        ≡ with_failed (lost path.now result) (told_at H.Source H.Shelf.own shelf.old) }
    ensures counts { Counts (is_err result) (source_counts H.Source shelf.old) (source_counts H.Source shelf.new) }
{
    let sums = match compare_sums(path, header, shelf) {
        Ok(sums) => sums,
        Err(failed) => return Err(failed),
    };
    match find_early_ends(path, header, shelf) {
        Ok(ends) => Ok(FileNotes { sums, ends }),
        Err(failed) => Err(failed),
    }
}

/// No notes.
pub(crate) fn no_notes() -> FileNotes
    ensures { result ≡ record { sums = None; ends = [] } }
{
    FileNotes {
        sums: None,
        ends: ArrayVec::new(),
    }
}

/// The tracks of which the file ends early.
fn find_early_ends<H: Shelf>(
    path: &[u8],
    header: &ScpHeader,
    shelf: &mut H,
) -> Result<EarlyEnds, Failed>
    requires { file_fault header.now ≡ None }
    ensures is { (files : List File) (file : File) → H.files shelf.old ≡ Some files → file_at files path.now ≡ Some file
        → header.now ≡ take FRONT_SIZE file.bytes → IfOk result (λ ends. ends.items ≡ early_ends file.bytes) }
    ensures told { told_at H.Source H.Shelf.own shelf.new
        ≡ with_failed (lost path.now result) (told_at H.Source H.Shelf.own shelf.old) }
    ensures counts { Counts (is_err result) (source_counts H.Source shelf.old) (source_counts H.Source shelf.new) }
{
    begins_tell();
    let mut ends = ArrayVec::new();
    for number in 0..TRACKS {
        let Some(offset) = header.track(number) else {
            continue;
        };
        let place = TrackPlace {
            number,
            offset,
            revolutions: header.revolutions(),
        };
        match find_early_end(path, place, shelf) {
            Ok(whole) => push_end(&mut ends, number, whole),
            Err(failed) => return Err(failed),
        }
    }
    Ok(ends)
}

/// Appends the track of this number, where it ends early behind so many revolutions.
fn push_end(ends: &mut EarlyEnds, number: u8, whole: Option<u8>)
    requires { array_vec_len ends.old < 168 }
    ensures items { ends.new.items ≡ ends.old.items ++ ends_by number whole }
    ensures len { array_vec_len ends.new ≤ array_vec_len ends.old + 1 }
{
    match whole {
        Some(whole) => ends.push(EarlyEnd { number, whole }),
        None => {}
    }
}
