//! The sum of a file's bytes, and the one that the file names.

ghost use Rattle.std.specs.Prelude.{◌≡◌, List, Some, None, is_err, take, IfOk};
ghost use Rattle.flux_base.specs.Counts.{Counts};
ghost use Rattle.flux_base.specs.World.{source_counts};
ghost use Rattle.scp_files.specs.Files.{FRONT_SIZE, file_fault};
ghost use Rattle.scp_tracks.specs.Tracks.{lost};
ghost use Rattle.track_shelf.specs.Files.{File, file_at};
ghost use Rattle.track_shelf.specs.Told.{with_failed};
ghost use Rattle.track_shelf.specs.World.{told_at};
ghost use Rattle.scp_notes.specs.Files.{differing, sums_in, sums_of};

use crate::reading::read_sum;
use flux_base::Failed;
use scp_files::{ScpHeader, begins_tell};
use scp_tracks::read_begin;
use track_shelf::Shelf;

/// The sum of all bytes behind a file's header, by 32 bits, and the one that the header names.
#[derive(Clone, Copy, Debug, PartialEq, Eq)]
pub struct Sums {
    pub sum: u32,
    pub wanted: u32,
}

/// The sums of an SCP file, where they differ. None where the file names none or may be written to, where it has 4 GiB
/// or more, where it is not there or is no SCP file of a disk. It is read once, in pieces, and no memory is taken.
/// `Failed` comes where the shelf's count of faults rose.
pub fn find_sums<H: Shelf>(path: &[u8], shelf: &mut H) -> Result<Option<Sums>, Failed>
    ensures is { (files : List File) → H.files shelf.old ≡ Some files
        → IfOk result (λ sums. sums ≡ sums_in (file_at files path.now)) }
    ensures told { told_at H.Source H.Shelf.own shelf.new
        ≡ with_failed (lost path.now result) (told_at H.Source H.Shelf.own shelf.old) }
    ensures counts { Counts (is_err result) (source_counts H.Source shelf.old) (source_counts H.Source shelf.new) }
{
    begins_tell();
    let header = match read_begin(path, shelf) {
        Ok(Some(header)) => header,
        Ok(None) => return Ok(None),
        Err(failed) => return Err(failed),
    };
    match header.fault() {
        Some(_) => Ok(None),
        None => compare_sums(path, &header, shelf),
    }
}

/// The same of a file whose begin is at hand, and has no fault.
pub(crate) fn compare_sums<H: Shelf>(
    path: &[u8],
    header: &ScpHeader,
    shelf: &mut H,
) -> Result<Option<Sums>, Failed>
    requires { file_fault header.now ≡ None }
    ensures is { (files : List File) (file : File) → H.files shelf.old ≡ Some files → file_at files path.now ≡ Some file
        → header.now ≡ take FRONT_SIZE file.bytes → IfOk result (λ sums. sums ≡ sums_of file.bytes) }
    ensures told { told_at H.Source H.Shelf.own shelf.new
        ≡ with_failed (lost path.now result) (told_at H.Source H.Shelf.own shelf.old) }
    ensures counts { Counts (is_err result) (source_counts H.Source shelf.old) (source_counts H.Source shelf.new) }
{
    begins_tell();
    let wanted = match header.wanted_sum() {
        Some(wanted) => wanted,
        None => return Ok(None),
    };
    match read_sum(path, shelf) {
        Ok(sum) => Ok(differing(wanted, sum)),
        Err(failed) => Err(failed),
    }
}

/// A sum and the one that is wanted, where there is one and they differ.
fn differing(wanted: u32, sum: Option<u32>) -> Option<Sums>
    ensures { result ≡ differing wanted sum }
{
    match sum {
        Some(sum) if sum != wanted => Some(Sums { sum, wanted }),
        _ => None,
    }
}
