//! Whether the dumps of a disk have files at all.

ghost use Rattle.std.specs.Prelude.{◌≡◌, ◌≤◌, ◌<◌, List, Some, length, IfSome};
ghost use Rattle.track_shelf.specs.Files.{File};
ghost use Rattle.dump_reading.specs.Outcomes.{IsFirstEmpty, disk_of, has_any};

use crate::dumps::Dumps;
use sector_images::{Format, track_count, track_id, tracks_keep_bounds};
use track_shelf::{Shelf, Stepping};

/// The number of the first dump that has the file of none of the format's tracks, if one has none. Nothing is opened
/// to be read, and nothing fails.
pub fn find_empty<H: Shelf>(dumps: &Dumps, format: Format, shelf: &H) -> Option<u8>
    requires few { length dumps.now.names.now ≤ 16 }
    ensures told { (files : List File) → H.files shelf.now ≡ Some files
        → IsFirstEmpty (disk_of dumps.now format) files result }
    ensures bound { IfSome result (λ number. number < length dumps.now.names.now) }
{
    for number in 0..dumps.names.len() {
        if !has_any(dumps.names[number].bytes(), dumps.stepping, format, shelf) {
            return Some(number as u8);
        }
    }
    None
}

/// Whether a dump has the file of one of the format's tracks.
fn has_any<H: Shelf>(dump: &[u8], stepping: Stepping, format: Format, shelf: &H) -> bool
    ensures { (files : List File) → H.files shelf.now ≡ Some files → result ≡ has_any stepping files format dump.now }
{
    tracks_keep_bounds();
    for number in 0..track_count(format) {
        if shelf.holds(dump, stepping.file_track(track_id(format, number))) {
            return true;
        }
    }
    false
}
