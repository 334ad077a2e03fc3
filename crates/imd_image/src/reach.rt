//! Of which tracks some dumps have files.

ghost use Rattle.std.specs.Prelude.{◌≡◌, ◌<◌, ◌≤◌, ◌*◌, ◌+◌, List, Some, length, IfOk, IfSome, IfErr};
ghost use Rattle.dump_turns.specs.Reaches.{IsBoundedReach, count_in, track_number};
ghost use Rattle.imd_image.specs.Reaches.{cylinders_by};
ghost use Rattle.imd_image.specs.inside.Reached.{IsFoundReach, IsOwnReach, wider as wider_of};
ghost use Rattle.track_shelf.specs.Files.{File};

use dump_reading::{Dumps, NoFiles};
use dump_turns::Reach;
use flux_base::TrackId;
use track_shelf::{Shelf, Stepping};

/// The tracks up to the greatest cylinder and the greatest head of which one of the dumps has a file. The first dump
/// that has none is told. Nothing is opened to be read, and nothing fails.
pub(crate) fn find_reach<H: Shelf>(dumps: &Dumps, shelf: &H) -> Result<Reach, NoFiles>
    requires some { 1 ≤ length dumps.now.names.now }
    requires few { length dumps.now.names.now ≤ 16 }
    ensures told { (files : List File) → H.files shelf.now ≡ Some files
        → IsFoundReach files dumps.now.stepping dumps.now.names.now result }
    ensures bound { IfOk result IsBoundedReach }
    ensures low { IfErr result (λ empty. empty.dump < length dumps.now.names.now) }
{
    let mut reach = NO_REACH;
    for dump in 0..dumps.names.len() {
        match reach_of(dumps.names[dump].bytes(), dumps.stepping, shelf) {
            Some(own) => reach = wider(reach, own),
            None => return Err(NoFiles { dump: dump as u8 }),
        }
    }
    Ok(reach)
}

/// No track.
const NO_REACH: Reach = Reach {
    cylinders: 0,
    heads: 0,
};

/// Those of which one dump has a file.
fn reach_of<H: Shelf>(dump: &[u8], stepping: Stepping, shelf: &H) -> Option<Reach>
    ensures told { (files : List File) → H.files shelf.now ≡ Some files
        → IsOwnReach files stepping dump.now result }
    ensures bound { IfSome result IsBoundedReach }
{
    let mut reach = NO_REACH;
    for number in 0..2 * cylinders(stepping) {
        let track = TrackId {
            cylinder: number / 2,
            head: number % 2,
        };
        if shelf.holds(dump, stepping.file_track(track)) {
            reach = wider(reach, reach_to(track));
        }
    }
    if reach.cylinders == 0 {
        None
    } else {
        Some(reach)
    }
}

/// As far as one of two reaches.
fn wider(a: Reach, b: Reach) -> Reach
    ensures { result ≡ wider_of a b }
{
    Reach {
        cylinders: a.cylinders.max(b.cylinders),
        heads: a.heads.max(b.heads),
    }
}

/// So far reaches a track.
fn reach_to(track: TrackId) -> Reach
    requires cylinder { track.cylinder < 99 }
    requires head { track.head < 2 }
    ensures cylinders { result.cylinders ≡ track.cylinder + 1 }
    ensures heads { result.heads ≡ track.head + 1 }
{
    Reach {
        cylinders: track.cylinder + 1,
        heads: track.head + 1,
    }
}

/// How many cylinders of a disk are looked for, by the steps of the drive for each.
fn cylinders(stepping: Stepping) -> u8
    ensures is { result ≡ cylinders_by stepping }
    ensures few { result ≤ 99 }
{
    match stepping {
        Stepping::Single => 99,
        Stepping::Double => 42,
    }
}

/// How many tracks there are.
pub(crate) fn count_of(reach: Reach) -> u8
    requires { IsBoundedReach reach }
    ensures is { result ≡ count_in reach }
    ensures few { result ≤ 198 }
{
    reach.cylinders * reach.heads
}

/// The track of a number: cylinder by cylinder, head by head.
pub(crate) fn track_of(reach: Reach, number: u8) -> TrackId
    requires reach { IsBoundedReach reach }
    requires number { number < count_in reach }
    ensures is { result ≡ track_number reach number }
    ensures cylinder { result.cylinder < 99 }
    ensures head { result.head < 2 }
{
    TrackId {
        cylinder: number / reach.heads,
        head: number % reach.heads,
    }
}
