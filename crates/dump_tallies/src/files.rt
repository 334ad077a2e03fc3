//! The files that a dump may have, by their numbers.

ghost use Rattle.std.specs.Prelude.{◌≡◌, ◌<◌, IfNone, IfSome};
ghost use Rattle.flux_base.specs.declared.track.TrackId.{TrackId as Id};
ghost use Rattle.track_shelf.specs.Stepping.{file_track as named_by};
ghost use Rattle.dump_tallies.specs.Files.{file_number, track_of_file};

use flux_base::TrackId;
use track_shelf::Stepping;

/// The most files of a dump: of 100 cylinders and two heads.
pub const MOST_FILES: u8 = 200;

/// The track by whose numbers a file is named: cylinder by cylinder, head by head.
pub fn file_track(number: u8) -> TrackId
    ensures { result ≡ track_of_file number }
{
    TrackId {
        cylinder: number / 2,
        head: number % 2,
    }
}

/// The number of the file that is named by a track.
pub(crate) fn file_number(track: TrackId) -> u8
    requires cylinder { track.cylinder < 100 }
    requires head { track.head < 2 }
    ensures { result ≡ file_number track }
{
    2 * track.cylinder + track.head
}

/// The track of a disk that lies in a file, by the steps of the drive, if one does.
pub(crate) fn disk_track(stepping: Stepping, file: TrackId) -> Option<TrackId>
    ensures some { IfSome result (λ is. (track : Id) → named_by stepping track ≡ file → track ≡ is) }
    ensures none { IfNone result ((track : Id) → ¬ (named_by stepping track ≡ file)) }
{
    match stepping {
        Stepping::Single => Some(file),
        Stepping::Double if file.cylinder % 2 == 0 => Some(TrackId {
            cylinder: file.cylinder / 2,
            head: file.head,
        }),
        Stepping::Double => None,
    }
}
