ghost use Rattle.std.specs.Prelude.{◌≡◌, ◌<◌};
ghost use Rattle.track_shelf.specs.Stepping.{file_track, reaches, reaches_all};

use flux_base::TrackId;
use sector_images::{Format, track_count, track_id};

/// How many cylinders a drive with two steps for one reaches.
const MOST_DOUBLE_CYLINDERS: u8 = 42;

/// How the cylinders of a disk lie in the files of its dumps, by the steps of the drive that captured it.
#[derive(Clone, Copy, Debug, PartialEq, Eq)]
pub enum Stepping {
    /// One step for each cylinder of the disk: the file of cylinder C has its tracks.
    Single,
    /// Two, as a drive of 80 cylinders makes them for a disk of 40: the file of cylinder 2C
    /// has the tracks of cylinder C.
    Double,
}

impl Stepping {
    /// The track by whose numbers the file of a track is named. Its cylinder is below 128.
    pub fn file_track(self, track: TrackId) -> TrackId
        requires { track.cylinder < 128 }
        ensures { result ≡ file_track self track }
    {
        match self {
            Stepping::Single => track,
            Stepping::Double => TrackId {
                cylinder: 2 * track.cylinder,
                head: track.head,
            },
        }
    }

    /// Whether the drive reaches all tracks of a disk.
    pub fn reaches_all(self, format: Format) -> bool
        ensures { result ≡ reaches_all self format }
    {
        for number in 0..track_count(format) {
            if !self.reaches(track_id(format, number)) {
                return false;
            }
        }
        true
    }

    /// Whether the drive reaches a track: with two steps for one, those of 42 cylinders.
    fn reaches(self, track: TrackId) -> bool
        ensures { result ≡ reaches self track }
    {
        match self {
            Stepping::Single => true,
            Stepping::Double => track.cylinder < MOST_DOUBLE_CYLINDERS,
        }
    }
}
