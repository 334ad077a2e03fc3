//! The sectors of a track, by the recording of its format.

ghost use Rattle.std.specs.Prelude.{◌≡◌};
ghost use Rattle.sector_images.specs.Places.{IsTrack};
ghost use Rattle.disk_recordings.specs.TrackSectors.{sectors_of as sectors_in};

use crate::disk_id::DiskId;
use crate::recordings::recording_of;
use flux_base::TrackId;
use frame_law::Recording;
use sector_images::Format;

/// The sectors of a track.
#[derive(Clone, Copy, Debug)]
pub struct Sectors {
    /// The number of the first.
    pub first: u8,
    /// How many there are.
    pub count: u8,
    /// The bytes of each, at most 1024.
    pub size: u16,
}

/// The sectors of one of the format's tracks.
pub fn sectors_of(format: Format, track: TrackId) -> Sectors
    requires { IsTrack format track }
    ensures { result ≡ sectors_in format track }
{
    let recording = recording_of(format, DiskId::ANY);
    Sectors {
        first: recording.first_sector(),
        count: recording.sectors(track),
        size: recording.sector_size(),
    }
}
