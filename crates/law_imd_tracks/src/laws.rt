//! What the headers of a captured track say.

ghost use Rattle.law_imd_tracks.specs.Headline.{CapturedTracksHaveOwnNames};
ghost use Rattle.law_imd_tracks.specs.Standing.{StandingSectorsAreNamed};

use disk_recordings::{
    DiskRecording, headers_have_names, rewritten_tracks_are_read, rewritten_tracks_have_only_own,
    tracks_have_rings,
};
use flux_engine::steady_captures_are_recovered;
use ibm_fm::own_data_are_not_deleted as no_fm_data_are_deleted;
use ibm_mfm::own_data_are_not_deleted as no_mfm_data_are_deleted;
use law_captured_disks::captures_have_no_others;
use law_decoded_rings::own_sectors_are_right;
use sector_images::sectors_lie_in_images;

/// By either clock, where the drive keeps its speed, the headers of the disk's rate name just the track's sectors, each
/// of them with whole data, and all whole data behind a name are the bytes that the image has of the sector, with the
/// mark of data: none are deleted. Nothing is said of other rates: the data of an image may be anything.
pub fn captured_tracks_have_own_names()
    ensures { CapturedTracksHaveOwnNames }
{
    own_sectors_are_right::<DiskRecording>();
    tracks_have_rings();
    rewritten_tracks_are_read();
    rewritten_tracks_have_only_own();
    headers_have_names();
    steady_captures_are_recovered();
    captures_have_no_others();
    no_fm_data_are_deleted();
    no_mfm_data_are_deleted();
    sectors_lie_in_images()
}

/// What stands as a sector in a stream's cells, as controllers read a format of one of IBM's two recordings, has by the
/// format's rate and that clock a header of its name, and whole data of that name with its bytes behind a mark.
pub fn standing_sectors_are_named()
    ensures { StandingSectorsAreNamed }
{
    headers_have_names();
    rewritten_tracks_are_read()
}
