//! What the streams of a track come to, those that are written and those that a drive gives.

ghost use Rattle.flux_engine.specs.Captures.{CapturesAreErasedCaptures, CapturesAreRecovered};
ghost use Rattle.flux_engine.specs.Captures.{ErasedCapturesAreRecovered, ImagesHaveRings, SteadyCapturesAreRecovered};
ghost use Rattle.flux_engine.specs.Captures.{SteadyErasedCapturesAreRecovered, WrittenRingsAreRecovered};
ghost use Rattle.flux_engine.specs.Captures.{WritesCaptures, WritesSteadyCaptures};

use disk_recordings::tracks_have_rings;
use flux_writer::track_law;
use phase_loop::{disturbed_rings_are_recovered, steady_rings_are_recovered};
use sector_images::{sectors_lie_in_images, tracks_keep_bounds};

/// The stream of each track of an image is one stream without a fault that captures the track's ring: its
/// transitions are the ring's ones, within the bounds of disturbance, over two turns or more.
pub fn streams_are_captures()
    ensures { WritesCaptures }
{
    tracks_have_rings();
    tracks_keep_bounds();
    track_law();
    sectors_lie_in_images()
}

/// Each track of an image has a ring: it has the format's cells, and its ones are one to four cells apart.
pub fn images_have_rings()
    ensures { ImagesHaveRings }
{
    tracks_have_rings();
    sectors_lie_in_images()
}

/// From a capture of a track's ring the ring's cells are recovered, from the first place to the last, over two turns or
/// more. Where parts of the track are erased, the cells are those of the pieces, with 31 zeros between two. So the
/// ring's cells are recovered from each stream that is written of an image.
pub fn captures_are_recovered()
    ensures captures { CapturesAreRecovered }
    ensures erased { ErasedCapturesAreRecovered }
    ensures alike { CapturesAreErasedCaptures }
    ensures written { WrittenRingsAreRecovered }
{
    disturbed_rings_are_recovered();
    tracks_have_rings();
    tracks_keep_bounds();
    sectors_lie_in_images();
    streams_are_captures()
}

/// Where besides the drive keeps its speed, either clock recovers these cells, the one that follows the drive and the
/// one that holds the mean cell of the first turn. The stream of each track of an image is a capture of such a drive.
pub fn steady_captures_are_recovered()
    ensures captures { SteadyCapturesAreRecovered }
    ensures erased { SteadyErasedCapturesAreRecovered }
    ensures written { WritesSteadyCaptures }
{
    disturbed_rings_are_recovered();
    steady_rings_are_recovered();
    tracks_have_rings();
    tracks_keep_bounds();
    track_law();
    sectors_lie_in_images()
}
