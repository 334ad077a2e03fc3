//! What captured disks are.

ghost use Rattle.law_captured_disks.specs.Inputs.{WritesCapturedDisks};
ghost use Rattle.law_captured_disks.specs.Others.{CapturesHaveNoOthers};

use disk_recordings::{DiskRecording, tracks_have_no_others};
use flux_engine::{
    captures_are_recovered, images_have_rings, steady_captures_are_recovered, streams_are_captures,
};
use law_decoded_rings::no_others_in_pieces;
use sector_images::sectors_lie_in_images;

/// What is written of an image is a captured disk of that image, without padding and with nothing after it.
pub fn written_disks_are_captured()
    ensures { WritesCapturedDisks }
{
    streams_are_captures()
}

/// Each header that stands in the recovered cells of a captured track, whole or erased in parts, is that of one of
/// the track's sectors: no header of another name is read there, by the clock that follows the drive, and by either
/// where the drive keeps its speed.
pub fn captures_have_no_others()
    ensures { CapturesHaveNoOthers }
{
    no_others_in_pieces::<DiskRecording>();
    tracks_have_no_others();
    images_have_rings();
    captures_are_recovered();
    steady_captures_are_recovered();
    sectors_lie_in_images()
}
