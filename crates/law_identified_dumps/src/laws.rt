//! What is said of a dump that captures a disk by its numbers.

ghost use Rattle.law_identified_dumps.specs.Headline.{CapturedDisksAreNamed};

use law_numbered_dumps::{captured_disks_are_found, captured_dumps_are_called_good};
use sector_images::tracks_keep_bounds;

/// Where each file of the disk's tracks captures its track by a drive that keeps its speed, no other file has such a
/// sector, and none failed, the disk is one of those of which it is said how many sectors are good, and all are; or one
/// that has a name covers its numbers.
pub fn captured_disks_are_named()
    ensures { CapturedDisksAreNamed }
{
    captured_disks_are_found();
    captured_dumps_are_called_good();
    tracks_keep_bounds()
}
