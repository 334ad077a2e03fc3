//! What captured disks decode to.

ghost use Rattle.library_calls.specs.Headline.{CapturedDisksDecode, ErasedDisksDecode, WrittenDisksDecode};

use law_captured_disks::written_disks_are_captured;
use law_captured_plans::captured_plans_are_read;

/// From any streams that carry an image's written tracks, with transitions and speed disturbed within the bounds,
/// decoding gives exactly that image, and every sector's line says good. Where stretches of the tracks are erased, a
/// sector of which one place lies whole between them is kept; every other one is kept or lost, with zeros in its
/// place, and none is contradictory.
pub fn captured_disks_decode()
    ensures whole { CapturedDisksDecode }
    ensures erased { ErasedDisksDecode }
{
    captured_plans_are_read()
}

/// So decoding what is written of an image gives the image, and every sector's line says good.
pub fn written_disks_decode()
    ensures { WrittenDisksDecode }
{
    captured_disks_decode();
    written_disks_are_captured()
}
