//! Disks of streams in plain numbers.

ghost use Rattle.law_stated_disks.specs.Laws.{CapturedDisksAreStated, ErasedDisksAreStated, SectorsLieInPieces};
ghost use Rattle.law_stated_disks.specs.Laws.{StatedDisksAreCaptured, StatedErasedDisksAreErased};
ghost use Rattle.law_stated_disks.specs.Laws.{StreamsInOrderAreJoined};
ghost use Rattle.law_stated_disks.specs.Reached.{DisksReachBounds, LatePiecesHaveSectors, SpecksAreCaptures};

use disk_recordings::tracks_have_rings;
use flux_engine::images_have_rings;
use law_stated_captures::{captures_are_as_stated, captures_reach_each_bound};
use sector_images::{sectors_lie_in_images, tracks_keep_bounds};

/// Streams that stand in order, each behind the one before with 0 to 16 bytes 13 between them where it begins with 13,
/// and any bytes behind the last one, are joined, and no others are.
pub fn streams_are_joined_as_stated()
    ensures { StreamsInOrderAreJoined }
{}

/// A sector whose frame lies, at any repetition of the ring, from the first to the last place of one piece, whichever
/// it is, lies whole in a piece of an erased capture, and no other sector does.
pub fn sectors_lie_as_stated()
    ensures { SectorsLieInPieces }
{}

/// Inputs in which a stream of each track stands in order are captured disks, or erased ones where the streams capture
/// their rings in pieces; and each captured disk and each erased one is such an input. Where they keep their speed is
/// the same, and which sectors lie whole.
pub fn disks_are_as_stated()
    ensures captured { StatedDisksAreCaptured }
    ensures no_other_captured { CapturedDisksAreStated }
    ensures erased { StatedErasedDisksAreErased }
    ensures no_other_erased { ErasedDisksAreStated }
{
    streams_are_joined_as_stated();
    sectors_lie_as_stated();
    captures_are_as_stated();
    sectors_lie_in_images();
    tracks_keep_bounds()
}

/// For each image there is a disk with 0 to 16 bytes of padding before each stream but the first, as one likes, and any
/// bytes behind the last, each stream of which reaches the bounds of a capture, those of a drive that keeps its speed
/// among them. And for each track of it there is a stream of two pieces of which the second one has each sector whole
/// and the first one has a transition, and one of single transitions alone.
pub fn disks_reach_each_bound()
    ensures disks { DisksReachBounds }
    ensures late { LatePiecesHaveSectors }
    ensures specks { SpecksAreCaptures }
{
    captures_reach_each_bound();
    tracks_have_rings();
    images_have_rings();
    sectors_lie_in_images();
    tracks_keep_bounds()
}
