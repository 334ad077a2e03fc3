//! Sets of captures in plain numbers.

ghost use Rattle.law_stated_sets.specs.Laws.{CapturedSetsAreStated, ErasedSetsAreStated, StatedDisksAreSets};
ghost use Rattle.law_stated_sets.specs.Laws.{StatedErasedDisksAreSets, StatedErasedSetsAreDisks};
ghost use Rattle.law_stated_sets.specs.Laws.{StatedErasedSetsAreErased, StatedSetsAreCaptured, StatedSetsAreDisks};
ghost use Rattle.law_stated_sets.specs.Reached.{SetsReachBounds};

use law_stated_captures::captures_are_as_stated;
use law_stated_disks::{
    disks_reach_each_bound, sectors_lie_as_stated, streams_are_joined_as_stated,
};
use sector_images::{sectors_lie_in_images, tracks_keep_bounds};

/// Inputs in which so many streams of each track stand in order, that of number i a capture of track number i by their
/// count, are captured sets, or erased ones where the streams capture their rings in pieces; and each captured set and
/// each erased one is such an input. Where they keep their speed is the same, and which sectors lie whole, in
/// whichever stream of their track.
pub fn sets_are_as_stated()
    ensures captured { StatedSetsAreCaptured }
    ensures no_other_captured { CapturedSetsAreStated }
    ensures erased { StatedErasedSetsAreErased }
    ensures no_other_erased { ErasedSetsAreStated }
{
    streams_are_joined_as_stated();
    sectors_lie_as_stated();
    captures_are_as_stated();
    sectors_lie_in_images();
    tracks_keep_bounds()
}

/// A disk of one stream of each track is a set of one capture of each, and such a set is a disk: so what is said of
/// sets of one capture is said of disks, which reach each bound.
pub fn disks_are_sets_of_one()
    ensures disks { StatedDisksAreSets }
    ensures no_other_sets { StatedSetsAreDisks }
    ensures erased { StatedErasedDisksAreSets }
    ensures no_other_erased { StatedErasedSetsAreDisks }
{}

/// For each image there are sets in which one capture of each track alone has sectors, as the second of two, and has
/// them in a piece that is not its first one.
pub fn sets_reach_each_bound()
    ensures { SetsReachBounds }
{
    streams_are_joined_as_stated();
    disks_reach_each_bound()
}
