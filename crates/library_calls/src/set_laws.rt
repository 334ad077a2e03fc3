//! What the definition of a set comes to.

ghost use Rattle.library_calls.specs.SetLaws.{GoodIsRightInSets, OneSet, SetsOfOneAreDecoded};

use flux_engine::plans_are_right;

/// An input comes to one outcome.
pub fn sets_are_one()
    ensures { OneSet }
{
    plans_are_right()
}

/// A set with one capture of each track has the image and the totals of a decoded disk.
pub fn sets_of_one_are_decoded()
    ensures { SetsOfOneAreDecoded }
{}

/// A sector of a set is called good only where the capture, turn and place that are named have cells that
/// hold it, with the bytes that the image has of it; and all places of all captures of the track that
/// hold the sector hold these bytes.
pub fn good_is_right_in_sets()
    ensures { GoodIsRightInSets }
{
    plans_are_right()
}
