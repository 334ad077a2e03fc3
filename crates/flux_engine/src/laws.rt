//! What the definition of a disk that is read by a plan comes to.

ghost use Rattle.flux_engine.specs.PlanLaws.{ContradictionsAreNamedInPlans, FirstReadingsLead, FirstSourceStaysGood};
ghost use Rattle.flux_engine.specs.PlanLaws.{GoodIsRightInPlans, GoodReadingsStandInPlans, OnePlanned};
ghost use Rattle.flux_engine.specs.PlanLaws.{ReadingsInPlansAreOne, StrictGoodStays};
ghost use Rattle.flux_engine.specs.Rules.{RulesAreRead};

use disk_recordings::{rewritten_tracks_are_read, tracks_are_read};

/// By either rule the cells of a track tell all that can be read in them, as one list: each sector that stands by the
/// rule, and no other as good. What stands by the strict rule stands by either. Headers of other names are one list,
/// and so are all headers by their names.
pub fn rules_are_read()
    ensures { RulesAreRead }
{
    tracks_are_read();
    rewritten_tracks_are_read()
}

/// Streams that are read by a plan come to one outcome, and their captures have one list of readings each. Each good
/// reading names a place whose cells hold the sector, in its turn of its capture, by its clock; so a sector is called
/// good, or contradictory, only where the places that are named hold it; where it is good, all places of all captures
/// and of all clocks of the plan that hold it hold the bytes that the image has of it.
///
/// First of all readings are those of the first capture by the clock that follows the drive. So a sector that it
/// alone makes good is good by all, with the same place and the same bytes, or contradictory. And a sector that
/// the strict rule makes good over one capture by one clock is good by all, with the same bytes, or
/// contradictory, whichever rule the plan has.
pub fn plans_are_right()
    ensures one { OnePlanned }
    ensures readings { ReadingsInPlansAreOne }
    ensures stand { GoodReadingsStandInPlans }
    ensures good { GoodIsRightInPlans }
    ensures contradictory { ContradictionsAreNamedInPlans }
    ensures lead { FirstReadingsLead }
    ensures stays { FirstSourceStaysGood }
    ensures strict { StrictGoodStays }
{
    tracks_are_read();
    rules_are_read()
}
