//! What captured disks come to that are read by a plan.

ghost use Rattle.law_captured_plans.specs.Headline.{CapturedPlansAreNeverWrong, CapturedPlansAreRead};
ghost use Rattle.law_captured_plans.specs.Headline.{CapturedPlansHaveNoOthers, ErasedPlansAreRead};
ghost use Rattle.law_captured_plans.specs.Headline.{ErasedPlansHaveNoOthers, ErasedPlansStandInOnePiece};
ghost use Rattle.law_captured_plans.specs.Said.{GoodLinesAreRight, InputsAreShort, LinesTellInPlans};
ghost use Rattle.law_captured_plans.specs.Said.{PlannedPartsFitImages, PlannedReportsHaveNoOtherLines, SectorsAreSaid};

use disk_recordings::{
    DiskRecording, rewritten_tracks_have_only_own, tracks_are_read, tracks_have_only_own,
    tracks_have_rings,
};
use flux_engine::{
    captures_are_recovered, plans_are_right, rules_are_read, steady_captures_are_recovered,
};
use kryo_stream::{growth_law, joined_law};
use law_captured_disks::captures_have_no_others;
use law_decoded_rings::own_sectors_are_right;
use phase_loop::cells_are_few;
use sector_images::{
    sectors_fill_tracks, sectors_lie_in_images, tracks_fill_images, tracks_keep_bounds,
};
use sector_report::{sector_lines_tell, sectors_have_one_line, totals_have_one_line};

/// Each sector of a disk that is read by a plan has its line in the report, after those of all sectors before
/// it, with the verdict over all that was read of its track, and at its place in the image the bytes that its
/// good readings hold, or zeros.
pub fn planned_sectors_are_said()
    ensures { SectorsAreSaid }
{
    plans_are_right();
    sectors_have_one_line();
    sectors_lie_in_images();
    sectors_fill_tracks();
    tracks_fill_images()
}

/// The parts of any first tracks of such a disk have no more bytes than the format's image.
pub fn planned_parts_fit_images()
    ensures { PlannedPartsFitImages }
{
    plans_are_right();
    sectors_have_one_line();
    sectors_lie_in_images();
    sectors_fill_tracks();
    tracks_fill_images()
}

/// The report of such a disk has one line for each sector of the tracks that were read, and the total line where all
/// were. It has no other line, and where a sector's line is among them, that sector has the verdict that the line
/// names, with the sources and the places, by the strict rule. So a line that says good names a capture, a clock, a
/// turn and a place whose cells hold the sector with the bytes that the image has at the sector's place.
pub fn planned_lines_tell()
    ensures count { PlannedReportsHaveNoOtherLines }
    ensures short { InputsAreShort }
    ensures told { LinesTellInPlans }
    ensures good { GoodLinesAreRight }
{
    tracks_are_read();
    plans_are_right();
    growth_law();
    cells_are_few();
    sectors_have_one_line();
    totals_have_one_line();
    sector_lines_tell();
    tracks_keep_bounds();
    sectors_lie_in_images();
    sectors_fill_tracks();
    tracks_fill_images()
}

/// From any streams that capture each written track of an image as often as a plan asks for, with transitions and speed
/// disturbed within the bounds, what is read by the plan is exactly that image, every sector good over all that is read
/// of its track. For a clock that is held the drives have to keep their speed; where they do not, a sector is good with
/// its own bytes, or contradictory.
///
/// So it is by either rule of a plan. Where stretches of any captures are erased, a sector of which one place lies
/// whole between them in one capture is kept; every other one is kept or lost, and none is contradictory. And by the
/// clock that follows the drive no sector stands whole over cells of two stretches.
pub fn captured_plans_are_read()
    ensures whole { CapturedPlansAreRead }
    ensures erased { ErasedPlansAreRead }
    ensures one_piece { ErasedPlansStandInOnePiece }
    ensures never_wrong { CapturedPlansAreNeverWrong }
{
    planned_sectors_are_said();
    own_sectors_are_right::<DiskRecording>();
    rules_are_read();
    tracks_have_rings();
    tracks_have_only_own();
    rewritten_tracks_have_only_own();
    growth_law();
    joined_law();
    captures_are_recovered();
    steady_captures_are_recovered();
    plans_are_right();
    sectors_have_one_line();
    sectors_lie_in_images();
    sectors_fill_tracks();
    tracks_fill_images()
}

/// From such streams no header of another name is read by any plan, whether whole or erased in parts: all
/// that is read is the disk's own.
pub fn captured_plans_have_no_others()
    ensures whole { CapturedPlansHaveNoOthers }
    ensures erased { ErasedPlansHaveNoOthers }
{
    captures_have_no_others();
    growth_law();
    joined_law()
}
