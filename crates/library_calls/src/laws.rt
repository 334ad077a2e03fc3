//! What the definitions behind `decode_track` and `decode_disk` come to.

ghost use Rattle.library_calls.specs.DiskLaws.{EachHasOneVerdict, GoodIsRightOnDisks, LinesNameVerdicts};
ghost use Rattle.library_calls.specs.DiskLaws.{LinesTellVerdicts, OthersAreZeros, PartsFitImages};
ghost use Rattle.library_calls.specs.DiskLaws.{PartsStandAtTheirPlaces, ReportsHaveNoOtherLines, WholeDisksFillImages};
ghost use Rattle.library_calls.specs.Laws.{CutInputsLead, FirstTracksLead, GoodIsRight, OneOutcome, PartsStay};

use disk_recordings::tracks_are_read;
use flux_engine::plans_are_right;
use kryo_stream::growth_law;
use law_captured_plans::{planned_lines_tell, planned_sectors_are_said};
use sector_images::{sectors_fill_tracks, tracks_fill_images};

/// An input comes to one outcome, and what its first tracks come to is what the outcome begins with.
pub fn outcomes_are_one()
    ensures one { OneOutcome }
    ensures first { FirstTracksLead }
{
    tracks_are_read()
}

/// What the first tracks of an input come to is what they come to in every longer one; so what is written of an
/// input that is cut, in its image and in its report, is what those of the whole input begin with.
pub fn parts_stay()
    ensures parts { PartsStay }
    ensures cut { CutInputsLead }
{
    tracks_are_read();
    growth_law()
}

/// A sector is called good only where the place that is named has cells that hold it, in the turn that is
/// named, with the bytes that the image has at the sector's place; and all places that hold the sector hold
/// these bytes.
pub fn good_is_right()
    ensures { GoodIsRight }
{
    tracks_are_read();
    sectors_fill_tracks()
}

/// A decoded track's part of the image has the track's bytes in number and stands at the track's place in the
/// whole image, and a disk that is decoded to its end has all bytes of the image. The parts of any first tracks
/// have no more bytes than the image.
pub fn parts_fill_images()
    ensures parts { PartsStandAtTheirPlaces }
    ensures whole { WholeDisksFillImages }
    ensures fit { PartsFitImages }
{
    tracks_are_read();
    tracks_fill_images()
}

/// Each sector of a decoded track has one verdict over all readings of the track, and its line in the report,
/// after those of all sectors before it, names it.
/// Where it is good, the place that is named has cells that hold the sector, in the turn that is named, with
/// the bytes that the whole image has at the sector's place, and all places of the track that hold the sector
/// hold these bytes.
/// Where it is not good, the image has zeros there.
pub fn good_is_right_on_disks()
    ensures verdicts { EachHasOneVerdict }
    ensures lines { LinesNameVerdicts }
    ensures good { GoodIsRightOnDisks }
    ensures others { OthersAreZeros }
{
    tracks_are_read();
    planned_sectors_are_said();
    plans_are_right()
}

/// The report of a decoded disk has one line for each sector of its decoded tracks, and the total line where all
/// tracks were decoded. It has no other line, and where a sector's line is among them, that sector has the
/// verdict that the line names.
pub fn lines_tell_verdicts()
    ensures count { ReportsHaveNoOtherLines }
    ensures told { LinesTellVerdicts }
{
    planned_lines_tell()
}
