//! What the laws of the recordings come to for the formats: for all tracks, ids, bytes and cells.

ghost use Rattle.sector_images.specs.declared.format.Format.TheVariants.{AppleDo, ApplePo, AppleDos33, AppleProdos};
ghost use Rattle.disk_recordings.specs.Laws.{AreReadToo, DataAreRead, FramesAreWhole, FramesHaveCells, NamesAreTold};
ghost use Rattle.disk_recordings.specs.Laws.{NoOtherStands, OnlyOwnDataStand, OnlyOwnStand, RewrittenStandAlone};
ghost use Rattle.disk_recordings.specs.Laws.{RingsHaveCells, SectorsStand, SectorsStandToo, StandAlone};
ghost use Rattle.disk_recordings.specs.Laws.{StretchesHaveOnlyOwn, TracksAreRead};

use crate::recordings::DiskRecording;
use apple_gcr::rules_agree;
use frame_law::{
    data_are_read, headers_are_told, no_others, only_own, only_own_data, readings_are_all,
    rings_hold_sectors, sectors_are_told,
};

/// The cells of a format's track tell what stands in them, and repeated searches find all of it, as one list.
pub fn tracks_are_read()
    ensures { TracksAreRead }
{
    sectors_are_told::<DiskRecording>();
    readings_are_all::<DiskRecording>()
}

/// The ring of a format's track has the format's cells, with neighbouring ones 1 to 4 cells apart, and has each
/// sector of the track, whole and unbroken.
pub fn tracks_have_rings()
    ensures cells { RingsHaveCells }
    ensures stand { SectorsStand }
    ensures whole { FramesAreWhole }
    ensures some { FramesHaveCells }
{
    rings_hold_sectors::<DiskRecording>()
}

/// Nothing but its own sectors stands in the ring of a format's track, also in a stretch of it that zeros cut.
pub fn tracks_have_only_own()
    ensures alone { StandAlone }
    ensures between_zeros { OnlyOwnStand }
    ensures stretches { StretchesHaveOnlyOwn }
{
    only_own::<DiskRecording>()
}

/// What stands on an Apple disk exactly to the cell stands there, with the same bytes, as Apple's controller reads it.
pub fn apple_disks_are_read_too()
    ensures dos { AreReadToo AppleDo AppleDos33 }
    ensures prodos { AreReadToo ApplePo AppleProdos }
{
    rules_agree()
}

/// By the second rule, as controllers read, the cells of a format's track tell all data of a header, and repeated
/// searches find them; what stands by the strict rule stands by this one.
pub fn rewritten_tracks_are_read()
    ensures { DataAreRead }
{
    data_are_read::<DiskRecording>();
    tracks_are_read();
    apple_disks_are_read_too()
}

/// By that rule too nothing but its own sectors stands in the ring of a format's track, also in a stretch of it that
/// zeros cut, and each sector stands wherever its frame lies whole.
pub fn rewritten_tracks_have_only_own()
    ensures alone { RewrittenStandAlone }
    ensures between_zeros { OnlyOwnDataStand }
    ensures stand { SectorsStandToo }
{
    only_own_data::<DiskRecording>()
}

/// The cells of a format's track tell the name of each header, and repeated searches find all headers.
pub fn headers_have_names()
    ensures { NamesAreTold }
{
    headers_are_told::<DiskRecording>()
}

/// No other header than those of its sectors stands in the ring of a format's track, also in a stretch of it that zeros
/// cut.
pub fn tracks_have_no_others()
    ensures { NoOtherStands }
{
    no_others::<DiskRecording>()
}
