//! Dumps in plain numbers.

ghost use Rattle.law_stated_dumps.specs.Laws.{FilesAreStated, PassedFilesAreStated, SteadyDumpsAreStated};
ghost use Rattle.law_stated_dumps.specs.Laws.{StreamsOfFilesAreStated, WholeSectorsAreStated};
ghost use Rattle.law_stated_dumps.specs.Reached.{DumpsReachBounds};

use law_stated_captures::captures_are_as_stated;
use law_stated_disks::{disks_reach_each_bound, sectors_lie_as_stated};
use sector_images::{sectors_lie_in_images, tracks_keep_bounds};
use track_shelf::files_name_dumps;

/// A track's file in a dump is the first that has its path; of an SCP file the track has the bytes of the stream that it
/// stands for. They begin with a stream where the first are the stream's, whatever stands behind them. A sector that the stream captures, or that lies in one of its pieces,
/// whichever it is, is whole in the dump; a track is passed over where it is missing, where what its bytes begin with has
/// a fault, or where its file failed; and each other dump kept its speed, or is passed over.
pub fn dumps_are_as_stated()
    ensures files { FilesAreStated }
    ensures streams { StreamsOfFilesAreStated }
    ensures whole { WholeSectorsAreStated }
    ensures passed { PassedFilesAreStated }
    ensures steady { SteadyDumpsAreStated }
{
    sectors_lie_as_stated();
    captures_are_as_stated();
    sectors_lie_in_images();
    files_name_dumps();
    tracks_keep_bounds()
}

/// For each track of each image there are three dumps: one whose file has any bytes behind its stream, which has each
/// sector of the track whole in its second piece; one that lacks the file; and one whose file is damaged.
pub fn dumps_reach_each_bound()
    ensures { DumpsReachBounds }
{
    disks_reach_each_bound()
}
