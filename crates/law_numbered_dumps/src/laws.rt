//! What is found of a dump whose files capture an image of a disk by its numbers.

ghost use Rattle.law_numbered_dumps.specs.Called.{CapturedDumpsAreCalledGood};
ghost use Rattle.law_numbered_dumps.specs.Headline.{CapturedDisksAreFound, ErasedFilesHaveNoOtherSector};
ghost use Rattle.law_numbered_dumps.specs.Headline.{PassedFilesHaveNoSector, QuartersOfDisksAreFound};

use disk_recordings::{
    DiskRecording, headers_have_names, rewritten_tracks_are_read, rewritten_tracks_have_only_own,
    tracks_have_rings,
};
use flux_engine::{captures_are_recovered, plans_are_right};
use kryo_stream::growth_law;
use law_captured_disks::captures_have_no_others;
use law_captured_dumps::captured_dumps_are_read;
use law_decoded_rings::own_sectors_are_right;
use sector_images::sectors_lie_in_images;

/// Where each file of the disk's tracks captures its track, no other file has such a sector, and none failed, the disk
/// is among those that are found, or one that has a name covers its numbers. Where a quarter of the files do, and what
/// the others say has no sector but their track's, it is found with its rate, its sectors and their size, as far as
/// whole tracks reach. So are files that capture a track beside erased stretches; those that are not there, or are
/// refused, have none.
pub fn captured_disks_are_found()
    ensures found { CapturedDisksAreFound }
    ensures quarter { QuartersOfDisksAreFound }
    ensures erased { ErasedFilesHaveNoOtherSector }
    ensures passed { PassedFilesHaveNoSector }
{
    own_sectors_are_right::<DiskRecording>();
    tracks_have_rings();
    rewritten_tracks_are_read();
    rewritten_tracks_have_only_own();
    headers_have_names();
    growth_law();
    captures_are_recovered();
    captures_have_no_others();
    sectors_lie_in_images()
}

/// Reading a dump as the disk that it captures, of any format and by its drive's steps, comes to numbers that call
/// every sector good, where no file failed and the drive kept its speed.
pub fn captured_dumps_are_called_good()
    ensures { CapturedDumpsAreCalledGood }
{
    captured_dumps_are_read();
    plans_are_right()
}
