//! What files that lack nothing have of captured tracks.

ghost use Rattle.law_imd_files.specs.Headline.{
  CapturedTracksAreFound,
  CompleteFilesHaveNoOthers,
  CompleteFilesHaveTheSectors,
  OtherRatesAreOfHighDensity,
};
ghost use Rattle.law_imd_files.specs.Read.{
  ComingStreamsAreSo,
  GoodSectorsAreInBooks,
  SectorsOfBooksAreTold,
  StandingSectorsAreInBooks,
};

use disk_recordings::rewritten_tracks_are_read;
use flux_engine::plans_are_right;
use law_imd_tracks::{captured_tracks_have_own_names, standing_sectors_are_named};

/// Where all streams of a track capture one of a disk and no other mode has whole data, the record of the track has the
/// disk's mode and size and just the track's sectors, each once and with the bytes of the image. Where nothing is left
/// out of a file of ImageDisk and all of its sectors are good, no other mode has any; and it has each sector of a track
/// that one of its streams captures, whatever other streams say. High density is read by two rates, as drives turn at
/// two speeds: there the other must add nothing.
pub fn captured_tracks_are_found()
    ensures each { CompleteFilesHaveTheSectors }
    ensures track { CapturedTracksAreFound }
    ensures no_others { CompleteFilesHaveNoOthers }
    ensures one_rate { OtherRatesAreOfHighDensity }
{
    captured_tracks_have_own_names()
}

/// What `read` of a format of one of IBM's two recordings calls good is, with its bytes behind a mark, among the whole
/// data of its name in the book of the format's rate, and so is all that stands in the cells as controllers read. The
/// name is told, and is a sector of the record where that has the mode and the size; its data are these bytes, if all
/// of the name are. (Of other modes, sizes and bytes a line tells: the file need not have all that `read` calls good.)
pub fn read_sectors_are_found()
    ensures stands { StandingSectorsAreInBooks }
    ensures read { GoodSectorsAreInBooks }
    ensures streams { ComingStreamsAreSo }
    ensures told { SectorsOfBooksAreTold }
{
    standing_sectors_are_named();
    rewritten_tracks_are_read();
    plans_are_right()
}
