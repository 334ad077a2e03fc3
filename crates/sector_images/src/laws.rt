//! What the places of sectors come to.

ghost use Rattle.sector_images.specs.Formats.{PrintedWordsNameFormats, WordsBeginWithLetters, WordsNameFormats};
ghost use Rattle.sector_images.specs.Places.{FormatsHaveTracks, ImagesAreSmall, NumbersHoldSectors, NumbersNameTracks};
ghost use Rattle.sector_images.specs.Places.{SectorsFillTracks, SectorsLieInImages, TracksAreFew, TracksFillImages};
ghost use Rattle.sector_images.specs.Places.{TracksJoin, TracksKeepBounds};

use ibm_disks::words_name_disks;

/// Each sector of a track stands at one number among those of its track in the image, and is the one that
/// stands there; and at each of these numbers one stands.
pub fn sectors_fill_tracks()
    ensures sectors { SectorsFillTracks }
    ensures numbers { NumbersHoldSectors }
{}

/// The numbers below the number of tracks are those of tracks, and each sector of a track lies whole in the
/// image.
pub fn sectors_lie_in_images()
    ensures numbers { NumbersNameTracks }
    ensures sectors { SectorsLieInImages }
{}

/// The tracks stand in the image by their numbers, one after another with nothing between them, and fill it.
pub fn tracks_fill_images()
    ensures joined { TracksJoin }
    ensures filled { TracksFillImages }
{}

/// All formats keep to bounds that their reports, their rings and their streams need.
pub fn tracks_keep_bounds()
    ensures some { FormatsHaveTracks }
    ensures few { TracksAreFew }
    ensures bounds { TracksKeepBounds }
    ensures images { ImagesAreSmall }
{}

/// A word names one format, and where one does, so does the word that is printed of it; each begins with a letter.
pub fn words_name_formats()
    ensures one { WordsNameFormats }
    ensures printed { PrintedWordsNameFormats }
    ensures letters { WordsBeginWithLetters }
{
    words_name_disks();
}
