//! What the tables of formats come to.

ghost use Rattle.law_stated_tables.specs.PlaceLaws.{NumberedPlacesAreStated, PlacesAreStated};
ghost use Rattle.law_stated_tables.specs.Laws.{GapsAreStated, NamesAreStated, NoOtherWords, NumbersAreStated};
ghost use Rattle.law_stated_tables.specs.Laws.{TracksTakeATurn};

use sector_images::words_name_formats;

/// Each name of a format, as the standards have it, names a format with the standard's numbers, and those of disks of
/// IBM's recordings that have numbers have the stated gaps.
pub fn names_are_stated()
    ensures numbers { NamesAreStated }
    ensures gaps { GapsAreStated }
{}

/// Each word that writes numbers names the disk of these numbers, where they are within the bounds and fit a track.
pub fn numbers_are_stated()
    ensures { NumbersAreStated }
{}

/// A word that names a format is one of these names, or writes such numbers, and the format has the numbers of the
/// name or those that it writes.
pub fn words_are_stated()
    ensures { NoOtherWords }
{
    words_name_formats();
}

/// Cell times ring is one turn of a drive of 300 or 360 turns a minute, on each track of each format,
/// also of those by their numbers.
pub fn tracks_take_a_turn()
    ensures { TracksTakeATurn }
{}

/// The sectors of each track begin at the stated places of its ring.
pub fn places_are_stated()
    ensures named { PlacesAreStated }
    ensures numbered { NumberedPlacesAreStated }
{}
