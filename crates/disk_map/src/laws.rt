//! What a picture tells.

ghost use Rattle.disk_map.specs.Dumps.{PicturesOfDumpsShowReports};
ghost use Rattle.disk_map.specs.Laws.{ColoursTell, EachSectorHasItsField, MapsAreOfReports, ShapesTell};

/// A field tells its verdict by its colour, and by its shape alone.
pub fn fields_tell_verdicts()
    ensures colours { ColoursTell }
    ensures shapes { ShapesTell }
{}

/// Each sector of a track has its field: the colour and the shape of its verdict, at its place, with
/// its line of the report as title.
pub fn each_sector_has_its_field()
    ensures { EachSectorHasItsField }
{}

/// The picture of a disk is that of its report: the same totals and the same stop, and in each track the fields of the
/// sectors whose lines the report has, by the same readings.
pub fn maps_are_of_reports()
    ensures { MapsAreOfReports }
{}

/// The picture of dumps is that of their report: the same numbers, and in each track the fields of the sectors whose
/// lines the report has, by the same readings.
pub fn dumps_are_drawn_as_reported()
    ensures { PicturesOfDumpsShowReports }
{}
