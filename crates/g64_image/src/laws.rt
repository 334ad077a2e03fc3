//! What the definition of `from_g64` comes to, also of the files that `to_g64` writes.

ghost use Rattle.g64_image.specs.Laws.{FileReportsHaveNoOtherLines, GoodIsRightInFiles, LinesNameFileVerdicts};
ghost use Rattle.g64_image.specs.Laws.{LinesTellInFiles, OneFileDisk, WrittenFilesComeBack, WrittenFilesHaveNoFault};
ghost use Rattle.g64_image.specs.Laws.{WrittenTracksAreRings};

use disk_recordings::{tracks_are_read, tracks_have_only_own, tracks_have_rings};
use sector_images::{
    sectors_fill_tracks, sectors_lie_in_images, tracks_fill_images, tracks_keep_bounds,
};
use sector_report::{sector_lines_tell, sectors_have_one_line, totals_have_one_line};

/// A file comes to one disk: one image, one report, one fault or none.
pub fn file_disks_are_one()
    ensures { OneFileDisk }
{
    tracks_are_read()
}

/// The file that is written of an image has no fault, and of each track it has the cells of the ring with the
/// image's bytes in its sectors.
pub fn written_files_have_rings()
    ensures none { WrittenFilesHaveNoFault }
    ensures rings { WrittenTracksAreRings }
{
    tracks_have_rings();
    tracks_have_only_own();
    sectors_lie_in_images()
}

/// The report of a file without a fault has one line for each sector, after those of all sectors before it, which names
/// its verdict, and the total line; that of a file with a fault has none. Where a sector's line is among them, that
/// sector has the verdict that the line names.
pub fn file_lines_tell()
    ensures count { FileReportsHaveNoOtherLines }
    ensures lines { LinesNameFileVerdicts }
    ensures told { LinesTellInFiles }
{
    tracks_are_read();
    sectors_have_one_line();
    totals_have_one_line();
    sector_lines_tell();
    tracks_keep_bounds();
    sectors_lie_in_images()
}

/// So reading that file gives the image, and each sector is good: it is read once, well and never badly, at its place
/// in the ring of its track, as its line says.
pub fn written_files_come_back()
    ensures { WrittenFilesComeBack }
{
    written_files_have_rings();
    file_lines_tell();
    tracks_are_read();
    tracks_have_rings();
    tracks_have_only_own();
    sectors_lie_in_images();
    sectors_fill_tracks();
    tracks_fill_images()
}

/// Where the verdict on a sector of a file without a fault is good, it names a place at which the track's
/// cells hold the sector; its bytes stand at the sector's place in the file's image, and no place of the cells
/// holds the sector with other bytes.
pub fn good_is_right_in_files()
    ensures { GoodIsRightInFiles }
{
    tracks_are_read();
    sectors_lie_in_images();
    sectors_fill_tracks();
    tracks_fill_images()
}
