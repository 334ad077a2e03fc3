//! What the files that are written of an image come to.

ghost use Rattle.disk_files.specs.Laws.{FilesAreCaptures};

use flux_engine::{images_have_rings, steady_captures_are_recovered};
use flux_writer::written_law;
use sector_images::{sectors_lie_in_images, tracks_keep_bounds};
use stream_texts::texts_are_passed;

/// The file of each track of an image is one stream without a fault, of a drive that keeps its speed, which captures
/// the track's ring: the Info block changes nothing of the stream that `write_disk` writes.
pub fn files_are_captures()
    ensures { FilesAreCaptures }
{
    texts_are_passed();
    steady_captures_are_recovered();
    images_have_rings();
    tracks_keep_bounds();
    sectors_lie_in_images();
    written_law()
}
