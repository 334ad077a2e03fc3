//! What the files come to that are written of an image.

ghost use Rattle.law_written_dumps.specs.Headline.{WrittenDumpsAreReadWell, WrittenFilesCapture};

use disk_files::files_are_captures;
use law_captured_dumps::captured_dumps_are_read;
use sector_images::{sectors_lie_in_images, tracks_keep_bounds};
use track_shelf::folder_paths_tell;

/// The files that are written of an image into a folder, where none of them was before, are a dump that
/// captures the image, of a drive that keeps its speed. So where it is read each sector is good, with its own
/// bytes, whatever else lies there.
pub fn written_dumps_are_read()
    ensures capture { WrittenFilesCapture }
    ensures well { WrittenDumpsAreReadWell }
{
    files_are_captures();
    captured_dumps_are_read();
    folder_paths_tell();
    tracks_keep_bounds();
    sectors_lie_in_images()
}
