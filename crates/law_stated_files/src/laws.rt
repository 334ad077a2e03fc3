//! Written files in plain numbers.

ghost use Rattle.law_stated_files.specs.Laws.{WrittenFilesAreStated};

use flux_engine::images_have_rings;

/// A file is written of an image exactly where it has the stated bytes, each at its place, and no others.
pub fn written_files_are_as_stated()
    ensures { WrittenFilesAreStated }
{
    images_have_rings()
}
