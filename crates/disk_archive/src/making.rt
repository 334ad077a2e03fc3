//! The files, one after another.

ghost use Rattle.std.specs.Prelude.{is_err};
ghost use Rattle.flux_base.specs.Counts.{Counts, counts_of};
ghost use Rattle.disk_archive.specs.Kept.{kept_of};
ghost use Rattle.disk_archive.specs.Making.{MakesFiles};

use crate::held::HeldDisk;
use crate::names::{KeptFile, file_name};
use file_maker::{FileMaker, make_whole};

/// Makes all files of a disk in the folder, which is there. Else the answer is the one that was not made whole.
pub(crate) fn make_files<M: FileMaker>(
    folder: &[u8],
    held: &HeldDisk,
    maker: &mut M,
) -> Result<(), KeptFile>
    ensures made { MakesFiles folder.now (kept_of held.now) (M.made maker.old) (M.made maker.new) result }
    ensures counts { Counts (is_err result) (counts_of M.faults M.failed maker.old)
        (counts_of M.faults M.failed maker.new) }
{
    let format = held.summary.format;
    let report = file_name(format, KeptFile::Report);
    match make_whole(folder, report, held.report.bytes(), maker) {
        Ok(()) => {}
        Err(_) => return Err(KeptFile::Report),
    }
    let image = file_name(format, KeptFile::Image);
    match make_whole(folder, image, held.image.bytes(), maker) {
        Ok(()) => {}
        Err(_) => return Err(KeptFile::Image),
    }
    let picture = file_name(format, KeptFile::Picture);
    match make_whole(folder, picture, held.picture.bytes(), maker) {
        Ok(()) => {}
        Err(_) => return Err(KeptFile::Picture),
    }
    let summary = file_name(format, KeptFile::Summary);
    match make_whole(folder, summary, held.line.bytes(), maker) {
        Ok(()) => Ok(()),
        Err(_) => Err(KeptFile::Summary),
    }
}
