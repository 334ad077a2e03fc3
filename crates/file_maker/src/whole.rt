//! A file that is made whole.

ghost use Rattle.std.specs.Prelude.{is_err};
ghost use Rattle.file_maker.specs.Made.{path_in};
ghost use Rattle.file_maker.specs.Makes.{MakesFile};
ghost use Rattle.flux_base.specs.Counts.{Counts, counts_of};

use crate::maker::FileMaker;
use flux_base::{Failed, write_whole};

/// Makes a new file of this name in the folder, and writes these bytes to it. After `Failed` the file is not there, or
/// has a front of them that is shorter.
pub fn make_whole<M: FileMaker>(
    folder: &[u8],
    name: &str,
    bytes: &[u8],
    maker: &mut M,
) -> Result<(), Failed>
    ensures made { MakesFile (record { path = path_in folder.now name.now; bytes = bytes.now }) (M.made maker.old)
        (M.made maker.new) result }
    ensures counts { Counts (is_err result) (counts_of M.faults M.failed maker.old)
        (counts_of M.faults M.failed maker.new) }
{
    let mut file = match maker.make_file(folder, name) {
        Ok(file) => file,
        Err(failed) => return Err(failed),
    };
    let answer = write_whole(&mut file, bytes);
    maker.close_file(file);
    answer
}
