ghost use Rattle.std.specs.Prelude.{false};
ghost use Rattle.flux_cli.specs.Blamed.{CountsOfRun, makes_files, reads_dumps, world_counts};
ghost use Rattle.flux_cli.specs.Promises.{Promises};
ghost use Rattle.flux_cli.specs.OutputTold.{RanAndTold, is_told};
ghost use Rattle.flux_cli.specs.ShelfRuns.{Ran};
ghost use Rattle.flux_cli.specs.World.{world_at};

use crate::files::{Split, WriteFiles};
use crate::output_told::tell_output;
use crate::shelf_task::{DecodeFolder, Identify, Info};
use crate::task::{FromG64, Task, Tell, ToG64, Trial, Turns, Write};
use crate::unpack::Unpack;
use disk_map::dumps_are_drawn_as_reported;
use file_maker::FileMaker;
use flux_base::{Sink, Source, Status, Word};
use flux_help::write_wrong_words;
use flux_trial::whole_trials_have_one_line;
use flux_words::{Command, command_of, words_ask_once};
use g64_image::{file_lines_tell, good_is_right_in_files, written_files_come_back};
use law_captured_dumps::captured_dumps_are_read;
use law_captured_plans::{captured_plans_are_read, planned_lines_tell};
use law_read_dumps::{complete_dumps_are_all_read, dump_reports_have_lines, dumps_say_each_sector};
use law_reported_dumps::dump_lines_tell;
use law_written_dumps::written_dumps_are_read;
use std::alloc::Global;
use stream_files::files_are_joined;
use track_shelf::Shelf;

/// Runs the program over its words, without the program's name. Bytes of images go to `image`, and lines
/// that are about the work to `notes`; `maker` makes files. All memory is taken before the first read and the first
/// write, save that of `archive`, which is taken before the first write: which disk it is is read before.
pub fn run<S: Source, W: Sink, N: Sink, H: Shelf, M: FileMaker>(
    alloc: Global,
    words: &[Word],
    source: &mut S,
    image: &mut W,
    notes: &mut N,
    shelf: &mut H,
    maker: &mut M,
) -> Status
    // It finished, and gave all that its input comes to; or a counted fault of one object cut it at a place that the
    // row of the command states; or there was no memory to begin, and the world is as it was. The source is read only
    // where the bytes before do not tell what there is to do. Words that name a folder or dumps are done over the
    // shelf, which stays as it was but for what failed. All others are done over the source. Files are made under
    // words that ask for them alone, and then the image gets nothing. Behind a fault of the output, under words that
    // the usage line does not name, the notes got one line more, or a front of it.
    ensures ran { RanAndTold words.now result
        (world_at S.Source W.Sink N.Sink H.Source H.Shelf.own M.FileMaker
        source.old image.old notes.old shelf.old maker.old)
        (world_at S.Source W.Sink N.Sink H.Source H.Shelf.own M.FileMaker
        source.new image.new notes.new shelf.new maker.new) }

    // A fault is told where that object failed once, in the last call of all that could, and no other one failed; and a
    // run that finished had none. But under words that read dumps the shelf failed as often as files did that were
    // passed over, and the notes may have failed once too in the line behind a fault of the output, or of what makes
    // files; and where a file is unpacked, a fault may be told of a file that is there, for which none failed.
    ensures counts { CountsOfRun (reads_dumps words.now) (makes_files words.now) (is_told words.now result) result
        (world_counts (world_at S.Source W.Sink N.Sink H.Source H.Shelf.own M.FileMaker
        source.old image.old notes.old shelf.old maker.old))
        (world_counts (world_at S.Source W.Sink N.Sink H.Source H.Shelf.own M.FileMaker
        source.new image.new notes.new shelf.new maker.new)) }

    // From streams within the bounds `decode` writes exactly the image, every sector good; and what
    // else is promised of each command.
    ensures promises { Promises words.now result
        (world_at S.Source W.Sink N.Sink H.Source H.Shelf.own M.FileMaker
        source.old image.old notes.old shelf.old maker.old)
        (world_at S.Source W.Sink N.Sink H.Source H.Shelf.own M.FileMaker
        source.new image.new notes.new shelf.new maker.new) }
{
    words_ask_once();
    captured_plans_are_read();
    planned_lines_tell();
    written_files_come_back();
    whole_trials_have_one_line();
    file_lines_tell();
    good_is_right_in_files();
    dumps_say_each_sector();
    dump_reports_have_lines();
    complete_dumps_are_all_read();
    dump_lines_tell();
    captured_dumps_are_read();
    dumps_are_drawn_as_reported();
    written_dumps_are_read();
    files_are_joined();
    let status = run_words(alloc, words, source, image, notes, shelf, maker);
    tell_output(words, status, notes);
    status
}

/// Does what the words ask for.
fn run_words<S: Source, W: Sink, N: Sink, H: Shelf, M: FileMaker>(
    alloc: Global,
    words: &[Word],
    source: &mut S,
    image: &mut W,
    notes: &mut N,
    shelf: &mut H,
    maker: &mut M,
) -> Status
    ensures ran { Ran words.now result
        (world_at S.Source W.Sink N.Sink H.Source H.Shelf.own M.FileMaker
        source.old image.old notes.old shelf.old maker.old)
        (world_at S.Source W.Sink N.Sink H.Source H.Shelf.own M.FileMaker
        source.new image.new notes.new shelf.new maker.new) }
    ensures counts { CountsOfRun (reads_dumps words.now) (makes_files words.now) false result
        (world_counts (world_at S.Source W.Sink N.Sink H.Source H.Shelf.own M.FileMaker
        source.old image.old notes.old shelf.old maker.old))
        (world_counts (world_at S.Source W.Sink N.Sink H.Source H.Shelf.own M.FileMaker
        source.new image.new notes.new shelf.new maker.new)) }
{
    match command_of(words) {
        None => match write_wrong_words(words, notes) {
            Ok(()) => Status::Usage,
            Err(_) => Status::NotesFault,
        },
        Some(Command::Turns) => Turns.run(alloc, source, image, notes, shelf, maker),
        Some(Command::Streams(asked)) => asked.run(alloc, source, image, notes, shelf, maker),
        Some(Command::Folder(format, folder)) => {
            DecodeFolder { format, folder }.run(alloc, source, image, notes, shelf, maker)
        }
        Some(Command::Dumps(asked)) => asked.run(alloc, source, image, notes, shelf, maker),
        Some(Command::Sector(asked)) => asked.run(alloc, source, image, notes, shelf, maker),
        Some(Command::Identify(dump)) => Identify { dump }.run(
            alloc, source, image, notes, shelf, maker,
        ),
        Some(Command::Info(dump)) => Info { dump }.run(alloc, source, image, notes, shelf, maker),
        Some(Command::Archive(asked)) => asked.run(alloc, source, image, notes, shelf, maker),
        Some(Command::Imd(asked)) => asked.run(alloc, source, image, notes, shelf, maker),
        Some(Command::WriteFiles(format, folder)) => {
            WriteFiles { format, folder }.run(alloc, source, image, notes, shelf, maker)
        }
        Some(Command::Split(folder, heads)) => {
            Split { folder, heads }.run(alloc, source, image, notes, shelf, maker)
        }
        Some(Command::Unpack(file, folder)) => {
            Unpack { file, folder }.run(alloc, source, image, notes, shelf, maker)
        }
        Some(Command::Write(format)) => Write { format }.run(
            alloc, source, image, notes, shelf, maker,
        ),
        Some(Command::Trial(format, seed)) => {
            Trial { format, seed }.run(alloc, source, image, notes, shelf, maker)
        }
        Some(Command::ToG64(disk)) => ToG64 { disk }.run(alloc, source, image, notes, shelf, maker),
        Some(Command::FromG64(disk)) => FromG64 { disk }.run(
            alloc, source, image, notes, shelf, maker,
        ),
        Some(Command::Tell(page)) => Tell { page }.run(alloc, source, image, notes, shelf, maker),
    }
}
