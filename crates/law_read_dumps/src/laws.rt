//! What dumps come to that are read together.

ghost use Rattle.law_read_dumps.specs.Complete.{CompleteIsAll};
ghost use Rattle.law_read_dumps.specs.Lines.{EachIsSaid, LinesAreKnown, OtherFilesAreSaid};
ghost use Rattle.law_read_dumps.specs.Lines.{PassedStreamsAreSaid, ReportsHaveNoOtherLines};
ghost use Rattle.law_read_dumps.specs.Said.{AllOfDumpsIsOne, BesideStreamsAreOfFiles, DumpsAreOne};
ghost use Rattle.law_read_dumps.specs.Said.{GoodStaysOrIsContradicted, SaidIsRight, StreamsAreOfFiles};

use flux_engine::{plans_are_right, rules_are_read};
use law_captured_plans::planned_sectors_are_said;
use sector_images::{sectors_lie_in_images, tracks_keep_bounds};
use sector_report::{dumps_have_lines, sectors_have_one_line, totals_have_one_line};
use turn_merge::data_are_known;

/// The files on the shelf, and which of them failed, decide what dumps come to.
pub fn dumps_are_one()
    ensures { DumpsAreOne }
{
    all_of_dumps_is_one()
}

/// The same whatever becomes of each track and of all: of a report, and of a picture.
pub fn all_of_dumps_is_one()
    ensures { AllOfDumpsIsOne }
{
    plans_are_right();
    rules_are_read()
}

/// Each sector of a disk that is read of its dumps has its line in the report, with the verdict over all that was read
/// of its track, of all dumps and by both clocks, and at its place in the image the bytes that its good readings hold,
/// or zeros. The line stands at the sector's number: behind those of all tracks before its own, of the streams of its
/// track that are passed over, and of the track's sectors of smaller numbers. So the sector is called good, or
/// contradictory, only where the dump, the clock and the place that are named hold it. And a sector that one dump's
/// stream makes good by the strict rule and one clock, as `decode` reads it, is good with the same bytes, or
/// contradictory. All of this is said of the streams that came; where the shelf tells its files, each stream, of a
/// track of the format or of one beside it, is what its file says, or its file failed.
pub fn dumps_say_each_sector()
    ensures said { EachIsSaid }
    ensures right { SaidIsRight }
    ensures stays { GoodStaysOrIsContradicted }
    ensures of_files { StreamsAreOfFiles }
    ensures beside_of_files { BesideStreamsAreOfFiles }
{
    planned_sectors_are_said();
    plans_are_right();
    sectors_have_one_line();
    dumps_have_lines();
    rules_are_read()
}

/// In the report each stream that is passed over has its line, as each sector has, and so has each file of a track
/// beside the format's that is. Each line is a sector's at its number, such a stream's or file's, that of a name of a
/// track's others that has whole data, one that tells of data after a name that is not told or of names without data,
/// or one of the two at the end; and there are as many lines as the numbers of the report say.
pub fn dump_reports_have_lines()
    ensures passed { PassedStreamsAreSaid }
    ensures passed_beside { OtherFilesAreSaid }
    ensures known { LinesAreKnown }
    ensures count { ReportsHaveNoOtherLines }
{
    dumps_say_each_sector();
    plans_are_right();
    sectors_have_one_line();
    totals_have_one_line();
    dumps_have_lines();
    rules_are_read()
}

/// The numbers call dumps complete exactly where each sector is good over all that was read of its track, each track
/// beside the format's was looked at, and nowhere in the cells of any stream, by any clock that was used, whole data
/// stand after a header that names none of the track's sectors, however many such headers there are. (A disk has
/// sectors, so where all are good one is.)
pub fn complete_dumps_are_all_read()
    ensures { CompleteIsAll }
{
    dumps_say_each_sector();
    plans_are_right();
    sectors_lie_in_images();
    tracks_keep_bounds();
    data_are_known()
}
