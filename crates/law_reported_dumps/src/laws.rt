//! What the lines of a report of dumps tell.

ghost use Rattle.law_reported_dumps.specs.Told.{LinesTell, NoSectorIsToldTwice, PassedLinesAreTold};

use disk_recordings::{headers_have_names, rewritten_tracks_are_read};
use flux_engine::plans_are_right;
use kryo_stream::growth_law;
use law_read_dumps::{dump_reports_have_lines, dumps_say_each_sector};
use phase_loop::cells_are_few;
use sector_images::{sectors_lie_in_images, tracks_fill_images, tracks_keep_bounds};
use sector_report::{dumps_have_lines, sector_lines_tell};

/// Each line of a report that has the text of a sector's line is that one, with the sector's verdict, so that no sector
/// is told twice. Each line that has the text of the line of a stream that is passed over is one.
pub fn dump_lines_tell()
    ensures told { LinesTell }
    ensures once { NoSectorIsToldTwice }
    ensures passed_told { PassedLinesAreTold }
{
    dump_reports_have_lines();
    dumps_say_each_sector();
    plans_are_right();
    growth_law();
    cells_are_few();
    headers_have_names();
    rewritten_tracks_are_read();
    dumps_have_lines();
    sector_lines_tell();
    tracks_keep_bounds();
    sectors_lie_in_images();
    tracks_fill_images()
}
