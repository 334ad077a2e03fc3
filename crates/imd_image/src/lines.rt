//! The lines of the report that are not a record's.

ghost use Rattle.std.specs.Prelude.{◌≡◌, ◌<◌, ◌≤◌, ◌+◌, ◌++◌};
ghost use Rattle.arrayvec.specs.ArrayString.{array_string_len};
ghost use Rattle.dump_turns.specs.Lines.{failed_text, passed_text as alone_text, track_text};
ghost use Rattle.imd_image.specs.Lines.{asks_text, file_text, files_text, sectors_text};
ghost use Rattle.std.specs.Prelude.{true};

use crate::totals::ImdTotals;
use flux_base::TrackId;
use flux_engine::PassedStream;
use sector_report::{
    Line, Passed, passed_line, put, put_fault, put_named, put_scp_fault, put_two_digits, put_u32,
};

/// That the file of a track was passed over, and why: of several dumps with the number of the dump.
pub(crate) fn file_line(dumps: u8, track: TrackId, passed: &PassedStream) -> Line
    requires { track.cylinder < 100 }
    ensures { result.bytes ≡ file_text dumps track passed.now }
{
    if dumps == 1 {
        alone_line(track, passed.why)
    } else {
        passed_line(track, passed.capture, &passed.why)
    }
}

/// The same of one dump: `CC.H missing`, `CC.H failed`, or `CC.H refused block B` or `CC.H refused scp` and the fault.
#[tactic(auto, unfolding(dump_turns::specs::Lines::passed_text))]
fn alone_line(track: TrackId, passed: Passed) -> Line
    ensures { result.bytes ≡ track_text track ++ alone_text passed }
{
    let mut line = Line::new();
    put_two_digits(&mut line, track.cylinder);
    put(&mut line, ".");
    put_u32(&mut line, u32::from(track.head));
    match passed {
        Passed::Absent => put(&mut line, " missing\n"),
        Passed::Failed => put(&mut line, " failed\n"),
        Passed::Refused { block, fault } => {
            put_named(&mut line, " refused block ", block);
            put(&mut line, " ");
            put_fault(&mut line, &fault);
            put(&mut line, "\n");
        }
        Passed::RefusedScp(fault) => {
            put(&mut line, " refused scp ");
            put_scp_fault(&mut line, fault);
            put(&mut line, "\n");
        }
    }
    line
}

/// How many sectors there are, and of which kinds: the first part of the last line.
#[tactic(auto, unfolding(crate::specs::Lines::sectors_text))]
pub(crate) fn sectors_line(totals: &ImdTotals) -> Line
    ensures { result.bytes ≡ sectors_text totals.now }
{
    let mut line = Line::new();
    put_named(&mut line, "total tracks ", totals.tracks);
    put_named(&mut line, " sectors ", totals.sectors);
    put_named(&mut line, " good ", totals.good);
    put_named(&mut line, " bad ", totals.bad);
    put_named(&mut line, " contradictory ", totals.contradictory);
    put_named(&mut line, " deleted ", totals.deleted);
    line
}

/// The rest of it: how many names are left out, and how many files were passed over.
#[tactic(auto, unfolding(crate::specs::Lines::files_text))]
pub(crate) fn files_line(totals: &ImdTotals) -> Line
    ensures { result.bytes ≡ files_text totals.now }
{
    let mut line = Line::new();
    put_named(&mut line, " left ", totals.left);
    put_named(&mut line, " refused ", totals.refused);
    put_named(&mut line, " missing ", totals.missing);
    put_named(&mut line, " maps ", totals.maps);
    put_failed(&mut line, totals.failed);
    put(&mut line, "\n");
    line
}

/// Appends how many files failed, where one did.
fn put_failed(line: &mut Line, failed: u32)
    requires { array_string_len line.old + 18 ≤ 192 }
    ensures bytes { line.new.bytes ≡ line.old.bytes ++ failed_text failed }
    ensures len { array_string_len line.new ≤ array_string_len line.old + 18 }
{
    if failed > 0 {
        put_named(line, " failed ", failed);
    }
}

/// That the drive made one step where it should have made two.
pub(crate) fn asks_line() -> Line
    ensures { result.bytes ≡ asks_text true }
{
    let mut line = Line::new();
    put(&mut line, "ask with --double-step\n");
    line
}
