//! The names of the faults of an SCP file and of its tracks.

ghost use Rattle.std.specs.Prelude.{◌≡◌, ◌+◌, ◌≤◌, ◌++◌};
ghost use Rattle.arrayvec.specs.ArrayString.{array_string_len};
ghost use Rattle.sector_report.specs.ScpLines.{scp_fault_text, scp_file_fault_text};

use crate::line::{Line, put, put_named};
use scp_files::{ScpFault, ScpTrackFault};

#[tactic(auto, unfolding(crate::specs::ScpLines::scp_fault_text))]
/// Appends the name of a track's fault, and its number.
pub fn put_scp_fault(line: &mut Line, fault: ScpTrackFault)
    requires { array_string_len line.old + 40 ≤ 192 }
    ensures bytes { line.new.bytes ≡ line.old.bytes ++ scp_fault_text fault }
    ensures len { array_string_len line.new ≤ array_string_len line.old + 40 }
{
    match fault {
        ScpTrackFault::ShortTrack => put(line, "ShortTrack"),
        ScpTrackFault::BadSignature => put(line, "BadSignature"),
        ScpTrackFault::BadNumber(number) => put_named(line, "BadNumber ", u32::from(number)),
        ScpTrackFault::TooLong => put(line, "TooLong"),
        ScpTrackFault::ShortData(revolution) => put_named(
            line,
            "ShortData ",
            u32::from(revolution),
        ),
    }
}

#[tactic(auto, unfolding(crate::specs::ScpLines::scp_file_fault_text))]
/// Appends the name of a file's fault, and its number.
pub fn put_scp_file_fault(line: &mut Line, fault: ScpFault)
    requires { array_string_len line.old + 40 ≤ 192 }
    ensures bytes { line.new.bytes ≡ line.old.bytes ++ scp_file_fault_text fault }
    ensures len { array_string_len line.new ≤ array_string_len line.old + 40 }
{
    match fault {
        ScpFault::ShortHeader(size) => put_named(line, "ShortHeader ", u32::from(size)),
        ScpFault::BadSignature => put(line, "BadSignature"),
        ScpFault::NotFloppy => put(line, "NotFloppy"),
        ScpFault::BadWidth(width) => put_named(line, "BadWidth ", u32::from(width)),
    }
}
