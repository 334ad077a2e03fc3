ghost use Rattle.std.specs.Prelude.{◌≡◌, ◌+◌, ◌≤◌, ◌++◌, codes, decimal, length};
ghost use Rattle.arrayvec.specs.ArrayString.{array_string_len};
ghost use Rattle.g64_image.specs.Lines.{fault_text, g64_text};

use crate::fault::G64Fault;
use sector_report::{Line, put, put_named};

#[tactic(auto, unfolding(crate::specs::Lines::g64_text))]
/// Why a file was refused: the fault and its numbers.
pub fn g64_line(fault: &G64Fault) -> Line
    ensures { result.bytes ≡ g64_text fault.now }
{
    let mut line = Line::new();
    put(&mut line, "refused g64 ");
    put_fault(&mut line, fault);
    put(&mut line, "\n");
    line
}

#[tactic(auto, unfolding(crate::specs::Lines::fault_text))]
/// Appends the fault's name and its numbers.
fn put_fault(line: &mut Line, fault: &G64Fault)
    requires { array_string_len line.old + 40 ≤ 192 }
    ensures bytes { line.new.bytes ≡ line.old.bytes ++ fault_text fault.now }
    ensures len { array_string_len line.new ≤ array_string_len line.old + 40 }
{
    match *fault {
        G64Fault::TooLarge => put(line, "TooLarge"),
        G64Fault::ShortHeader(length) => put_named(line, "ShortHeader ", length),
        G64Fault::BadSignature => put(line, "BadSignature"),
        G64Fault::BadVersion(version) => put_named(line, "BadVersion ", u32::from(version)),
        G64Fault::BadTracks(tracks) => put_named(line, "BadTracks ", u32::from(tracks)),
        G64Fault::ShortTable(length) => put_named(line, "ShortTable ", length),
        G64Fault::BadOffset { track, offset } => {
            put_two(line, "BadOffset ", u32::from(track), offset);
        }
        G64Fault::ShortTrack { track, length } => {
            put_two(line, "ShortTrack ", u32::from(track), u32::from(length));
        }
    }
}

/// Appends a name and two numbers.
fn put_two(line: &mut Line, name: &str, first: u32, second: u32)
    requires { array_string_len line.old + length name.now + 21 ≤ 192 }
    ensures bytes { line.new.bytes ≡ line.old.bytes ++ (name.now ++ decimal first ++ codes " " ++ decimal second) }
    ensures len { array_string_len line.new ≤ array_string_len line.old + length name.now + 21 }
{
    put_named(line, name, first);
    put_named(line, " ", second);
}
