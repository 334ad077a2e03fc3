ghost use Rattle.std.specs.Prelude.{◌≡◌, ◌+◌, ◌≤◌, ◌<◌, ◌++◌};
ghost use Rattle.arrayvec.specs.ArrayString.{array_string_len};
ghost use Rattle.track_shelf.specs.Names.{ending_text, file_name_text, missing_text};

use flux_base::TrackId;
use sector_report::{Line, put, put_two_digits, put_u32};

/// The name of a track's file, `trackCC.H.raw`. The cylinder is below 100 and the head below 10.
pub fn file_name(track: TrackId) -> Line
    requires cylinder { track.cylinder < 100 }
    requires head { track.head < 10 }
    ensures { result.bytes ≡ file_name_text track }
{
    let mut name = Line::new();
    put_file_name(&mut name, track);
    name
}

/// Why a folder is refused: the number of the first track, from 0 in the order of reading, whose file it lacks, and
/// the file's name. The cylinder is below 100 and the head below 10.
#[tactic(auto, unfolding(crate::specs::Names::missing_text))]
pub fn missing_line(number: u32, track: TrackId) -> Line
    requires cylinder { track.cylinder < 100 }
    requires head { track.head < 10 }
    ensures { result.bytes ≡ missing_text number track }
{
    let mut line = Line::new();
    put(&mut line, "refused track ");
    put_u32(&mut line, number);
    put(&mut line, " missing ");
    put_file_name(&mut line, track);
    put(&mut line, "\n");
    line
}

/// Appends `trackCC.H.raw`.
#[tactic(auto, unfolding(crate::specs::Names::file_name_text))]
pub(crate) fn put_file_name(line: &mut Line, track: TrackId)
    requires room { array_string_len line.old + 60 ≤ 192 }
    ensures bytes { line.new.bytes ≡ line.old.bytes ++ file_name_text track }
    ensures len { array_string_len line.new ≤ array_string_len line.old + 60 }
{
    put(line, "track");
    put_ending(line, track);
}

/// Appends `CC.H.raw`, with which the name of a track's file ends.
#[tactic(auto, unfolding(crate::specs::Names::ending_text))]
pub(crate) fn put_ending(line: &mut Line, track: TrackId)
    requires room { array_string_len line.old + 50 ≤ 192 }
    ensures bytes { line.new.bytes ≡ line.old.bytes ++ ending_text track }
    ensures len { array_string_len line.new ≤ array_string_len line.old + 50 }
{
    put_two_digits(line, track.cylinder);
    put(line, ".");
    put_u32(line, u32::from(track.head));
    put(line, ".raw");
}
