//! What is said of a track's record, and of what it leaves out.

ghost use Rattle.std.specs.Prelude.{◌≡◌, ◌<◌, ◌≤◌, ◌+◌, ◌*◌, ◌^◌, ◌++◌};
ghost use Rattle.arrayvec.specs.ArrayString.{array_string_len};
ghost use Rattle.imd_records.specs.Lines.{kind_text, left_text, lost_kind, lost_text, mode_text, more_text, name_text};
ghost use Rattle.imd_records.specs.Lines.{track_text};

use crate::choice::Choice;
use crate::mode::Mode;
use flux_base::TrackId;
use name_book::{NameKind, SectorName};
use sector_report::{Line, put, put_named, put_two_digits, put_u32};

/// What a record has: `CC.H mode M size BYTES sectors N good G`.
#[tactic(auto, unfolding(crate::specs::Lines::mode_text))]
pub fn mode_line(track: TrackId, choice: Choice, sectors: u32, good: u32) -> Line
    requires { choice.code < 4 }
    ensures { result.bytes ≡ mode_text track choice sectors good }
{
    let mut line = Line::new();
    put_track(&mut line, track);
    put_named(&mut line, " mode ", u32::from(choice.mode.number()));
    put_named(&mut line, " size ", bytes_of(choice.code));
    put_named(&mut line, " sectors ", sectors);
    put_named(&mut line, " good ", good);
    put(&mut line, "\n");
    line
}

/// The bytes of a sector of a code.
fn bytes_of(code: u8) -> u32
    requires { code < 4 }
    ensures { result ≡ 128 * 2 ^ code }
{
    match code {
        0 => 128,
        1 => 256,
        2 => 512,
        _ => 1024,
    }
}

/// That a sector of the record has no data: `CC.H bad C H S N` or `CC.H contradictory C H S N`.
#[tactic(auto, unfolding(crate::specs::Lines::lost_text))]
pub fn lost_line(track: TrackId, kind: NameKind, name: SectorName) -> Line
    ensures { result.bytes ≡ lost_text track kind name }
{
    let mut line = Line::new();
    put_track(&mut line, track);
    put_lost(&mut line, kind);
    put_name(&mut line, name);
    put(&mut line, "\n");
    line
}

/// Why it has none.
fn put_lost(line: &mut Line, kind: NameKind)
    requires { array_string_len line.old + 20 ≤ 192 }
    ensures bytes { line.new.bytes ≡ line.old.bytes ++ lost_kind kind }
    ensures len { array_string_len line.new ≤ array_string_len line.old + 20 }
{
    match kind {
        NameKind::Whole => put(line, " contradictory"),
        NameKind::Bad => put(line, " bad"),
        NameKind::Bare => put(line, " bad"),
    }
}

/// That a name is left out: `CC.H left M C H S N`, and of which kind it is.
#[tactic(auto, unfolding(crate::specs::Lines::left_text))]
pub fn left_line(track: TrackId, mode: Mode, kind: NameKind, name: SectorName) -> Line
    ensures { result.bytes ≡ left_text track mode kind name }
{
    let mut line = Line::new();
    put_track(&mut line, track);
    put_named(&mut line, " left ", u32::from(mode.number()));
    put_name(&mut line, name);
    put_kind(&mut line, kind);
    line
}

/// Of which kind a name is, up to the line's end.
fn put_kind(line: &mut Line, kind: NameKind)
    requires { array_string_len line.old + 20 ≤ 192 }
    ensures bytes { line.new.bytes ≡ line.old.bytes ++ kind_text kind }
    ensures len { array_string_len line.new ≤ array_string_len line.old + 20 }
{
    match kind {
        NameKind::Whole => put(line, " whole\n"),
        NameKind::Bad => put(line, " bad\n"),
        NameKind::Bare => put(line, " bare\n"),
    }
}

/// That names were passed over: `CC.H left M more`.
#[tactic(auto, unfolding(crate::specs::Lines::more_text))]
pub fn more_line(track: TrackId, mode: Mode) -> Line
    ensures { result.bytes ≡ more_text track mode }
{
    let mut line = Line::new();
    put_track(&mut line, track);
    put_named(&mut line, " left ", u32::from(mode.number()));
    put(&mut line, " more\n");
    line
}

/// Appends the track: `CC.H`.
fn put_track(line: &mut Line, track: TrackId)
    requires { array_string_len line.old + 40 ≤ 192 }
    ensures bytes { line.new.bytes ≡ line.old.bytes ++ track_text track }
    ensures len { array_string_len line.new ≤ array_string_len line.old + 40 }
{
    put_two_digits(line, track.cylinder);
    put(line, ".");
    put_u32(line, u32::from(track.head));
}

/// Cylinder, head, number and code of the size, each with a blank before it.
fn put_name(line: &mut Line, name: SectorName)
    requires { array_string_len line.old + 44 ≤ 192 }
    ensures bytes { line.new.bytes ≡ line.old.bytes ++ name_text name }
    ensures len { array_string_len line.new ≤ array_string_len line.old + 44 }
{
    put_named(line, " ", u32::from(name.cylinder));
    put_named(line, " ", u32::from(name.head));
    put_named(line, " ", u32::from(name.number));
    put_named(line, " ", u32::from(name.code));
}
