ghost use Rattle.std.specs.Prelude.{◌≡◌, ◌+◌, ◌≤◌, ◌<◌, ◌++◌, length, codes, decimal};
ghost use Rattle.arrayvec.specs.ArrayString.{array_string_len};
ghost use Rattle.sector_report.specs.Lines.{named_text, number_of_clock, place_text, sector_name, sector_text};
ghost use Rattle.sector_report.specs.Lines.{source_text, total_text, two_digits, verdict_text};

use crate::line::{Line, put, put_named, put_u8, put_u32, put_u64};
use crate::naming::Naming;
use crate::totals::Totals;
use flux_base::TrackId;
use turn_merge::{Clock, Place, Verdict};

/// What is said of one sector of a track with one stream that one clock read: `CC.H SS` and the verdict, with the
/// numbers of good and of bad readings and the turn and cell of the readings that it names. The cylinder is below 100;
/// a sector of three digits has three.
pub fn sector_line(track: TrackId, sector: u8, verdict: &Verdict) -> Line
    requires { track.cylinder < 100 }
    ensures { result.bytes ≡ sector_text track sector verdict.now }
{
    named_line(Naming::Unnamed, track, sector, verdict)
}

/// The same, with a part of the source of each reading that is named before its turn and cell.
#[tactic(auto, unfolding(crate::specs::Lines::named_text))]
pub fn named_line(naming: Naming, track: TrackId, sector: u8, verdict: &Verdict) -> Line
    requires { track.cylinder < 100 }
    ensures { result.bytes ≡ named_text naming track sector verdict.now }
{
    let mut line = Line::new();
    put_sector(&mut line, track, sector);
    put_verdict(&mut line, naming, verdict);
    put(&mut line, "\n");
    line
}

/// How many sectors there are, and how many of each verdict.
#[tactic(auto, unfolding(crate::specs::Lines::total_text))]
pub fn total_line(totals: &Totals) -> Line
    ensures { result.bytes ≡ total_text totals.now }
{
    let mut line = Line::new();
    put_named(&mut line, "total ", totals.sectors);
    put_named(&mut line, " good ", totals.good);
    put_named(&mut line, " bad ", totals.bad);
    put_named(&mut line, " missing ", totals.missing);
    put_named(&mut line, " contradictory ", totals.contradictory);
    put(&mut line, "\n");
    line
}

/// Appends `CC.H SS ` for a sector of a track, which may have three digits.
#[tactic(auto, unfolding(crate::specs::Lines::sector_name))]
fn put_sector(line: &mut Line, track: TrackId, sector: u8)
    requires cylinder { track.cylinder < 100 }
    requires room { array_string_len line.old + 63 ≤ 192 }
    ensures bytes { line.new.bytes ≡ line.old.bytes ++ sector_name track sector }
    ensures len { array_string_len line.new ≤ array_string_len line.old + 53 }
{
    put_track(line, track);
    put(line, " ");
    put_two_digits(line, sector);
    put(line, " ");
}

/// Appends `CC.H` for a track.
pub(crate) fn put_track(line: &mut Line, track: TrackId)
    requires { array_string_len line.old + 31 ≤ 192 }
    ensures bytes { line.new.bytes ≡ line.old.bytes ++ (two_digits track.cylinder ++ codes "." ++ decimal track.head) }
    ensures len { array_string_len line.new ≤ array_string_len line.old + 31 }
{
    put_two_digits(line, track.cylinder);
    put(line, ".");
    put_u32(line, u32::from(track.head));
}

/// Appends a number in two digits, or in three where it has so many.
#[tactic(auto, unfolding(crate::specs::Lines::two_digits))]
pub fn put_two_digits(line: &mut Line, number: u8)
    requires room { array_string_len line.old + 20 ≤ 192 }
    ensures bytes { line.new.bytes ≡ line.old.bytes ++ two_digits number }
    ensures len { array_string_len line.new ≤ array_string_len line.old + 20 }
{
    put_u32(line, u32::from(number / 10));
    put_u32(line, u32::from(number % 10));
}

/// Appends a verdict's name and numbers.
#[tactic(auto, unfolding(crate::specs::Lines::verdict_text))]
fn put_verdict(line: &mut Line, naming: Naming, verdict: &Verdict)
    requires { array_string_len line.old + 135 ≤ 192 }
    ensures bytes { line.new.bytes ≡ line.old.bytes ++ verdict_text naming verdict.now }
    ensures len { array_string_len line.new ≤ array_string_len line.old + 135 }
{
    match *verdict {
        Verdict::Good { good, bad, first } => {
            put_counts(line, "good ", good, bad);
            put_place(line, naming, first);
        }
        Verdict::Contradictory {
            good,
            bad,
            first,
            other,
        } => {
            put_counts(line, "contradictory ", good, bad);
            put_place(line, naming, first);
            put_place(line, naming, other);
        }
        Verdict::Bad { bad, first } => {
            put(line, "bad 0 ");
            put_u64(line, bad);
            put_place(line, naming, first);
        }
        Verdict::Missing => put(line, "missing 0 0"),
    }
}

/// Appends a verdict's name and the numbers of good and of bad readings.
fn put_counts(line: &mut Line, name: &str, good: u64, bad: u64)
    requires { array_string_len line.old + length name.now + 41 ≤ 192 }
    ensures bytes { line.new.bytes ≡ line.old.bytes ++ (name.now ++ decimal good ++ codes " " ++ decimal bad) }
    ensures len { array_string_len line.new ≤ array_string_len line.old + length name.now + 41 }
{
    put(line, name);
    put_u64(line, good);
    put(line, " ");
    put_u64(line, bad);
}

/// Appends what is named of a place's source, and its turn and cell.
#[tactic(auto, unfolding(crate::specs::Lines::place_text))]
pub fn put_place(line: &mut Line, naming: Naming, place: Place)
    requires { array_string_len line.old + 40 ≤ 192 }
    ensures bytes { line.new.bytes ≡ line.old.bytes ++ place_text naming place }
    ensures len { array_string_len line.new ≤ array_string_len line.old + 40 }
{
    put_source(line, naming, place);
    put_named(line, " ", place.turn);
    put(line, " ");
    put_u64(line, place.cell);
}

/// Appends the number of a place's source that is named, with a blank before it.
fn put_source(line: &mut Line, naming: Naming, place: Place)
    requires { array_string_len line.old + 8 ≤ 192 }
    ensures bytes { line.new.bytes ≡ line.old.bytes ++ source_text naming place }
    ensures len { array_string_len line.new ≤ array_string_len line.old + 8 }
{
    match naming {
        Naming::Unnamed => {}
        Naming::ByCapture => put_number(line, place.capture),
        Naming::ByClock => put_number(line, clock_number(place.clock)),
        Naming::ByCaptureAndClock => {
            put_number(line, place.capture);
            put_number(line, clock_number(place.clock));
        }
    }
}

/// Appends a number with a blank before it.
pub(crate) fn put_number(line: &mut Line, number: u8)
    requires { array_string_len line.old + 4 ≤ 192 }
    ensures bytes { line.new.bytes ≡ line.old.bytes ++ codes " " ++ decimal number }
    ensures len { array_string_len line.new ≤ array_string_len line.old + 4 }
{
    put(line, " ");
    put_u8(line, number);
}

/// The number by which a clock is named.
fn clock_number(clock: Clock) -> u8
    ensures { result ≡ number_of_clock clock }
{
    match clock {
        Clock::Following => 0,
        Clock::Held => 1,
    }
}
