//! What is said of the files of a dump.

ghost use Rattle.std.specs.Prelude.{◌≡◌, ◌<◌, ◌≤◌, ◌+◌, ◌++◌, ◌^◌, decimal, length};
ghost use Rattle.arrayvec.specs.ArrayString.{array_string_len};
ghost use Rattle.dump_turns.specs.Lines.{counts_text, failed_text, passed_text, speed_text, spread_text, ticks_text};
ghost use Rattle.dump_turns.specs.Lines.{totals_text, track_text, uneven_line_text};
ghost use Rattle.dump_turns.specs.Spreads.{IsBoundedSpread};
ghost use Rattle.dump_turns.specs.Turns.{IsBoundedTurns, speed_of};

use crate::found::FileTurns;
use crate::spread::Spread;
use crate::totals::TurnTotals;
use flux_base::TrackId;
use sector_report::{
    Line, Passed, put, put_fault, put_named, put_scp_fault, put_two_digits, put_u32, put_u64,
};

/// How many ticks are seven seconds.
const TICKS_OF_SEVEN_SECONDS: u64 = 168192000;

/// Why a file is passed over: `CC.H missing`, `CC.H failed`, or `CC.H refused block B` or `CC.H refused scp` and the
/// fault.
#[tactic(auto, unfolding(crate::specs::Lines::passed_text))]
pub(crate) fn passed_line(track: TrackId, passed: Passed) -> Line
    ensures { result.bytes ≡ track_text track ++ passed_text passed }
{
    let mut line = Line::new();
    put_track(&mut line, track);
    match passed {
        Passed::Absent => put(&mut line, " missing\n"),
        Passed::Failed => put(&mut line, " failed\n"),
        Passed::Refused { block, fault } => {
            put_named(&mut line, " refused block ", block);
            put(&mut line, " ");
            put_fault(&mut line, &fault);
            put(&mut line, "\n");
        }
        Passed::RefusedScp(fault) => {
            put(&mut line, " refused scp ");
            put_scp_fault(&mut line, fault);
            put(&mut line, "\n");
        }
    }
    line
}

/// The first part of the line of a file: how many bytes, transitions and revolutions it has.
#[tactic(auto, unfolding(crate::specs::Lines::counts_text))]
pub(crate) fn counts_line(track: TrackId, turns: &FileTurns) -> Line
    ensures { result.bytes ≡ track_text track ++ counts_text turns.now }
{
    let mut line = Line::new();
    put_track(&mut line, track);
    put_named(&mut line, " bytes ", turns.bytes);
    put_named(&mut line, " transitions ", turns.transitions);
    put_named(&mut line, " turns ", turns.turns);
    line
}

/// The rest of it: how long the revolutions are.
#[tactic(auto, unfolding(crate::specs::Lines::ticks_text))]
pub(crate) fn ticks_line(turns: &FileTurns) -> Line
    requires { IsBoundedTurns turns.now }
    ensures { result.bytes ≡ ticks_text turns.now }
{
    let mut line = Line::new();
    put_long(&mut line, " ticks ", turns.least);
    put_long(&mut line, " ", turns.mean());
    put_long(&mut line, " ", turns.greatest);
    put_speed(&mut line, turns.turns, turns.ticks);
    put(&mut line, "\n");
    line
}

/// The line of a file whose mean is far from the median.
#[tactic(auto, unfolding(crate::specs::Lines::uneven_line_text))]
pub(crate) fn uneven_line(track: TrackId, mean: u64) -> Line
    ensures { result.bytes ≡ uneven_line_text track mean }
{
    let mut line = Line::new();
    put(&mut line, "uneven ");
    put_track(&mut line, track);
    put_long(&mut line, " ", mean);
    put(&mut line, "\n");
    line
}

/// How far the means lie apart, and how fast the middle one is.
#[tactic(auto, unfolding(crate::specs::Lines::spread_text))]
pub(crate) fn spread_line(spread: &Spread) -> Line
    requires { IsBoundedSpread spread.now }
    ensures { result.bytes ≡ spread_text spread.now }
{
    let mut line = Line::new();
    put_long(&mut line, "turn least ", spread.least);
    put_long(&mut line, " median ", spread.median);
    put_long(&mut line, " greatest ", spread.greatest);
    put_speed(&mut line, 1, spread.median);
    put(&mut line, "\n");
    line
}

/// How many files there are, and how many of each kind.
#[tactic(auto, unfolding(crate::specs::Lines::totals_text))]
pub(crate) fn totals_line(totals: &TurnTotals) -> Line
    ensures { result.bytes ≡ totals_text totals.now }
{
    let mut line = Line::new();
    put_named(&mut line, "total files ", totals.files);
    put_named(&mut line, " refused ", totals.refused);
    put_named(&mut line, " missing ", totals.missing);
    put_named(&mut line, " uneven ", totals.uneven);
    put_failed(&mut line, totals.failed);
    put(&mut line, "\n");
    line
}

/// Appends how many files failed, where one did.
fn put_failed(line: &mut Line, failed: u32)
    requires { array_string_len line.old + 18 ≤ 192 }
    ensures bytes { line.new.bytes ≡ line.old.bytes ++ failed_text failed }
    ensures len { array_string_len line.new ≤ array_string_len line.old + 18 }
{
    if failed > 0 {
        put_named(line, " failed ", failed);
    }
}

/// Appends `CC.H`.
fn put_track(line: &mut Line, track: TrackId)
    requires { array_string_len line.old + 31 ≤ 192 }
    ensures bytes { line.new.bytes ≡ line.old.bytes ++ track_text track }
    ensures len { array_string_len line.new ≤ array_string_len line.old + 31 }
{
    put_two_digits(line, track.cylinder);
    put(line, ".");
    put_u32(line, u32::from(track.head));
}

/// Appends a name and a number of up to twenty digits.
fn put_long(line: &mut Line, name: &str, number: u64)
    requires { array_string_len line.old + length name.now + 20 ≤ 192 }
    ensures bytes { line.new.bytes ≡ line.old.bytes ++ (name.now ++ decimal number) }
    ensures len { array_string_len line.new ≤ array_string_len line.old + length name.now + 20 }
{
    put(line, name);
    put_u64(line, number);
}

/// Appends the revolutions a minute of so many in so many ticks.
#[tactic(auto, unfolding(crate::specs::Lines::speed_text))]
fn put_speed(line: &mut Line, turns: u32, ticks: u64)
    requires room { array_string_len line.old + 46 ≤ 192 }
    requires few { turns ≤ 262144 }
    requires some { 0 < ticks }
    requires below { ticks < 2 ^ 39 }
    ensures bytes { line.new.bytes ≡ line.old.bytes ++ speed_text turns ticks }
    ensures len { array_string_len line.new ≤ array_string_len line.old + 46 }
{
    let hundredths = speed(turns, ticks);
    put_long(line, " rpm ", hundredths / 100);
    put(line, ".");
    put_two_digits(line, (hundredths % 100) as u8);
}

/// The revolutions a minute in hundredths.
fn speed(turns: u32, ticks: u64) -> u64
    requires few { turns ≤ 262144 }
    requires some { 0 < ticks }
    requires below { ticks < 2 ^ 39 }
    ensures { result ≡ speed_of turns ticks }
{
    (2 * (6000 * (TICKS_OF_SEVEN_SECONDS * u64::from(turns))) + 7 * ticks) / (2 * (7 * ticks))
}
