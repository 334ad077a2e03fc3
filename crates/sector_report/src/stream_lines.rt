ghost use Rattle.std.specs.Prelude.{◌≡◌};
ghost use Rattle.sector_report.specs.Lines.{transitions_text, turn_text};

use crate::line::{Line, put, put_u32, put_u64};

#[tactic(auto, unfolding(crate::specs::Lines::transitions_text))]
/// How many flux transitions a stream has.
pub fn transitions_line(count: u32) -> Line
    ensures { result.bytes ≡ transitions_text count }
{
    let mut line = Line::new();
    put(&mut line, "transitions ");
    put_u32(&mut line, count);
    put(&mut line, "\n");
    line
}

#[tactic(auto, unfolding(crate::specs::Lines::turn_text))]
/// The length of a turn in ticks; turn 1 is the first whole one.
pub fn turn_line(turn: u32, ticks: u64) -> Line
    ensures { result.bytes ≡ turn_text turn ticks }
{
    let mut line = Line::new();
    put(&mut line, "turn ");
    put_u32(&mut line, turn);
    put(&mut line, " ");
    put_u64(&mut line, ticks);
    put(&mut line, "\n");
    line
}
