ghost use Rattle.std.specs.Prelude.{◌≡◌};
ghost use Rattle.sector_report.specs.Lines.{trial_text};

use crate::line::{Line, put, put_named, put_u32, put_u64};
use crate::totals::Totals;
use sector_images::Format;

#[tactic(auto, unfolding(crate::specs::Lines::trial_text))]
/// What a trial came to: the format and the number that it was made from, how many tracks were decoded, their
/// totals, and the sum of the bytes of the decoded image.
pub fn trial_line(format: Format, seed: u32, tracks: u32, totals: &Totals, sum: u64) -> Line
    ensures { result.bytes ≡ trial_text format seed tracks totals.now sum }
{
    let mut line = Line::new();
    put(&mut line, "trial ");
    put(&mut line, format.word().as_str());
    put_named(&mut line, " ", seed);
    put_named(&mut line, " tracks ", tracks);
    put_named(&mut line, " sectors ", totals.sectors);
    put_named(&mut line, " good ", totals.good);
    put_named(&mut line, " bad ", totals.bad);
    put_named(&mut line, " missing ", totals.missing);
    put_named(&mut line, " contradictory ", totals.contradictory);
    put(&mut line, " sum ");
    put_u64(&mut line, sum);
    put(&mut line, "\n");
    line
}
