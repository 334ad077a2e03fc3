ghost use Rattle.std.specs.Prelude.{◌≡◌};
ghost use Rattle.sector_report.specs.Lines.{usage_text};

/// The text for words that are not a command.
pub const USAGE: &str =
    "usage: flux turns | decode FORMAT | report FORMAT | write FORMAT | trial FORMAT SEED | to-g64 FORMAT | from-g64 FORMAT | decode-set FORMAT COUNT | decode-folder FORMAT FOLDER\n";

#[tactic(auto, unfolding(crate::specs::Lines::usage_text))]
/// `USAGE`, as contracts see it.
pub fn usage_line() -> &'static str
    ensures { result.now ≡ usage_text }
{
    USAGE
}
