//! The kinds of verdicts, and how each looks. The four shapes are told apart without their colours, and each colour has
//! another lightness.

ghost use Rattle.std.specs.Prelude.{◌≡◌};
ghost use Rattle.disk_map.specs.Looks.{colour_of, kind_of, name_of, shape_of};

use turn_merge::Verdict;

/// A verdict without its numbers.
#[derive(Clone, Copy, Debug, PartialEq, Eq)]
pub enum Kind {
    /// All good readings agree.
    Good,
    /// Good readings hold different data.
    Contradictory,
    /// No reading is good.
    Bad,
    /// There is no reading.
    Missing,
}

/// The kind of a verdict.
pub fn kind_of(verdict: &Verdict) -> Kind
    ensures { result ≡ kind_of verdict.now }
{
    match *verdict {
        Verdict::Good { .. } => Kind::Good,
        Verdict::Contradictory { .. } => Kind::Contradictory,
        Verdict::Bad { .. } => Kind::Bad,
        Verdict::Missing => Kind::Missing,
    }
}

/// The name, as the report has it.
pub fn name_of(kind: Kind) -> &'static str
    ensures { result.now ≡ name_of kind }
{
    match kind {
        Kind::Good => "good",
        Kind::Contradictory => "contradictory",
        Kind::Bad => "bad",
        Kind::Missing => "missing",
    }
}

/// The colour: green, violet, red, grey.
pub(crate) fn colour_of(kind: Kind) -> &'static str
    ensures { result.now ≡ colour_of kind }
{
    match kind {
        Kind::Good => "#5aae61",
        Kind::Contradictory => "#40004b",
        Kind::Bad => "#d6301d",
        Kind::Missing => "#8c8c8c",
    }
}

/// The shape, from its upper left corner on, ten units wide and high: a square, an hourglass, a cross, a frame.
pub(crate) fn shape_of(kind: Kind) -> &'static str
    ensures { result.now ≡ shape_of kind }
{
    match kind {
        Kind::Good => "h10v10h-10z",
        Kind::Contradictory => "l10 0l-10 10h10z",
        Kind::Bad => "l3 0l2 3l2 -3h3l-3 5l3 5h-3l-2 -3l-2 3h-3l3 -5z",
        Kind::Missing => "v10h10v-10zm2 2h6v6h-6z",
    }
}
