//! Two sinks more that a track's writer may have, beside those of its image and its notes.

ghost use Rattle.flux_engine.specs.SecondSinks.{SecondNow, no_second};

/// What a writer of two pairs of texts has its second pair in. Where one of them does not take what it is given, the
/// reading goes on, and nothing is said of the second pair from then on.
pub trait SecondSinks {
    /// What they took, and whether that was all.
    ghost now: { Self → SecondNow };
}

/// No second sinks.
#[derive(Clone, Copy, Debug)]
pub struct NoSecond;

impl SecondSinks for NoSecond {
    ghost now = { λ _. no_second };
}
