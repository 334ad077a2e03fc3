//! What the two rules have to do with one another and with the cells.

ghost use Rattle.apple_gcr.specs.Rules.{ControllerWaitsForOnes, StrictReadsInARow, StrictStandsByController};

/// By the strict rule a byte is read every eight cells; by the controller's it begins at the next one; and what
/// stands by the strict rule stands by the controller's, with the same bytes.
pub fn rules_agree()
    ensures strict { StrictReadsInARow }
    ensures controller { ControllerWaitsForOnes }
    ensures both { StrictStandsByController }
{}
