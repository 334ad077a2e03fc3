//! What the definition of what is told of a dump's turns comes to.

ghost use Rattle.dump_turns.specs.Laws.{NoFilesAreNoTurns, TurnsAreOne};

/// The files on the shelf, and which of them failed, decide all lines and totals of a dump, or that it is refused.
pub fn turns_are_one()
    ensures one { TurnsAreOne }
    ensures refused { NoFilesAreNoTurns }
{}
