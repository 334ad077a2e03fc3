//! How many cells are recovered at most.
ghost use Rattle.phase_loop.specs.Sizes.{CellsAreFew};

/// No more than 32 cells are recovered for each transition.
pub fn cells_are_few()
    ensures { CellsAreFew }
{}
