//! What is read in the cells of a stream.

ghost use Rattle.std.specs.Prelude.{◌≤◌, ℕ, Bool, List, length};
ghost use Rattle.flux_engine.specs.Gathering.{AreCellsOf};

use cell_bits::Cells;
use index_turns::TrackFlux;

/// Reads something in the cells that were recovered of a stream's transitions.
pub trait CellReader<R> {
    /// This is read in these cells of a stream with these times of transitions and indexes.
    ghost reads: { Self → List ℕ → List ℕ → List Bool → R → Type 0 };

    /// Reads it. The stream has two index times at least. No memory is taken.
    fn read(&self, flux: &TrackFlux, cells: &Cells) -> R
        requires turns { 2 ≤ length flux.now.indexes }
        requires cells { AreCellsOf flux.now.times cells.now.cells }
        ensures { reads self.now flux.now.times flux.now.indexes cells.now.cells result };
}
