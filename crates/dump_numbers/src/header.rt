//! A header in the cells of a track.

use cell_bits::Cells;
use ibm_disks::Rate;
use index_turns::TrackFlux;

/// A header in a track's cells that were recovered by a rate.
#[derive(Clone, Copy)]
pub(crate) struct FoundHeader<'a> {
    pub rate: Rate,
    pub flux: &'a TrackFlux,
    pub cells: &'a Cells,
    /// The cell that it begins with.
    pub place: usize,
    /// How many ones stand up to that cell, with its own.
    pub ones_to: usize,
}
