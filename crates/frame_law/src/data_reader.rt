//! What is done with data where they are found.

ghost use Rattle.std.specs.Prelude.{◌≡◌, ℕ, ◌≤◌, [], List, false, length, ⊤, IsTrue};
ghost use Rattle.flux_base.specs.Bounds.{MOST_SECTOR_BYTES};
ghost use Rattle.frame_law.specs.Frames.{IsSyncInReach};

use crate::{CellsFrom, Layout, SectorBuffer};

/// Reads the data that a search comes to, and keeps their bytes, or not.
pub(crate) trait DataReader {
    /// Data of so many bytes may be read.
    ghost fits: { ℕ → Type 0 };

    /// These bytes are kept, as far as any are.
    ghost keeps: { Self → List ℕ → Type 0 };

    /// Has no bytes any more.
    fn clear(&mut self)
        ensures { keeps self.new [] };

    /// Whether the data that have so many bytes and whose sync stands at the place hold bytes. Then the
    /// reader, which had none, keeps these.
    fn read<L: Layout>(&mut self, layout: &L, size: u16, frame: &CellsFrom, sync: usize) -> bool
        requires fits { fits size }
        requires sync { IsSyncInReach (L.header_end layout.now frame.now) (L.is_sync layout.now frame.now) sync }
        requires whole { L.data_end layout.now size frame.now sync ≤ length frame.now }
        requires empty { keeps self.old [] }
        ensures good { IsTrue result
            → (bytes : List ℕ) × keeps self.new bytes × L.hold layout.now size frame.now sync bytes }
        ensures bad { result ≡ false → (bytes : List ℕ) → ¬ L.hold layout.now size frame.now sync bytes };
}

/// The bytes are put into the buffer.
impl DataReader for SectorBuffer {
    ghost fits = { λ size. size ≤ MOST_SECTOR_BYTES };

    ghost keeps = { λ buffer bytes. buffer.items ≡ bytes };

    fn clear(&mut self) {
        self.clear();
    }

    fn read<L: Layout>(&mut self, layout: &L, size: u16, frame: &CellsFrom, sync: usize) -> bool {
        layout.read_data(size, frame, sync, self)
    }
}

/// No bytes are kept: what is told is whether data stand, which may be more than a buffer has room for.
#[derive(Drop)]
pub(crate) struct NoBytes;

impl DataReader for NoBytes {
    ghost fits = { λ size. ⊤ };

    ghost keeps = { λ reader bytes. ⊤ };

    fn clear(&mut self) {}

    fn read<L: Layout>(&mut self, layout: &L, size: u16, frame: &CellsFrom, sync: usize) -> bool {
        layout.has_content(size, frame, sync)
    }
}
