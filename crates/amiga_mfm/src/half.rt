ghost use Rattle.std.specs.Prelude.{◌≡◌, ℕ, ◌<◌};
ghost use Rattle.cell_bits.specs.Bytes.{data_cells};
ghost use Rattle.cell_bits.specs.Word.{word_cells};
ghost use Rattle.amiga_mfm.specs.Longs.{half_bytes as bytes_of_half, half_of, long_of_halves};

/// The cells of half a long that hold data: every second one, the last among them.
pub(crate) const DATA_CELLS: u32 = 0x5555_5555;

/// A long is written as two halves, each of 16 of its bits.
#[derive(Clone, Copy)]
pub(crate) enum Half {
    /// Its bits 31, 29, .. 1.
    Odd,
    /// Its bits 30, 28, .. 0.
    Even,
}

impl Half {
    /// The 32 cells of this half of the long, with zeros as clock cells.
    pub(crate) fn of(self, long: u32) -> u32
        ensures { result ≡ half_of self long }
    {
        match self {
            Half::Odd => (long >> 1) & DATA_CELLS,
            Half::Even => long & DATA_CELLS,
        }
    }
}

/// The long of its halves, whatever their clock cells are.
pub(crate) fn joined(odd: u32, even: u32) -> u32
    ensures { result ≡ long_of_halves odd even }
{
    2 * (odd & DATA_CELLS) + (even & DATA_CELLS)
}

/// The two bytes in the data cells of a half.
pub(crate) fn half_bytes(half: u32) -> [u8; 2]
    ensures { result ≡ bytes_of_half half }
{
    let [first, second, third, fourth] = half.to_be_bytes();
    [
        16 * data_nibble(first) + data_nibble(second),
        16 * data_nibble(third) + data_nibble(fourth),
    ]
}

/// The four bits in the data cells of eight cells.
fn data_nibble(cells: u8) -> u8
    ensures cells { word_cells 4 result ≡ data_cells (word_cells 8 cells) }
    ensures bound { result < 16 }
{
    let bits = cells & 0x55;
    let pairs = (bits | bits >> 1) & 0x33;
    (pairs | pairs >> 2) & 0x0F
}
