ghost use Rattle.std.specs.Prelude.{◌≡◌, ℕ, ◌<◌, IfNone, IfSome};
ghost use Rattle.cell_bits.specs.Word.{word_cells};
ghost use Rattle.commodore_gcr.specs.Coding.{gcr};

/// The code of each nibble, five cells (Commodore 1541).
static CODES: [u8; 16] = [
    0b01010, 0b01011, 0b10010, 0b10011, 0b01110, 0b01111, 0b10110, 0b10111, //
    0b01001, 0b11001, 0b11010, 0b11011, 0b01101, 0b11101, 0b11110, 0b10101,
];

/// In the place of a nibble, for five cells that are no code: more than two nibbles together can be.
const NO: u16 = 0x100;

/// The nibble of each code, by the number of its five cells.
static NIBBLES: [u16; 32] = [
    NO, NO, NO, NO, NO, NO, NO, NO, NO, 0x8, 0x0, 0x1, NO, 0xC, 0x4, 0x5, //
    NO, NO, 0x2, 0x3, NO, 0xF, 0x6, 0x7, NO, 0x9, 0xA, 0xB, NO, 0xD, 0xE, NO,
];

/// The ten cells of a byte as a number, high bit first: the code of its high nibble and that of its low one.
pub(crate) fn coded(byte: u8) -> u32
    ensures { word_cells 10 result ≡ gcr byte }
{
    let high = CODES[(byte / 16) as usize];
    let low = CODES[(byte % 16) as usize];
    32 * u32::from(high) + u32::from(low)
}

/// The byte of ten cells, which are given as a number. None where they are not two codes.
pub(crate) fn decoded(cells: u32) -> Option<u8>
    requires { cells < 1024 }
    ensures fits { IfSome result (λ byte. byte < 256) }
    ensures byte { IfSome result (λ byte. gcr byte ≡ word_cells 10 cells) }
    ensures none { IfNone result ((byte : ℕ) → byte < 256 → ¬ (gcr byte ≡ word_cells 10 cells)) }
{
    // both are asked at once whether they are codes
    let byte = 16 * NIBBLES[(cells / 32) as usize] + NIBBLES[(cells % 32) as usize];
    if byte < NO { Some(byte as u8) } else { None }
}
