ghost use Rattle.std.specs.Prelude.{◌≡◌, ◌≢◌, ℕ, ◌+◌, ◌<◌, ◌≤◌, length, IfNone, IfSome};
ghost use Rattle.apple_nibbles.specs.Nibbles.{disk_byte, nibble};

use crate::BYTE_CELLS;
use frame_law::CellsFrom;

/// The nibbles of the values 0 to 63.
static NIBBLES: [u8; 64] = [
    0x96, 0x97, 0x9A, 0x9B, 0x9D, 0x9E, 0x9F, 0xA6, 0xA7, 0xAB, 0xAC, 0xAD, 0xAE, 0xAF, 0xB2, 0xB3,
    0xB4, 0xB5, 0xB6, 0xB7, 0xB9, 0xBA, 0xBB, 0xBC, 0xBD, 0xBE, 0xBF, 0xCB, 0xCD, 0xCE, 0xCF, 0xD3,
    0xD6, 0xD7, 0xD9, 0xDA, 0xDB, 0xDC, 0xDD, 0xDE, 0xDF, 0xE5, 0xE6, 0xE7, 0xE9, 0xEA, 0xEB, 0xEC,
    0xED, 0xEE, 0xEF, 0xF2, 0xF3, 0xF4, 0xF5, 0xF6, 0xF7, 0xF9, 0xFA, 0xFB, 0xFC, 0xFD, 0xFE, 0xFF,
];

/// In the place of a value, for a byte that is the nibble of none.
const NO: u8 = 0xFF;

/// The value whose nibble each byte is.
static VALUES_BY_BYTE: [u8; 256] = [
    NO, NO, NO, NO, NO, NO, NO, NO, NO, NO, NO, NO, NO, NO, NO, NO, //
    NO, NO, NO, NO, NO, NO, NO, NO, NO, NO, NO, NO, NO, NO, NO, NO, //
    NO, NO, NO, NO, NO, NO, NO, NO, NO, NO, NO, NO, NO, NO, NO, NO, //
    NO, NO, NO, NO, NO, NO, NO, NO, NO, NO, NO, NO, NO, NO, NO, NO, //
    NO, NO, NO, NO, NO, NO, NO, NO, NO, NO, NO, NO, NO, NO, NO, NO, //
    NO, NO, NO, NO, NO, NO, NO, NO, NO, NO, NO, NO, NO, NO, NO, NO, //
    NO, NO, NO, NO, NO, NO, NO, NO, NO, NO, NO, NO, NO, NO, NO, NO, //
    NO, NO, NO, NO, NO, NO, NO, NO, NO, NO, NO, NO, NO, NO, NO, NO, //
    NO, NO, NO, NO, NO, NO, NO, NO, NO, NO, NO, NO, NO, NO, NO, NO, //
    NO, NO, NO, NO, NO, NO, 0, 1, NO, NO, 2, 3, NO, 4, 5, 6, //
    NO, NO, NO, NO, NO, NO, 7, 8, NO, NO, NO, 9, 10, 11, 12, 13, //
    NO, NO, 14, 15, 16, 17, 18, 19, NO, 20, 21, 22, 23, 24, 25, 26, //
    NO, NO, NO, NO, NO, NO, NO, NO, NO, NO, NO, 27, NO, 28, 29, 30, //
    NO, NO, NO, 31, NO, NO, 32, 33, NO, 34, 35, 36, 37, 38, 39, 40, //
    NO, NO, NO, NO, NO, 41, 42, 43, NO, 44, 45, 46, 47, 48, 49, 50, //
    NO, NO, 51, 52, 53, 54, 55, 56, NO, 57, 58, 59, 60, 61, 62, 63,
];

/// How a byte is taken from the cells, here and nowhere else: the eight cells at the offset, high bit first.
pub fn disk_byte_at(frame: &CellsFrom, offset: usize) -> u8
    requires { offset + 8 ≤ length frame.now }
    ensures { result ≡ disk_byte frame.now offset }
{
    frame.word_at(offset, BYTE_CELLS as u8) as u8
}

/// The nibble of a value of six bits.
pub fn nibble_of(value: u8) -> u8
    requires { value < 64 }
    ensures { result ≡ nibble value }
{
    NIBBLES[value as usize]
}

/// The value whose nibble the byte is. None where it is the nibble of none.
pub fn value_of(byte: u8) -> Option<u8>
    ensures some { IfSome result (λ value. (value < 64) × (nibble value ≡ byte)) }
    ensures none { IfNone result ((value : ℕ) → value < 64 → nibble value ≢ byte) }
{
    let value = VALUES_BY_BYTE[byte as usize];
    if value == NO { None } else { Some(value) }
}
