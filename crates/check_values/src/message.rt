ghost use Rattle.std.specs.Prelude.{◌≡◌, ℕ, List, [], ◌∷◌, ◌++◌};
ghost use Rattle.check_values.specs.Crc.{crc};

use crate::table::{REMAINDERS, REMAINDERS_OF_16, REMAINDERS_OF_24, REMAINDERS_OF_32};

/// The CRC of `bytes` from the register's value `start`: generator x^16 + x^12 + x^5 + 1 (1021), high bit
/// first (IBM 3740, System 34). IBM fields start with FFFF.
pub fn crc16(start: u16, bytes: &[u8]) -> u16
    ensures value { result ≡ crc start bytes.now }

    // Where `start` is the CRC of the bytes before, the result is that of all of them.
    ensures joined { (first : ℕ) (before : List ℕ) → start ≡ crc first before
        → result ≡ crc first (before ++ bytes.now) }
{
    let (fours, rest) = bytes.as_chunks::<4>();
    let mut remainder = start;
    for four in fours {
        remainder = with_four(remainder, *four);
    }
    for byte in rest {
        remainder = with_byte(remainder, *byte);
    }
    remainder
}

/// Four more bytes of the message, as four calls of `with_byte`. The remainder is linear: the register and each byte
/// have shares of their own in it, and a table has the share of what so many bits follow. The register's two bytes are
/// those that the first two bytes of the message meet.
fn with_four(remainder: u16, bytes: [u8; 4]) -> u16
    ensures { result ≡ crc remainder bytes }
{
    let [first, second, third, fourth] = bytes;
    let high = (remainder >> 8) as u8 ^ first;
    let low = (remainder & 0xFF) as u8 ^ second;
    REMAINDERS_OF_32[high as usize]
        ^ REMAINDERS_OF_24[low as usize]
        ^ REMAINDERS_OF_16[third as usize]
        ^ REMAINDERS[fourth as usize]
}

/// One more byte of the message. Shifting is linear: the low byte moves up as it is, and the table has what
/// becomes of the high byte and the message's.
pub(crate) fn with_byte(remainder: u16, byte: u8) -> u16
    ensures { result ≡ crc remainder (byte ∷ []) }
{
    let high = (remainder >> 8) as u8 ^ byte;
    (remainder << 8) ^ REMAINDERS[high as usize]
}
