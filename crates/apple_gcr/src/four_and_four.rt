ghost use Rattle.std.specs.Prelude.{◌≡◌, ℕ, IfNone, IfSome};
ghost use Rattle.apple_gcr.specs.FourAndFour.{AreHalves, first_half, second_half};

/// The bits that each half of a byte in 4-and-4 has set, whatever the byte.
const CLOCK_BITS: u8 = 0xAA;

/// The half that has the bits 7, 5, 3 and 1 of the byte, and that with the bits 6, 4, 2 and 0.
pub(crate) fn halves(byte: u8) -> (u8, u8)
    ensures first { result.0 ≡ first_half byte }
    ensures second { result.1 ≡ second_half byte }
{
    ((byte >> 1) | CLOCK_BITS, byte | CLOCK_BITS)
}

/// The byte whose halves these are. None where they are no byte's, since one lacks a bit that all have.
#[tactic(auto, using(crate::specs::lemmas::StandLaws::byte_read_from))]
pub(crate) fn byte_of(first: u8, second: u8) -> Option<u8>
    ensures some { IfSome result (λ byte. AreHalves first second byte) }
    ensures none { IfNone result ((byte : ℕ) → ¬ AreHalves first second byte) }
{
    let byte = ((first << 1) | 1) & second;
    let (high, low) = halves(byte);
    if high != first {
        return None;
    }
    if low != second {
        return None;
    }
    Some(byte)
}
