ghost use Rattle.std.specs.Prelude.{◌≡◌, ◌≤◌, ◌<◌, ◌++◌, ℕ, List, length, slice_index, IfSome, IfNone};
ghost use Rattle.kryo_stream.specs.Padding.{padding_of};

/// The byte that padding consists of. It also begins each out-of-band block.
const OUT_OF_BAND: u8 = 0x0D;

/// How many bytes at most are passed over between two streams.
const MOST_PADDING: usize = 16;

/// How many bytes of padding stand at the front of the input, of which `bytes` are the first bytes.
/// None where that depends on the bytes that follow: `bytes` are then padding if no byte follows.
pub fn padding_at_hand(bytes: &[u8]) -> Option<usize>
    ensures settled { IfSome result (λ count. (later : List ℕ) → padding_of (bytes.now ++ later) ≡ count) }
    ensures within { IfSome result (λ count. count < length bytes.now) }
    ensures short { IfNone result (length bytes.now ≤ 16) }
    ensures at_end { IfNone result (padding_of bytes.now ≡ length bytes.now) }
{
    for (place, byte) in bytes.iter().enumerate() {
        if place > MOST_PADDING {
            return Some(MOST_PADDING);
        }
        if *byte != OUT_OF_BAND {
            return Some(place.saturating_sub(1));
        }
    }
    if bytes.len() > MOST_PADDING {
        return Some(MOST_PADDING);
    }
    None
}
