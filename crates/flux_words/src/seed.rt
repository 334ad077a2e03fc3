ghost use Rattle.std.specs.Prelude.{◌≡◌, ◌<◌, ◌^◌, IfNone, IfSome};
ghost use Rattle.std.specs.Str.Parse.{IsNumeral, digits_value};
ghost use Rattle.flux_words.specs.Names.{Names};
ghost use Rattle.flux_words.specs.Seeds.{IsSeed};

use std::str;

/// The most digits of a seed.
const MOST_DIGITS: usize = 10;

/// The number that a word of 1 to 10 digits writes, if it is at most 4294967295.
pub(crate) fn seed_of(word: &[u8]) -> Option<u32>
    ensures { Names (λ seed. IsSeed seed word.now) result }
{
    if word.len() > MOST_DIGITS {
        return None;
    }
    number_of(word)
}

/// The number that a word of digits alone writes, if it has at most 32 bits.
pub(crate) fn number_of(word: &[u8]) -> Option<u32>
    ensures some { IfSome result
        (λ number. IsNumeral 10 word.now × (digits_value 10 word.now ≡ number) × (number < 2 ^ 32)) }
    ensures none { IfNone result (¬ (IsNumeral 10 word.now × (digits_value 10 word.now < 2 ^ 32))) }
{
    if word.is_empty() {
        return None;
    }
    // The library takes a plus before the digits.
    if word[0] == b'+' {
        return None;
    }
    let Ok(text) = str::from_utf8(word) else {
        return None;
    };
    match u32::from_str_radix(text, 10) {
        Ok(number) => Some(number),
        Err(_) => None,
    }
}
