//! Disks by their numbers, as a word writes them: `mfm-dd-80x2x9x512`, or `fm-sd-40x1x10x256@0`.

ghost use Rattle.std.specs.Prelude.{◌≡◌, ◌≢◌, ℕ, ◌<◌, ◌≤◌, ◌++◌, ◌∷◌, List, [], IfNone, IfSome, IsFalse, IsTrue};
ghost use Rattle.std.specs.Prelude.{decimal, get_or, length};
ghost use Rattle.std.specs.Str.Parse.{AllDigits, digits_value};
ghost use Rattle.ibm_disks.specs.Words.{AreBehindRate, AreShort, EndsWith, HasNo, IsWordOf, IsWordOfRate, density_word};
ghost use Rattle.ibm_disks.specs.Words.{rate_word};

use crate::rate::Rate;
use std::str;

/// The numbers of a disk: how many cylinders and heads it has, how many sectors a track has, of how many bytes each,
/// and the number of the first of them.
#[derive(Clone, Copy, Debug, PartialEq, Eq)]
pub struct DiskNumbers {
    pub rate: Rate,
    pub cylinders: u16,
    pub heads: u16,
    pub sectors: u16,
    pub sector_bytes: u16,
    pub first_sector: u16,
}

impl DiskNumbers {
    /// The numbers that a word writes. None where it is no word of numbers, which have at most four digits each.
    pub fn of_word(word: &[u8]) -> Option<DiskNumbers>
        ensures some { IfSome result (IsWordOf word.now) }
        ensures short { IfSome result AreShort }
        ensures none { IfNone result ((n : DiskNumbers) → AreShort n → ¬ IsWordOf word.now n) }
    {
        let Some((density, rest)) = split_at_first(word, b'-') else {
            return None;
        };
        let Some((name, rest)) = split_at_first(rest, b'-') else {
            return None;
        };
        match rate_of(density, name) {
            Some(rate) => behind_rate(rate, rest),
            None => None,
        }
    }
}

/// The rate that the two parts of a word name.
fn rate_of(density: &[u8], name: &[u8]) -> Option<Rate>
    ensures some { IfSome result (IsWordOfRate density.now name.now) }
    ensures none { IfNone result ((rate : Rate) → ¬ IsWordOfRate density.now name.now rate) }
{
    if density == b"mfm".as_slice() {
        return double_rate(name);
    }
    if density == b"fm".as_slice() {
        return single_rate(name);
    }
    None
}

/// That of a disk of double density.
fn double_rate(name: &[u8]) -> Option<Rate>
    ensures some { IfSome result (IsWordOfRate (109 ∷ 102 ∷ 109 ∷ []) name.now) }
    ensures none { IfNone result ((rate : Rate) → ¬ IsWordOfRate (109 ∷ 102 ∷ 109 ∷ []) name.now rate) }
{
    if name == b"dd".as_slice() {
        Some(Rate::Double)
    } else if name == b"hd".as_slice() {
        Some(Rate::High)
    } else if name == b"hd360".as_slice() {
        Some(Rate::HighAt360)
    } else {
        None
    }
}

/// That of a disk of single density.
fn single_rate(name: &[u8]) -> Option<Rate>
    ensures some { IfSome result (IsWordOfRate (102 ∷ 109 ∷ []) name.now) }
    ensures none { IfNone result ((rate : Rate) → ¬ IsWordOfRate (102 ∷ 109 ∷ []) name.now rate) }
{
    if name == b"sd".as_slice() {
        Some(Rate::Single)
    } else if name == b"sd8".as_slice() {
        Some(Rate::SingleAt360)
    } else {
        None
    }
}

/// The numbers behind the rate.
fn behind_rate(rate: Rate, text: &[u8]) -> Option<DiskNumbers>
    ensures some { IfSome result (AreBehindRate rate text.now) }
    ensures short { IfSome result AreShort }
    ensures none { IfNone result ((n : DiskNumbers) → AreShort n → ¬ AreBehindRate rate text.now n) }
{
    let Some((cylinders, text)) = number_before_x(text) else {
        return None;
    };
    let Some((heads, text)) = number_before_x(text) else {
        return None;
    };
    let Some((sectors, text)) = number_before_x(text) else {
        return None;
    };
    let Some((sector_bytes, first_sector)) = size_and_first(text) else {
        return None;
    };
    Some(DiskNumbers {
        rate,
        cylinders,
        heads,
        sectors,
        sector_bytes,
        first_sector,
    })
}

/// The bytes of a sector, and the number of the first one, which is 1 where the text does not say it.
fn size_and_first(text: &[u8]) -> Option<(u16, u16)>
    ensures some { IfSome result (λ n. EndsWith text.now n.0 n.1) }
    ensures short { IfSome result (λ n. (n.0 < 10000) × (n.1 < 10000)) }
    ensures none { IfNone result ((bytes first : ℕ) → bytes < 10000 → first < 10000 → ¬ EndsWith text.now bytes first) }
{
    let Some((bytes, first)) = split_at_first(text, b'@') else {
        return match number_of(text) {
            Some(bytes) => Some((bytes, 1)),
            None => None,
        };
    };
    let Some(bytes) = number_of(bytes) else {
        return None;
    };
    let Some(first) = number_of(first) else {
        return None;
    };
    Some((bytes, first))
}

/// The number before the first `x`, and what stands behind it.
fn number_before_x(text: &[u8]) -> Option<(u16, &[u8])>
    ensures some { IfSome result (λ n. (n.0 < 10000) × (text.now ≡ decimal n.0 ++ 120 ∷ n.1.now)) }
    ensures none { IfNone result ((n : ℕ) (rest : List ℕ) → n < 10000 → text.now ≢ decimal n ++ 120 ∷ rest) }
{
    let Some((digits, rest)) = split_at_first(text, b'x') else {
        return None;
    };
    match number_of(digits) {
        Some(number) => Some((number, rest)),
        None => None,
    }
}

/// What stands before the first of these bytes, and what stands behind it.
fn split_at_first(text: &[u8], stop: u8) -> Option<(&[u8], &[u8])>
    ensures some { IfSome result (λ parts. HasNo stop parts.0.now × (text.now ≡ parts.0.now ++ stop ∷ parts.1.now)) }
    ensures none { IfNone result ((front rest : List ℕ) → text.now ≢ front ++ stop ∷ rest) }
{
    for index in 0..text.len() {
        if text[index] == stop {
            return Some((&text[..index], &text[index + 1..]));
        }
    }
    None
}

/// The number that one to four digits write, of which the first is a zero in no other number than 0.
fn number_of(text: &[u8]) -> Option<u16>
    ensures some { IfSome result (λ n. (n < 10000) × (text.now ≡ decimal n)) }
    ensures none { IfNone result ((n : ℕ) → n < 10000 → text.now ≢ decimal n) }
{
    if text.len() == 0 {
        return None;
    }
    if text.len() > 4 {
        return None;
    }
    if is_padded(text) {
        return None;
    }
    value_of(text)
}

/// Whether a zero stands before other digits.
fn is_padded(text: &[u8]) -> bool
    requires some { 0 < length text.now }
    ensures yes { IsTrue result → (get_or text.now 0 0 ≡ 48) × (1 < length text.now) }
    ensures no { IsFalse result → get_or text.now 0 0 ≡ 48 → length text.now ≡ 1 }
{
    if text.len() == 1 {
        return false;
    }
    text[0] == b'0'
}

/// The number that digits write. None where a byte is no digit.
fn value_of(text: &[u8]) -> Option<u16>
    requires some { 0 < length text.now }
    requires few { length text.now ≤ 4 }
    ensures some { IfSome result (λ n. AllDigits 10 text.now × (n ≡ digits_value 10 text.now)) }
    ensures none { IfNone result (¬ AllDigits 10 text.now) }
{
    // The library takes a plus before the digits.
    if text[0] == b'+' {
        return None;
    }
    let Ok(digits) = str::from_utf8(text) else {
        return None;
    };
    match u16::from_str_radix(digits, 10) {
        Ok(number) => Some(number),
        Err(_) => None,
    }
}
