ghost use Rattle.std.specs.Prelude.{◌≡◌};
ghost use Rattle.flux_words.specs.Counts.{IsCount, IsManyCaptures};
ghost use Rattle.flux_words.specs.Names.{Names};

use crate::seed::number_of;

/// The most digits of a count.
const MOST_DIGITS: usize = 2;

/// The most streams that capture one track.
const MOST_CAPTURES: u32 = 16;

/// The number that a word of one or two digits writes, if it is 1 to 16.
pub(crate) fn count_of(word: &[u8]) -> Option<u32>
    ensures { Names (λ count. IsCount count word.now) result }
{
    if word.len() > MOST_DIGITS {
        return None;
    }
    match number_of(word) {
        Some(count) => captures_of(count),
        None => None,
    }
}

/// So many captures, if there is one and there are not too many.
fn captures_of(count: u32) -> Option<u32>
    ensures { Names (λ many. (many ≡ count) × IsManyCaptures many) result }
{
    if count == 0 {
        return None;
    }
    if count > MOST_CAPTURES {
        return None;
    }
    Some(count)
}
