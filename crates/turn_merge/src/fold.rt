ghost use Rattle.std.specs.Prelude.{◌≡◌, ◌≢◌, ℕ, ◌+◌, ◌*◌, ◌^◌, ◌<◌, ◌≤◌, List, [], ◌∷◌, ◌++◌, length};
ghost use Rattle.turn_merge.specs.Readings.{NotedReading, good_reading, bad_reading};
ghost use Rattle.turn_merge.specs.Book.{counted, part};
ghost use Rattle.turn_merge.specs.inside.Book.{IsOf};

use crate::verdict::{Place, Verdict};

/// The bytes of sector number `index`, where `held` has `size` bytes for each sector.
pub(crate) fn part_of(held: &[u8], index: usize, size: usize) -> &[u8]
    requires { index * size + size ≤ length held.now }
    ensures { result.now ≡ part held.now size index }
{
    let start = index * size;
    let end = start + size;
    &held[start..end]
}

/// The verdict with one more good reading. `held` are the first good reading's bytes, once there is one.
pub(crate) fn with_good(verdict: Verdict, held: &mut [u8], place: Place, bytes: &[u8]) -> Verdict
    requires room { counted verdict + 1 < 2 ^ 64 }
    requires whole { length held.old ≡ length bytes.now }
    ensures count { counted result ≡ counted verdict + 1 }
    ensures stands { (good bad : List NotedReading) (sector : ℕ) → IsOf verdict held.old good bad
        → IsOf result held.new (good ++ good_reading sector place bytes.now ∷ []) bad }
{
    match verdict {
        Verdict::Missing => first_good(0, held, place, bytes),
        Verdict::Bad { bad, .. } => first_good(bad, held, place, bytes),
        Verdict::Good { good, bad, first } => {
            if *held == *bytes {
                // The first place stays.
                Verdict::Good {
                    good: good + 1,
                    bad,
                    first,
                }
            } else {
                Verdict::Contradictory {
                    good: good + 1,
                    bad,
                    first,
                    other: place,
                }
            }
        }
        Verdict::Contradictory {
            good,
            bad,
            first,
            other,
        } => {
            // Two differ already: a later one is only counted.
            Verdict::Contradictory {
                good: good + 1,
                bad,
                first,
                other,
            }
        }
    }
}

/// The verdict with the first good reading, whose bytes are kept, after `bad` bad ones.
fn first_good(bad: u64, held: &mut [u8], place: Place, bytes: &[u8]) -> Verdict
    requires { length held.old ≡ length bytes.now }
    ensures verdict { result ≡ Verdict.Good 1 bad place }
    ensures held { held.new ≡ bytes.now }
{
    held.copy_from_slice(bytes);
    Verdict::Good {
        good: 1,
        bad,
        first: place,
    }
}

/// `with_good` for sector number `index`, where `held` has the bytes of all sectors one after another.
pub(crate) fn with_good_at(
    held: &mut [u8],
    index: usize,
    verdict: Verdict,
    place: Place,
    bytes: &[u8],
) -> Verdict
    requires room { counted verdict + 1 < 2 ^ 64 }
    requires within { index * length bytes.now + length bytes.now ≤ length held.old }
    ensures count { counted result ≡ counted verdict + 1 }
    ensures stands { (good bad : List NotedReading) (sector : ℕ)
        → IsOf verdict (part held.old (length bytes.now) index) good bad
        → IsOf result (part held.new (length bytes.now) index) (good ++ good_reading sector place bytes.now ∷ []) bad }
    ensures others { (k : ℕ) → k ≢ index
        → part held.new (length bytes.now) k ≡ part held.old (length bytes.now) k }
{
    let start = index * bytes.len();
    let end = start + bytes.len();
    with_good(verdict, &mut held[start..end], place, bytes)
}

/// The verdict with one more bad reading.
pub(crate) fn with_bad(verdict: Verdict, place: Place) -> Verdict
    requires { counted verdict + 1 < 2 ^ 64 }
    ensures count { counted result ≡ counted verdict + 1 }
    ensures stands { (good bad : List NotedReading) (sector : ℕ) (held : List ℕ) → IsOf verdict held good bad
        → IsOf result held good (bad ++ bad_reading sector place ∷ []) }
{
    match verdict {
        Verdict::Missing => Verdict::Bad {
            bad: 1,
            first: place,
        },
        Verdict::Bad { bad, first } => Verdict::Bad {
            bad: bad + 1,
            first,
        },
        Verdict::Good { good, bad, first } => Verdict::Good {
            good,
            bad: bad + 1,
            first,
        },
        Verdict::Contradictory {
            good,
            bad,
            first,
            other,
        } => Verdict::Contradictory {
            good,
            bad: bad + 1,
            first,
            other,
        },
    }
}
