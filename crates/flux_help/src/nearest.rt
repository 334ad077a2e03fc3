ghost use Rattle.std.specs.Prelude.{◌≡◌, ◌<◌, cond, count_by, length, nat_eq};
ghost use Rattle.flux_help.specs.Nearest.{differing, is_nearer, is_shared, nearest, shared};
ghost use Rattle.sector_images.specs.Formats.{row};

use sector_images::{Format, all_formats};

/// The format whose word is nearest to this one; of several the first of the table.
pub fn nearest_format(word: &[u8]) -> Format
    ensures { result ≡ nearest word.now }
{
    let mut best = Format::Ibm3740;
    for format in all_formats() {
        best = nearer(*format, best, word);
    }
    best
}

/// The first of two formats where its word differs less, and else the second.
fn nearer(format: Format, best: Format, word: &[u8]) -> Format
    ensures { result ≡ cond (is_nearer word.now format best) format best }
{
    if differing(format, word) < differing(best, word) {
        format
    } else {
        best
    }
}

/// How many letters a format's word and this one do not share; those of this one count twice.
fn differing(format: Format, word: &[u8]) -> u128
    ensures { result ≡ differing (row format).word word.now }
{
    let own = format.word();
    let name = own.as_str().as_bytes();
    let shared = shared(name, word);
    2 * (word.len().saturating_sub(shared) as u128) + (name.len().saturating_sub(shared) as u128)
}

/// How many letters of a name a word has too, each as often as both have it.
fn shared(name: &[u8], word: &[u8]) -> usize
    ensures { result ≡ shared name.now word.now }
{
    let mut count = 0usize;
    for place in 0..name.len() {
        if is_shared(name, word, place) {
            count += 1;
        }
    }
    count
}

/// Whether a word has the letter at a place of a name too, more often than it stands before the place.
fn is_shared(name: &[u8], word: &[u8], place: usize) -> bool
    requires { place < length name.now }
    ensures { result ≡ is_shared name.now word.now place }
{
    let letter = name[place];
    times(letter, &name[..place]) < times(letter, word)
}

/// How often a letter stands in a word.
fn times(letter: u8, word: &[u8]) -> usize
    ensures { result ≡ count_by (λ other. nat_eq other letter) word.now }
{
    let mut count = 0usize;
    for other in word {
        if *other == letter {
            count += 1;
        }
    }
    count
}
