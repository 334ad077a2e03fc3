//! The words of disks.

ghost use Rattle.std.specs.Prelude.{◌≡◌, ◌+◌, ◌≤◌, ◌++◌, decimal, length};
ghost use Rattle.arrayvec.specs.ArrayString.{array_string_len};
ghost use Rattle.ibm_disks.specs.Words.{density_word, first_word, numbers_word, rate_word};

use crate::rate::Rate;
use crate::track_numbers::TrackNumbers;
use arrayvec::ArrayString;
use itoa::Buffer;

/// A word of at most 32 bytes.
pub type DiskWord = ArrayString<32>;

/// The word of a disk of so many cylinders and heads, and these tracks.
pub(crate) fn disk_word(rate: Rate, cylinders: u8, heads: u8, track: TrackNumbers) -> DiskWord
    ensures { result.bytes ≡ numbers_word rate cylinders heads track }
{
    let mut word = DiskWord::new();
    put(&mut word, density_text(rate));
    put(&mut word, "-");
    put(&mut word, rate_text(rate));
    put(&mut word, "-");
    put_number(&mut word, cylinders);
    put(&mut word, "x");
    put_number(&mut word, heads);
    put(&mut word, "x");
    put_number(&mut word, track.sectors);
    put(&mut word, "x");
    put_bytes(&mut word, track.size.bytes());
    put_first(&mut word, track.first_sector);
    word
}

/// A name as a word.
pub fn name_word(name: &str) -> DiskWord
    requires { length name.now ≤ 32 }
    ensures { result.bytes ≡ name.now }
{
    let mut word = DiskWord::new();
    word.push_str(name);
    word
}

/// Appends a text.
fn put(word: &mut DiskWord, text: &str)
    requires { array_string_len word.old + length text.now ≤ 32 }
    ensures bytes { word.new.bytes ≡ word.old.bytes ++ text.now }
    ensures len { array_string_len word.new ≡ array_string_len word.old + length text.now }
{
    word.push_str(text);
}

/// Appends a number, which has at most three digits.
fn put_number(word: &mut DiskWord, number: u8)
    requires { array_string_len word.old + 3 ≤ 32 }
    ensures bytes { word.new.bytes ≡ word.old.bytes ++ decimal number }
    ensures len { array_string_len word.new ≤ array_string_len word.old + 3 }
{
    word.push_str(Buffer::new().format(number));
}

/// Appends a number, which has at most five digits.
fn put_bytes(word: &mut DiskWord, number: u16)
    requires { array_string_len word.old + 5 ≤ 32 }
    ensures bytes { word.new.bytes ≡ word.old.bytes ++ decimal number }
    ensures len { array_string_len word.new ≤ array_string_len word.old + 5 }
{
    word.push_str(Buffer::new().format(number));
}

/// Appends the number of the first sector, where it is not 1.
fn put_first(word: &mut DiskWord, first: u8)
    requires { array_string_len word.old + 4 ≤ 32 }
    ensures { word.new.bytes ≡ word.old.bytes ++ first_word first }
{
    if first != 1 {
        put(word, "@");
        put_number(word, first);
    }
}

/// The recording of a rate's disks.
fn density_text(rate: Rate) -> &'static str
    ensures text { result.now ≡ density_word rate }
    ensures short { length result.now ≤ 3 }
{
    match rate {
        Rate::Double | Rate::High | Rate::HighAt360 => "mfm",
        Rate::Single | Rate::SingleAt360 => "fm",
    }
}

/// A rate.
fn rate_text(rate: Rate) -> &'static str
    ensures text { result.now ≡ rate_word rate }
    ensures short { length result.now ≤ 5 }
{
    match rate {
        Rate::Double => "dd",
        Rate::High => "hd",
        Rate::HighAt360 => "hd360",
        Rate::Single => "sd",
        Rate::SingleAt360 => "sd8",
    }
}
