ghost use Rattle.std.specs.Prelude.{◌≡◌, ◌≤◌, ◌++◌, Some, codes, length, not};
ghost use Rattle.std.specs.List.{position_from};
ghost use Rattle.std.specs.Option.{option_map};
ghost use Rattle.flux_base.specs.Moments.{Puts};
ghost use Rattle.flux_base.specs.World.{sink_at};
ghost use Rattle.ibm_disks.specs.Words.{begins_numbers};
ghost use Rattle.sector_images.specs.Formats.{formats};
ghost use Rattle.flux_help.specs.Meanings.{no_format_ending};
ghost use Rattle.flux_help.specs.Nearest.{nearest_text};
ghost use Rattle.flux_help.specs.WrongWords.{ending_behind, ending_of, format_word, has_format_word, is_named};
ghost use Rattle.flux_help.specs.WrongWords.{is_option, names_folder, told_behind, told_by, usage_by, wants_format};
ghost use Rattle.flux_help.specs.WrongWords.{wrong_text};

use crate::meanings::meaning_of;
use crate::nearest::nearest_format;
use crate::unfit::numbers_ending;
use crate::verb::Verb;
use flux_base::{Failed, Sink, Word, write_whole};
use sector_images::{Format, all_formats};
use sector_report::{Line, put, usage_line, write_line};

/// Writes what is told of words that are no command. After `Failed` a part of it was written.
pub fn write_wrong_words<N: Sink>(words: &[Word], notes: &mut N) -> Result<(), Failed>
    ensures { Puts (sink_at N.Sink notes.old) (sink_at N.Sink notes.new) (wrong_text words.now) result }
{
    match words {
        [] => write_whole(notes, usage_line().as_bytes()),
        [first, others @ ..] => write_behind(Verb::of_word(first.bytes()), others, notes),
    }
}

/// Writes what is told of the words behind a command's.
fn write_behind<N: Sink>(verb: Option<Verb>, words: &[Word], notes: &mut N) -> Result<(), Failed>
    ensures { Puts (sink_at N.Sink notes.old) (sink_at N.Sink notes.new) (told_behind verb words.now) result }
{
    if names_folder(verb, words) {
        write_whole(notes, Verb::Write.texts().usage.as_bytes())
    } else {
        write_at_format(verb, words, notes)
    }
}

/// Whether the usage line does not name what these words ask, though it names their command.
fn names_folder(verb: Option<Verb>, words: &[Word]) -> bool
    ensures { result ≡ names_folder verb words.now }
{
    match verb {
        Some(Verb::Write) => match words {
            [option, ..] => option.bytes() == b"--folder".as_slice(),
            [] => false,
        },
        _ => false,
    }
}

/// Writes what is told by the word in a format's place.
fn write_at_format<N: Sink>(verb: Option<Verb>, words: &[Word], notes: &mut N) -> Result<(), Failed>
    ensures { Puts (sink_at N.Sink notes.old) (sink_at N.Sink notes.new) (told_by verb (format_word words.now)) result }
{
    match format_word(words) {
        Some(word) => write_by(verb, word.bytes(), notes),
        None => write_whole(notes, usage_of(verb).as_bytes()),
    }
}

/// The word in a format's place, of those behind a command's: the first that is no option.
fn format_word(words: &[Word]) -> Option<&Word>
    ensures { option_map (λ word. word.now) result ≡ format_word words.now }
{
    match format_word_place(words) {
        Some(place) => words.get(place),
        None => None,
    }
}

/// Where the first word stands that is no option.
fn format_word_place(words: &[Word]) -> Option<usize>
    ensures { result ≡ position_from (λ word. not (is_option word)) 0 words.now }
{
    words.iter().position(|word| !is_option(word.bytes()))
}

/// Whether a word begins with a minus.
fn is_option(word: &[u8]) -> bool
    ensures { result ≡ is_option word.now }
{
    matches!(word, [b'-', ..])
}

/// Writes what is told by the first word and the one in a format's place.
fn write_by<N: Sink>(verb: Option<Verb>, word: &[u8], notes: &mut N) -> Result<(), Failed>
    ensures { Puts (sink_at N.Sink notes.old) (sink_at N.Sink notes.new) (told_by verb (Some word.now)) result }
{
    match ending_behind(verb, word) {
        Some(ending) => write_no_format(word, &ending, notes),
        None => write_whole(notes, usage_of(verb).as_bytes()),
    }
}

/// The end of the line on a word where a format's should stand, and none has it.
fn ending_behind(verb: Option<Verb>, word: &[u8]) -> Option<Line>
    ensures { option_map (λ line. line.bytes) result ≡ ending_behind verb word.now }
{
    if wants_format(verb) {
        ending_of(word)
    } else {
        None
    }
}

/// Whether a format follows a command's word that the usage line does not name.
fn wants_format(verb: Option<Verb>) -> bool
    ensures { result ≡ wants_format verb }
{
    match verb {
        Some(verb) => verb.is_own() && verb.asks_format(),
        None => false,
    }
}

/// The line on the words of a command, where it is one that the usage line does not name; else the usage line.
fn usage_of(verb: Option<Verb>) -> &'static str
    ensures { result.now ≡ usage_by verb }
{
    match verb {
        Some(verb) => {
            if verb.is_own() {
                verb.texts().usage
            } else {
                usage_line()
            }
        }
        None => usage_line(),
    }
}

/// The end of the line on a word that no format has.
fn ending_of(word: &[u8]) -> Option<Line>
    ensures { option_map (λ line. line.bytes) result ≡ ending_of word.now }
{
    if is_named(word) {
        None
    } else if begins_numbers(word) {
        numbers_ending(word)
    } else {
        Some(no_format_ending(word))
    }
}

/// Whether a format has this word.
fn is_named(word: &[u8]) -> bool
    ensures { result ≡ is_named word.now }
{
    format_place(word).is_some()
}

/// Whether a word begins as those do that write a disk's numbers.
fn begins_numbers(word: &[u8]) -> bool
    ensures { result ≡ begins_numbers word.now }
{
    match word {
        [b'f', b'm', b'-', ..] => true,
        [b'm', b'f', b'm', b'-', ..] => true,
        _ => false,
    }
}

/// Where the format of this word stands in the table.
fn format_place(word: &[u8]) -> Option<usize>
    ensures { result ≡ position_from (has_format_word word.now) 0 formats }
{
    all_formats()
        .iter()
        .position(|format| has_word(*format, word))
}

/// Whether a format has this word.
fn has_word(format: Format, word: &[u8]) -> bool
    ensures { result ≡ has_format_word word.now format }
{
    format.word().as_str().as_bytes() == word
}

/// Writes that no format has this word, and the end of the line.
fn write_no_format<N: Sink>(word: &[u8], ending: &Line, notes: &mut N) -> Result<(), Failed>
    ensures { Puts (sink_at N.Sink notes.old) (sink_at N.Sink notes.new)
        (codes "no format " ++ (word.now ++ ending.now.bytes)) result }
{
    match write_whole(notes, "no format ".as_bytes()) {
        Ok(()) => write_word(word, ending, notes),
        Err(failed) => Err(failed),
    }
}

/// Writes a word, and the end of the line.
fn write_word<N: Sink>(word: &[u8], ending: &Line, notes: &mut N) -> Result<(), Failed>
    ensures { Puts (sink_at N.Sink notes.old) (sink_at N.Sink notes.new) (word.now ++ ending.now.bytes) result }
{
    match write_whole(notes, word) {
        Ok(()) => write_line(notes, ending),
        Err(failed) => Err(failed),
    }
}

/// What a word means that no format has, or else the format whose word is nearest.
fn no_format_ending(word: &[u8]) -> Line
    ensures { result.bytes ≡ no_format_ending word.now }
{
    match meaning_of(word) {
        Some(meaning) => line_of(meaning.ending),
        None => nearest_line(word),
    }
}

/// A text of at most 100 bytes as a line.
fn line_of(text: &str) -> Line
    requires { length text.now ≤ 100 }
    ensures { result.bytes ≡ text.now }
{
    let mut line = Line::new();
    put(&mut line, text);
    line
}

/// The end of a line that names the format whose word is nearest.
fn nearest_line(word: &[u8]) -> Line
    ensures { result.bytes ≡ nearest_text word.now }
{
    let mut line = Line::new();
    put(&mut line, "; nearest: ");
    put(&mut line, nearest_format(word).word().as_str());
    put(&mut line, "\n");
    line
}
