//! Words that people have for a disk or for the file of its image.

ghost use Rattle.std.specs.Prelude.{◌≡◌, ◌≤◌, IfSome, length, map};
ghost use Rattle.std.specs.Option.{option_map};
ghost use Rattle.flux_help.specs.Meanings.{meaning_of as row_of_word, meanings, same_letters};

/// Such a word, and the end of the line that it is answered by. (As `Texts`, its constants can be named.)
#[derive(Clone, Copy, Debug)]
pub(crate) struct Meaning<T> {
    pub word: T,
    pub ending: T,
}

/// All of them. A word that several disks have means the one that is most often met.
const MEANINGS: [Meaning<&str>; 16] = [
    Meaning {
        word: "adf",
        ending: "; try: amiga\n",
    },
    Meaning {
        word: "st",
        ending: "; try: ibm-720\n",
    },
    Meaning {
        word: "d64",
        ending: "; try: c1541\n",
    },
    Meaning {
        word: "d71",
        ending: "; try: c1571\n",
    },
    Meaning {
        word: "d81",
        ending: "; try: c1581\n",
    },
    Meaning {
        word: "d80",
        ending: "; try: c8050\n",
    },
    Meaning {
        word: "d82",
        ending: "; try: c8250\n",
    },
    Meaning {
        word: "do",
        ending: "; try: apple-dos33\n",
    },
    Meaning {
        word: "dsk",
        ending: "; try: apple-dos33\n",
    },
    Meaning {
        word: "po",
        ending: "; try: apple-prodos\n",
    },
    Meaning {
        word: "ssd",
        ending: "; try: acorn-dfs-80\n",
    },
    Meaning {
        word: "pc98",
        ending: "; try: mfm-hd360-77x2x8x1024\n",
    },
    Meaning {
        word: "720k",
        ending: "; try: ibm-720\n",
    },
    Meaning {
        word: "1.44",
        ending: "; try: ibm-1440\n",
    },
    Meaning {
        word: "360k",
        ending: "; try: ibm-360\n",
    },
    Meaning {
        word: "mac",
        ending: "; try: mac-800\n",
    },
];

/// All of them, as contracts see them.
fn all_meanings() -> &'static [Meaning<&'static str>]
    ensures { map (λ row. (row.word.now, row.ending.now)) result.now ≡ meanings }
{
    &MEANINGS
}

/// What a word means, in letters of any case, if it is one of these.
pub(crate) fn meaning_of(word: &[u8]) -> Option<Meaning<&'static str>>
    ensures row { option_map (λ row. (row.word.now, row.ending.now)) result ≡ row_of_word word.now }
    ensures short { IfSome result (λ meaning. length meaning.ending.now ≤ 100) }
{
    for meaning in all_meanings() {
        if are_same_letters(meaning.word.as_bytes(), word) {
            return Some(*meaning);
        }
    }
    None
}

/// Whether two words have the same letters, of any case.
fn are_same_letters(a: &[u8], b: &[u8]) -> bool
    ensures { result ≡ same_letters a.now b.now }
{
    a.eq_ignore_ascii_case(b)
}
