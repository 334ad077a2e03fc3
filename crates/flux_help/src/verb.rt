ghost use Rattle.std.specs.Prelude.{◌≡◌};
ghost use Rattle.std.specs.List.{position_from};
ghost use Rattle.std.specs.Str.{bytes_eq};
ghost use Rattle.flux_help.specs.Verbs.{asks_format, has_word, is_own, verb_of, verb_texts, verb_word, verbs};

/// A command, by its first word.
#[derive(Clone, Copy, Debug, PartialEq, Eq)]
pub enum Verb {
    /// Which disk a dump is of.
    Identify,
    /// What the files of a dump tell without any format.
    Info,
    /// Any IBM disk of its dumps, as a file of ImageDisk.
    Imd,
    /// All that is kept of a disk of its dumps, to files of a folder.
    Archive,
    /// The files of several dumps to an image.
    Read,
    /// What dumps have of one sector.
    Show,
    /// A folder of track files to an image.
    DecodeFolder,
    /// Several streams of each track to one image.
    DecodeSet,
    /// The streams of a disk to its image, by two clocks.
    Rescue,
    /// The streams of a disk to its image.
    Decode,
    /// The same streams to the report.
    Report,
    /// The same streams to a picture.
    Map,
    /// An image to streams.
    Write,
    /// Joined streams to files.
    Split,
    /// An SCP file to streams, as files.
    Unpack,
    /// One stream to its transitions and revolutions.
    Turns,
    /// An image to a G64 file.
    ToG64,
    /// A G64 file to an image.
    FromG64,
    /// A disk that a number makes.
    Trial,
    /// What the program says of itself.
    Help,
}

/// All commands, in the order in which the help lists them.
const VERBS: [Verb; 20] = [
    Verb::Identify,
    Verb::Info,
    Verb::Imd,
    Verb::Archive,
    Verb::Read,
    Verb::Show,
    Verb::DecodeFolder,
    Verb::DecodeSet,
    Verb::Rescue,
    Verb::Decode,
    Verb::Report,
    Verb::Map,
    Verb::Write,
    Verb::Split,
    Verb::Unpack,
    Verb::Turns,
    Verb::ToG64,
    Verb::FromG64,
    Verb::Trial,
    Verb::Help,
];

/// All commands, as contracts see them.
pub(crate) fn all_verbs() -> &'static [Verb]
    ensures { result.now ≡ verbs }
{
    &VERBS
}

/// What is said of a command. (Contracts can name a constant of it, as it has no reference of its own.)
#[derive(Clone, Copy, Debug)]
pub(crate) struct Texts<T> {
    pub word: T,
    /// Its line in the list of commands.
    pub line: T,
    /// The line that says which words follow.
    pub usage: T,
    /// What it does, and an example.
    pub about: T,
}

const IDENTIFY: Texts<&str> = Texts {
    word: "identify",
    line: "   identify DUMP                which disk a dump is of: what each format reads of it, and the best\n",
    usage: "usage: flux identify DUMP\n",
    about: "
Reads a dump as a disk of each format that has a name, and as those IBM disks that its headers tell by their numbers; of up
to 42 cylinders also with --double-step. Each that has a good sector gets a line, in words that can stand behind read: how
many sectors are good, and how many other names have data. The last line names the best: most bytes in good sectors, then
fewest others, then fewest sectors. The exit code is 0 where that is all of the dump.

Example:
   flux identify dump
",
};

const INFO: Texts<&str> = Texts {
    word: "info",
    line: "   info DUMP                    what each file of a dump tells without a format: how fast it turned\n",
    usage: "usage: flux info DUMP\n",
    about: "
Tells of each file of a dump its bytes and transitions, how many revolutions it has, the ticks of the shortest, of their mean
and of the longest, and how many there are a minute. A file whose mean is off the median by more than five in a thousand is
uneven: it is of another dump, drive or machine. The exit code is 0 where no file is missing, refused or uneven.

Example:
   flux info dump
",
};

const IMD: Texts<&str> = Texts {
    word: "imd",
    line: "   imd DUMP...                  any IBM disk of its dumps, without a format, to a file of ImageDisk\n",
    usage: "usage: flux imd [--double-step] DUMP...\n",
    about: "
Reads the tracks of 1 to 8 dumps by every density of IBM's recordings, and writes them as a file of ImageDisk (IMD 1.18) to
standard output. A track's record has the sectors of that mode and size that most bytes of it have, under the names that
their headers tell, in the order in which they lie on the track; one of which no data are whole, or whole ones differ, has no
data. The report on standard error tells these, each name that is left out, and the files that are missing or refused. With
--double-step the file of cylinder 2C is that of the disk's cylinder C. The exit code is 0 where all is in the file.

Example:
   flux imd dump > disk.imd 2> report.txt
",
};

const ARCHIVE: Texts<&str> = Texts {
    word: "archive",
    line: "   archive FOLDER DUMP...       a disk of its dumps to all that is kept of it, as files\n",
    usage: "usage: flux archive [--format FORMAT [--double-step]] FOLDER DUMP...\n",
    about: "
Makes the folder, which must not be there, and in it, one after another, report.txt, the report that read writes of the dumps,
disk.EXT, its image, disk.svg, the picture that read --picture draws, and summary.json, one line that other programs read. That
line goes to standard output too. The disk and its steps are the first best that identify names of a dump; with --format it is
not asked. The exit code is that of read; where no disk is found nothing is made. Where a file is not made, those before are whole.

Example:
   flux archive disk1 dump second
",
};

const READ: Texts<&str> = Texts {
    word: "read",
    line: "   read FORMAT DUMP...          one or more dumps of a disk to its image, with a report\n",
    usage: "usage: flux read [--picture] [--double-step] FORMAT DUMP...\n",
    about: "
Reads the files trackCC.H.raw of 1 to 8 folders, each a dump of the disk, and gives one verdict for each sector over all of
them. A DUMP that is a file, as shelf/disk00.0.raw, stands for all files that begin as it does; one that ends with .scp is an
SCP file. A file that is missing, fails or is refused is told and passed over, and headers of other sectors than the disk's
are told, on all tracks of which there are files. The image goes to standard output, the report to standard error. With
--double-step the file of cylinder 2C is that of the disk's cylinder C. With --picture a picture of the verdicts (SVG), as map
draws it, goes to standard output, and there is no report. Both may stand in either order.

Example:
   flux read amiga dump second > disk.adf 2> report.txt
",
};

const SHOW: Texts<&str> = Texts {
    word: "show",
    line: "   show FORMAT T S DUMP...      what good readings of one sector of dumps hold, side by side\n",
    usage: "usage: flux show [--double-step] [--copy N] FORMAT TRACK SECTOR DUMP...\n",
    about: "
Reads the files of one track as read does, and prints each distinct content that good readings of the sector hold, at most 16:
how many hold it, the place of the first one, and its bytes, with > before rows that differ from the first content's. TRACK and
SECTOR are words of the report, or the same without zeros in front, as 5.1 and 4. With --copy N the bytes of content N alone go
to standard output, and can be put into the image at the offset that the first line tells. The exit code is 0 where there is one
content.

Example:
   flux show amiga 32.1 10 dump second
",
};

const DECODE_FOLDER: Texts<&str> = Texts {
    word: "decode-folder",
    line: "   decode-folder FORMAT FOLDER  a folder of track files to the disk's image, with a report\n",
    usage: "usage: flux decode-folder FORMAT FOLDER\n",
    about: "
Reads the files trackCC.H.raw of the folder, cylinder by cylinder, and no others. The image goes to standard output, the
report to standard error. Where a wanted file is missing, nothing is read.

Example:
   flux decode-folder amiga dump > disk.adf 2> report.txt
",
};

const DECODE_SET: Texts<&str> = Texts {
    word: "decode-set",
    line: "   decode-set FORMAT COUNT      so many streams of each track to one image, with a report\n",
    usage: "usage: flux decode-set FORMAT COUNT\n",
    about: "
Reads COUNT captures of each track, 1 to 16, one after another, and gives one verdict over all of them. Each place in the
report has the number of its capture, from 0, before its revolution.

Example:
   for t in first/track*.raw; do cat $t second/${t##*/}; done | flux decode-set amiga 2 > disk.adf 2> report.txt
",
};

const RESCUE: Texts<&str> = Texts {
    word: "rescue",
    line: "   rescue FORMAT                as decode, with each stream read by two clocks, for dumps with noise\n",
    usage: "usage: flux rescue FORMAT\n",
    about: "
Recovers the cells of each stream twice: by clock 0, which follows the drive's speed, and by clock 1, which keeps the mean
cell of the first revolution. Each place in the report has the number of its clock before its revolution.

Example:
   cat dump/track*.raw | flux rescue amiga > disk.adf 2> report.txt
",
};

const DECODE: Texts<&str> = Texts {
    word: "decode",
    line: "   decode FORMAT                the streams of a disk, joined, to its image, with a report\n",
    usage: "usage: flux decode FORMAT\n",
    about: "
Reads the streams of the disk's tracks in the order cylinder, then head. The image goes to standard output, the report to
standard error. What follows the last wanted stream is not looked at.

Example:
   cat dump/track*.raw | flux decode amiga > disk.adf 2> report.txt
",
};

const REPORT: Texts<&str> = Texts {
    word: "report",
    line: "   report FORMAT                the same streams to the report alone, on standard output\n",
    usage: "usage: flux report FORMAT\n",
    about: "
Reads what decode reads. A line for each sector tells its verdict, how many good and bad readings it has, and where the
readings that it names stand; the last line has the totals.

Example:
   cat dump/track*.raw | flux report ibm-720 | grep -v ' good '
",
};

const MAP: Texts<&str> = Texts {
    word: "map",
    line: "   map FORMAT                   the same streams to a picture of the disk (SVG), on standard output\n",
    usage: "usage: flux map FORMAT\n",
    about: "
Reads what decode reads, and draws a field for each sector: a green square where it is good, a violet hourglass where it is
contradictory, a red cross where it is bad, and a grey frame where it is missing. A browser shows a field's line of the report.

Example:
   cat dump/track*.raw | flux map amiga > disk.svg
",
};

const WRITE: Texts<&str> = Texts {
    word: "write",
    line: "   write FORMAT                 an image to the streams of its tracks, joined or as files\n",
    usage: "usage: flux write [--folder FOLDER] FORMAT\n",
    about: "
Reads an image and writes one stream for each track, in the order in which decode reads them. Bytes of another number than
an image has are refused, and nothing is written. With --folder each stream is a file trackCC.H.raw there, as other programs
take it, and the folder is made; where one of the files is there already, none is written.

Example:
   flux write --folder dump amiga < disk.adf
",
};

const SPLIT: Texts<&str> = Texts {
    word: "split",
    line: "   split FOLDER HEADS           joined streams, of whatever disk, to files\n",
    usage: "usage: flux split FOLDER HEADS\n",
    about: "
Cuts joined streams apart, without what stands between them, to files trackCC.H.raw of the folder, which is made: the first is
that of track 00.0, and each cylinder has 1 or 2 HEADS. Where such a file is there already, none is written. A stream that is
refused ends it; the files before it are whole.

Example:
   flux split dump 2 < disk.raw
",
};

const UNPACK: Texts<&str> = Texts {
    word: "unpack",
    line: "   unpack DISK.scp FOLDER       an SCP file to streams, as files\n",
    usage: "usage: flux unpack DISK.scp FOLDER\n",
    about: "
Makes a file trackCC.H.raw, a KryoFlux stream, of each track of an SCP file in the folder, which is made. Where such a file is
there already, none is written. Notes tell each track that is refused or ends early, and how many files were made.

Example:
   flux unpack disk.scp dump
",
};

const TURNS: Texts<&str> = Texts {
    word: "turns",
    line: "   turns                        one stream to its transitions and the length of each revolution\n",
    usage: "usage: flux turns\n",
    about: "
Prints how many transitions one stream has, and how long each revolution is, in ticks of 7/168192000 of a second.

Example:
   flux turns < dump/track00.0.raw
",
};

const TO_G64: Texts<&str> = Texts {
    word: "to-g64",
    line: "   to-g64 FORMAT                an image to the file that emulators keep (c1541, c1541-40)\n",
    usage: "usage: flux to-g64 FORMAT\n",
    about: "
Reads an image of a Commodore 1541's disk, and writes a G64 file, which has the cells of each track.

Example:
   flux to-g64 c1541 < disk.d64 > disk.g64
",
};

const FROM_G64: Texts<&str> = Texts {
    word: "from-g64",
    line: "   from-g64 FORMAT              such a file to its image, with a report\n",
    usage: "usage: flux from-g64 FORMAT\n",
    about: "
Reads a G64 file of a Commodore 1541's disk. The image goes to standard output, the report to standard error.

Example:
   flux from-g64 c1541 < disk.g64 > disk.d64 2> report.txt
",
};

const TRIAL: Texts<&str> = Texts {
    word: "trial",
    line: "   trial FORMAT SEED            makes a disk from a number and says what it decodes to\n",
    usage: "usage: flux trial FORMAT SEED\n",
    about: "
Makes an image and a drive from a number of 1 to 10 digits, decodes what the drive gives, and prints one line. Nothing is
read.

Example:
   flux trial amiga 1
",
};

const HELP: Texts<&str> = Texts {
    word: "help",
    line: "   help [COMMAND], --help, -h   this text, or one command with an example\n",
    usage: "usage: flux help [COMMAND]\n",
    about: "
Lists the commands, the formats and the exit codes, or says what one command does.

Example:
   flux help map
",
};

impl Verb {
    /// The command of this first word.
    pub fn of_word(word: &[u8]) -> Option<Verb>
        ensures { result ≡ verb_of word.now }
    {
        match place_of(word) {
            Some(place) => all_verbs().get(place).copied(),
            None => None,
        }
    }

    fn has_word(self, word: &[u8]) -> bool
        ensures { result ≡ has_word word.now self }
    {
        self.texts().word.as_bytes() == word
    }

    /// Whether it is one of those that the usage line does not name.
    pub fn is_own(self) -> bool
        ensures { result ≡ is_own self }
    {
        matches!(
            self,
            Verb::Identify
                | Verb::Info
                | Verb::Imd
                | Verb::Archive
                | Verb::Read
                | Verb::Show
                | Verb::Rescue
                | Verb::Map
                | Verb::Split
                | Verb::Unpack
                | Verb::Help
        )
    }

    /// Whether a format is the first word behind it that is no option. (Behind `show` that
    /// may be the number of `--copy`.)
    pub(crate) fn asks_format(self) -> bool
        ensures { result ≡ asks_format self }
    {
        !matches!(
            self,
            Verb::Help
                | Verb::Identify
                | Verb::Info
                | Verb::Imd
                | Verb::Archive
                | Verb::Show
                | Verb::Split
                | Verb::Unpack
                | Verb::Turns
        )
    }

    /// What is said of it.
    #[tactic(auto, unfolding(crate::specs::Verbs::verb_texts, crate::specs::Verbs::verb_word))]
    pub(crate) fn texts(self) -> Texts<&'static str>
        ensures word { result.word.now ≡ verb_word self }
        ensures line { result.line.now ≡ (verb_texts self).line.now }
        ensures usage { result.usage.now ≡ (verb_texts self).usage.now }
        ensures about { result.about.now ≡ (verb_texts self).about.now }
    {
        match self {
            Verb::Identify => IDENTIFY,
            Verb::Info => INFO,
            Verb::Imd => IMD,
            Verb::Archive => ARCHIVE,
            Verb::Read => READ,
            Verb::Show => SHOW,
            Verb::DecodeFolder => DECODE_FOLDER,
            Verb::DecodeSet => DECODE_SET,
            Verb::Rescue => RESCUE,
            Verb::Decode => DECODE,
            Verb::Report => REPORT,
            Verb::Map => MAP,
            Verb::Write => WRITE,
            Verb::Split => SPLIT,
            Verb::Unpack => UNPACK,
            Verb::Turns => TURNS,
            Verb::ToG64 => TO_G64,
            Verb::FromG64 => FROM_G64,
            Verb::Trial => TRIAL,
            Verb::Help => HELP,
        }
    }
}

/// Where the command of this word stands in the list.
fn place_of(word: &[u8]) -> Option<usize>
    ensures { result ≡ position_from (has_word word.now) 0 verbs }
{
    all_verbs().iter().position(|verb| verb.has_word(word))
}
