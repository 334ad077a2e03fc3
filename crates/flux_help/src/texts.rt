ghost use Rattle.std.specs.Prelude.{◌≡◌, ◌≤◌, length};
ghost use Rattle.flux_help.specs.Pages.{disk_name, disk_text, format_text, number_text};

use sector_images::{Format, image_size};
use sector_report::{Line, put, put_named};

/// The version, as `CHANGELOG.md` counts it, the commit, and the logic by which the toolchain proves it.
/// No source can hold the name of its own commit: it comes into the program of a package in place of the
/// forty bytes behind `commit `.
pub(crate) const VERSION: &str = "\
flux 0.4.0
commit unknown: built by hand, not of a package
proved in Rattle, logic dac8208d650f15bf
";

/// The number of the version, as it stands in its first line.
const NUMBER: &str = "0.4.0";

/// The number of the version.
pub fn version_number() -> &'static str
    ensures number { result.now ≡ number_text }
    ensures short { length result.now ≤ 64 }
{
    NUMBER
}

/// What the program is.
pub(crate) const INTRO: &str = "\
flux reads KryoFlux stream captures of floppy disks and writes images back as streams.
It reads standard input or folders and writes standard output or folders; reports and refusals go to standard error.

Commands:
";

/// The last line of the commands, and what stands before the formats.
pub(crate) const HEADING: &str = "   --version                    the version

Formats:
";

/// How disks are written by their numbers, and a line for each exit code.
pub(crate) const CODES: &str = "
Any other disk of IBM's double or single density is a format by its numbers: mfm-RATE-CxHxSxB with dd, hd or hd360 for RATE,
or fm-RATE-CxHxSxB with sd or sd8; C cylinders, H heads, S sectors of B bytes, and @F behind it where F is the number of the first.

Exit codes:
   0\tall was done; every sector is good
   1\tall was done; a sector is not good, or read found data of others
   2\tthe input is refused: the last line of standard error says why
   3\tthe words are not a command
   4\tstandard input failed
   5\tstandard output failed
   6\tstandard error failed
   7\tthere was not enough memory to begin
   8\ta folder or one of its files failed
   9\tthe system gave no words
";

// What people call the disk of a format, its cylinders, its heads where there are two, and the sectors of a track.
const IBM_3740_DISK: &str = "IBM 3740, 8-inch, 77 cylinders, 26 sectors";

const IBM_360_DISK: &str = "PC, 5.25-inch, 40 cylinders, 2 heads, 9 sectors";

const IBM_720_DISK: &str = "PC, Atari ST and MSX, 3.5-inch, 80 cylinders, 2 heads, 9 sectors";

const IBM_1440_DISK: &str = "PC, 3.5-inch, high density, 80 cylinders, 2 heads, 18 sectors";

const AMIGA_DISK: &str = "Amiga, 3.5-inch, 80 cylinders, 2 heads, 11 sectors";

const AMIGA_HD_DISK: &str = "Amiga, 3.5-inch, high density, 80 cylinders, 2 heads, 22 sectors";

const C1541_DISK: &str = "Commodore 1541, 35 cylinders, 21 to 17 sectors";

const C1541_FORTY_DISK: &str = "Commodore 1541, 40 cylinders, 21 to 17 sectors";

const C1571_DISK: &str = "Commodore 1571, 35 cylinders, 2 heads, 21 to 17 sectors";

const C8050_DISK: &str = "Commodore 8050, 5.25-inch, 77 cylinders, 29 to 23 sectors";

const C8250_DISK: &str = "Commodore 8250, 5.25-inch, 77 cylinders, 2 heads, 29 to 23 sectors";

const C1581_DISK: &str = "Commodore 1581, 3.5-inch, 80 cylinders, 2 heads, 10 sectors";

const APPLE_DO_DISK: &str =
    "Apple II, exact to the cell, in the order of DOS 3.3, 35 cylinders, 16 sectors";

const APPLE_PO_DISK: &str =
    "Apple II, exact to the cell, in the order of ProDOS, 35 cylinders, 16 sectors";

const APPLE_DOS33_DISK: &str = "Apple II, as DOS 3.3 wrote it, 35 cylinders, 16 sectors";

const APPLE_PRODOS_DISK: &str = "Apple II, as ProDOS wrote it, 35 cylinders, 16 sectors";

const MAC_400_DISK: &str = "Macintosh, 3.5-inch, 80 cylinders, 12 to 8 sectors";

const MAC_800_DISK: &str = "Macintosh, 3.5-inch, 80 cylinders, 2 heads, 12 to 8 sectors";

/// The line of a format: its word, its disk, and how many bytes its image has.
#[tactic(auto, unfolding(crate::specs::Pages::format_text))]
pub(crate) fn format_line(format: Format) -> Line
    ensures { result.bytes ≡ format_text format }
{
    disk_line(
        format.word().as_str(),
        disk_name(format),
        image_size(format),
    )
}

/// A word, a disk's name of at most 100 bytes, and a number of bytes in one line.
fn disk_line(word: &str, name: &str, bytes: u32) -> Line
    requires word { length word.now ≤ 50 }
    requires name { length name.now ≤ 100 }
    ensures { result.bytes ≡ disk_text word.now name.now bytes }
{
    let mut line = Line::new();
    put(&mut line, "   ");
    put(&mut line, word);
    put(&mut line, "\t");
    put(&mut line, name);
    put_named(&mut line, ", ", bytes);
    put(&mut line, " bytes\n");
    line
}

/// What people call a format's disk, its cylinders, its heads where there are two, and the sectors of a track.
#[tactic(auto, unfolding(crate::specs::Pages::disk_name))]
fn disk_name(format: Format) -> &'static str
    ensures text { result.now ≡ disk_name format }
    ensures short { length result.now ≤ 100 }
{
    match format {
        Format::Ibm3740 => IBM_3740_DISK,
        Format::Ibm360 => IBM_360_DISK,
        Format::Ibm720 => IBM_720_DISK,
        Format::Ibm1440 => IBM_1440_DISK,
        Format::Amiga => AMIGA_DISK,
        Format::AmigaHd => AMIGA_HD_DISK,
        Format::C1541 => C1541_DISK,
        Format::C1541Forty => C1541_FORTY_DISK,
        Format::C1571 => C1571_DISK,
        Format::C8050 => C8050_DISK,
        Format::C8250 => C8250_DISK,
        Format::C1581 => C1581_DISK,
        Format::AppleDo => APPLE_DO_DISK,
        Format::ApplePo => APPLE_PO_DISK,
        Format::AppleDos33 => APPLE_DOS33_DISK,
        Format::AppleProdos => APPLE_PRODOS_DISK,
        Format::Mac400 => MAC_400_DISK,
        Format::Mac800 => MAC_800_DISK,
        Format::Numbered(disk) => disk.label(),
    }
}
