//! The names of the files.

ghost use Rattle.std.specs.Prelude.{◌≡◌};
ghost use Rattle.disk_archive.specs.Names.{image_name, name_of, numbered_name};

use sector_images::Format;

/// A file of the folder.
#[derive(Clone, Copy, Debug, PartialEq, Eq)]
pub enum KeptFile {
    /// The report.
    Report,
    /// The image.
    Image,
    /// The picture.
    Picture,
    /// The summary, which is made last.
    Summary,
}

/// The name of a file in the folder of a disk of a format.
pub fn file_name(format: Format, file: KeptFile) -> &'static str
    ensures { result.now ≡ name_of format file }
{
    match file {
        KeptFile::Report => "report.txt",
        KeptFile::Image => image_name(format),
        KeptFile::Picture => "disk.svg",
        KeptFile::Summary => "summary.json",
    }
}

/// The name of an image, by what emulators and other programs call such images.
fn image_name(format: Format) -> &'static str
    ensures { result.now ≡ image_name format }
{
    match format {
        Format::Amiga | Format::AmigaHd => "disk.adf",
        Format::C1541 | Format::C1541Forty => "disk.d64",
        Format::C1571 => "disk.d71",
        Format::C1581 => "disk.d81",
        Format::C8050 => "disk.d80",
        Format::C8250 => "disk.d82",
        Format::AppleDo | Format::AppleDos33 => "disk.do",
        Format::ApplePo | Format::AppleProdos => "disk.po",
        Format::Mac400 | Format::Mac800 => "disk.dsk",
        Format::Numbered(_) => numbered_name(format.word().as_str()),
        _ => "disk.img",
    }
}

/// The name of an image of a disk of one of IBM's recordings, by its word: the Atari ST and Acorn's DFS have their own.
fn numbered_name(word: &str) -> &'static str
    ensures { result.now ≡ numbered_name word.now }
{
    if word == "atari-st-800" {
        "disk.st"
    } else if word == "acorn-dfs-40" || word == "acorn-dfs-80" {
        "disk.ssd"
    } else {
        "disk.img"
    }
}
