ghost use Rattle.std.specs.Prelude.{◌≡◌, ◌&&◌, MatchOption, find, option_map};
ghost use Rattle.std.specs.Str.{bytes_eq};
ghost use Rattle.ibm_disks.specs.Disks.{IsWordOfDisk};
ghost use Rattle.sector_images.specs.Formats.{IsWordOfFormat, formats, has_row, row, track_order, zone};

use crate::numbered_disks::{cell_of, geometry_of};
use disk_zones::{Zone, commodore_8050_zone, commodore_zone, macintosh_zone};
use ibm_disks::{DiskWord, IbmDisk, name_word};

/// A format of sector images.
#[derive(Clone, Copy, Debug, PartialEq, Eq)]
pub enum Format {
    /// IBM 3740: 77 cylinders of one head, 26 sectors of 128 bytes, single density (FM).
    Ibm3740,
    /// The PC's 360 KB disk: 40 cylinders of two heads, 9 sectors of 512 bytes, double density (MFM).
    Ibm360,
    /// The PC's 720 KB disk: 80 cylinders of two heads, 9 sectors of 512 bytes, double density (MFM).
    Ibm720,
    /// The PC's 1440 KB disk: 80 cylinders of two heads, 18 sectors of 512 bytes, high density (MFM).
    Ibm1440,
    /// The Amiga's disk: 80 cylinders of two heads, 11 sectors of 512 bytes (MFM).
    Amiga,
    /// The Commodore 1541's disk: 35 cylinders of one head, 21 to 17 sectors of 256 bytes by zone (GCR).
    C1541,
    /// The same with 40 cylinders.
    C1541Forty,
    /// Apple's 5.25-inch disk, 35 cylinders of one head, 16 sectors of 256 bytes (6-and-2), in the order of DOS 3.3.
    AppleDo,
    /// The same disk in the order of ProDOS.
    ApplePo,
    /// Apple's disk as DOS 3.3 itself wrote it, read as Apple's controller reads, in the order of DOS 3.3.
    AppleDos33,
    /// Apple's disk as ProDOS itself wrote it, read so, in the order of ProDOS.
    AppleProdos,
    /// The Macintosh's 400 KB disk: 80 cylinders of one head, 12 to 8 sectors of 512 bytes by zone (GCR).
    Mac400,
    /// The Macintosh's 800 KB disk: the same with two heads.
    Mac800,
    /// The Commodore 1571's disk: a 1541's disk of 35 cylinders on each of two heads (GCR).
    C1571,
    /// The Amiga's disk of high density: 80 cylinders of two heads, 22 sectors of 512 bytes (MFM).
    AmigaHd,
    /// The Commodore 8050's disk: 77 cylinders of one head, 29 to 23 sectors of 256 bytes by zone (GCR).
    C8050,
    /// The Commodore 8250's disk: the same on each of two heads (GCR).
    C8250,
    /// The Commodore 1581's disk: 80 cylinders of two heads, 10 sectors of 512 bytes, double density (MFM), with the
    /// heads numbered the other way round in its headers.
    C1581,
    /// A disk of one of IBM's two recordings by its numbers, which may have a name too.
    Numbered(IbmDisk),
}

/// All formats that have a name.
const FORMATS: [Format; 27] = [
    Format::Ibm3740,
    Format::Ibm360,
    Format::Ibm720,
    Format::Ibm1440,
    Format::Amiga,
    Format::C1541,
    Format::C1541Forty,
    Format::AppleDo,
    Format::ApplePo,
    Format::Numbered(IbmDisk::IBM_160),
    Format::Numbered(IbmDisk::IBM_180),
    Format::Numbered(IbmDisk::IBM_320),
    Format::Numbered(IbmDisk::IBM_1200),
    Format::Numbered(IbmDisk::ATARI_ST_800),
    Format::Numbered(IbmDisk::CPC_DATA),
    Format::Numbered(IbmDisk::CPC_SYSTEM),
    Format::Numbered(IbmDisk::ACORN_DFS_40),
    Format::Numbered(IbmDisk::ACORN_DFS_80),
    Format::AppleDos33,
    Format::AppleProdos,
    Format::Mac400,
    Format::Mac800,
    Format::C1571,
    Format::AmigaHd,
    Format::C8050,
    Format::C8250,
    Format::C1581,
];

/// All formats that have a name, in the order of their table.
pub fn all_formats() -> &'static [Format]
    ensures { result.now ≡ formats }
{
    &FORMATS
}

impl Format {
    /// The format that this word of the command line names: the one of this name, or the disk whose numbers it writes.
    pub fn of_word(word: &[u8]) -> Option<Format>
        ensures { MatchOption result ((f : Format) → ¬ IsWordOfFormat word.now f) (IsWordOfFormat word.now) }
    {
        match first_named(&FORMATS, word) {
            Some(format) => Some(format),
            None => by_numbers(word),
        }
    }

    /// Whether it has a row of its own, and this word.
    fn has_word(self, word: &[u8]) -> bool
        ensures { result ≡ (has_row self && bytes_eq (row self).word word.now) }
    {
        match self {
            Format::Numbered(_) => false,
            format => format.word().as_str().as_bytes() == word,
        }
    }

    /// The format's word, as it is printed.
    pub fn word(self) -> DiskWord
        ensures { result.bytes ≡ (row self).word }
    {
        match self {
            Format::Ibm3740 => name_word("ibm-3740"),
            Format::Ibm360 => name_word("ibm-360"),
            Format::Ibm720 => name_word("ibm-720"),
            Format::Ibm1440 => name_word("ibm-1440"),
            Format::Amiga => name_word("amiga"),
            Format::C1541 => name_word("c1541"),
            Format::C1541Forty => name_word("c1541-40"),
            Format::AppleDo => name_word("apple-do"),
            Format::ApplePo => name_word("apple-po"),
            Format::AppleDos33 => name_word("apple-dos33"),
            Format::AppleProdos => name_word("apple-prodos"),
            Format::Mac400 => name_word("mac-400"),
            Format::Mac800 => name_word("mac-800"),
            Format::C1571 => name_word("c1571"),
            Format::AmigaHd => name_word("amiga-hd"),
            Format::C8050 => name_word("c8050"),
            Format::C8250 => name_word("c8250"),
            Format::C1581 => name_word("c1581"),
            Format::Numbered(disk) => disk.word(),
        }
    }
}

/// The disk that this word names, or whose numbers it writes.
fn by_numbers(word: &[u8]) -> Option<Format>
    ensures { MatchOption result ((disk : IbmDisk) → ¬ IsWordOfDisk word.now disk) (IsWordOfFormat word.now) }
{
    match IbmDisk::of_word(word) {
        Some(disk) => Some(Format::Numbered(disk)),
        None => None,
    }
}

/// The first of these formats that has a row of its own, and this word.
fn first_named(formats: &[Format], word: &[u8]) -> Option<Format>
    ensures { result ≡ find (λ f. has_row f && bytes_eq (row f).word word.now) formats.now }
{
    for format in formats {
        if format.has_word(word) {
            return Some(*format);
        }
    }
    None
}

/// What holds of all tracks of a format.
#[derive(Clone, Copy, Debug)]
pub(crate) struct Geometry {
    pub cylinders: u8,
    pub heads: u8,
    pub first_sector: u8,
    /// In bytes.
    pub sector_size: u16,
    /// In bytes.
    pub image_size: u32,
    /// Where each sector, from 0 on, stands among those of its track in the image, where that is not the order
    /// of their numbers.
    pub order: Option<&'static [u8; 16]>,
}

/// The order of a format's tracks.
#[derive(Clone, Copy, Debug)]
pub(crate) enum TrackOrder {
    /// Cylinder by cylinder, and in each head by head.
    ByCylinder,
    /// Head by head, and with each cylinder by cylinder.
    ByHead,
}

/// The order of DOS 3.3: the logical sector that each physical one holds.
const DOS_ORDER: [u8; 16] = [
    0x0, 0x7, 0xE, 0x6, 0xD, 0x5, 0xC, 0x4, 0xB, 0x3, 0xA, 0x2, 0x9, 0x1, 0x8, 0xF,
];

/// The order of ProDOS: the half block that each physical sector holds.
const PRODOS_ORDER: [u8; 16] = [
    0x0, 0x8, 0x1, 0x9, 0x2, 0xA, 0x3, 0xB, 0x4, 0xC, 0x5, 0xD, 0x6, 0xE, 0x7, 0xF,
];

impl Format {
    pub(crate) fn geometry(self) -> Geometry
        ensures cylinders { result.cylinders ≡ (row self).cylinders }
        ensures heads { result.heads ≡ (row self).heads }
        ensures first_sector { result.first_sector ≡ (row self).first_sector }
        ensures sector_size { result.sector_size ≡ (row self).sector_size }
        ensures image_size { result.image_size ≡ (row self).image_size }
        ensures order { option_map (λ order. order.now) result.order ≡ (row self).order }
    {
        match self {
            Format::Ibm3740 => Geometry {
                cylinders: 77,
                heads: 1,
                first_sector: 1,
                sector_size: 128,
                image_size: 256256,
                order: None,
            },
            Format::Ibm360 => Geometry {
                cylinders: 40,
                heads: 2,
                first_sector: 1,
                sector_size: 512,
                image_size: 368640,
                order: None,
            },
            Format::Ibm720 => Geometry {
                cylinders: 80,
                heads: 2,
                first_sector: 1,
                sector_size: 512,
                image_size: 737280,
                order: None,
            },
            Format::Ibm1440 => Geometry {
                cylinders: 80,
                heads: 2,
                first_sector: 1,
                sector_size: 512,
                image_size: 1474560,
                order: None,
            },
            Format::Amiga => Geometry {
                cylinders: 80,
                heads: 2,
                first_sector: 0,
                sector_size: 512,
                image_size: 901120,
                order: None,
            },
            Format::C1541 => Geometry {
                cylinders: 35,
                heads: 1,
                first_sector: 0,
                sector_size: 256,
                image_size: 174848,
                order: None,
            },
            Format::C1541Forty => Geometry {
                cylinders: 40,
                heads: 1,
                first_sector: 0,
                sector_size: 256,
                image_size: 196608,
                order: None,
            },
            Format::AppleDo | Format::AppleDos33 => Geometry {
                cylinders: 35,
                heads: 1,
                first_sector: 0,
                sector_size: 256,
                image_size: 143360,
                order: Some(&DOS_ORDER),
            },
            Format::ApplePo | Format::AppleProdos => Geometry {
                cylinders: 35,
                heads: 1,
                first_sector: 0,
                sector_size: 256,
                image_size: 143360,
                order: Some(&PRODOS_ORDER),
            },
            Format::Mac400 => Geometry {
                cylinders: 80,
                heads: 1,
                first_sector: 0,
                sector_size: 512,
                image_size: 409600,
                order: None,
            },
            Format::Mac800 => Geometry {
                cylinders: 80,
                heads: 2,
                first_sector: 0,
                sector_size: 512,
                image_size: 819200,
                order: None,
            },
            Format::C1571 => Geometry {
                cylinders: 35,
                heads: 2,
                first_sector: 0,
                sector_size: 256,
                image_size: 349696,
                order: None,
            },
            Format::AmigaHd => Geometry {
                cylinders: 80,
                heads: 2,
                first_sector: 0,
                sector_size: 512,
                image_size: 1802240,
                order: None,
            },
            Format::C8050 => Geometry {
                cylinders: 77,
                heads: 1,
                first_sector: 0,
                sector_size: 256,
                image_size: 533248,
                order: None,
            },
            Format::C8250 => Geometry {
                cylinders: 77,
                heads: 2,
                first_sector: 0,
                sector_size: 256,
                image_size: 1066496,
                order: None,
            },
            Format::C1581 => Geometry {
                cylinders: 80,
                heads: 2,
                first_sector: 1,
                sector_size: 512,
                image_size: 819200,
                order: None,
            },
            Format::Numbered(disk) => geometry_of(disk),
        }
    }

    /// The order of the tracks, in the image and where streams are joined.
    pub(crate) fn track_order(self) -> TrackOrder
        ensures { result ≡ track_order self }
    {
        match self {
            Format::C1571 | Format::C8250 => TrackOrder::ByHead,
            _ => TrackOrder::ByCylinder,
        }
    }

    /// The zone of a cylinder.
    #[tactic(auto, unfolding(disk_zones::specs::Zones::commodore_zone, disk_zones::specs::Zones::commodore_8050_zone, disk_zones::specs::Zones::macintosh_zone))]
    pub(crate) fn zone(self, cylinder: u8) -> Zone
        ensures sectors { result.sectors ≡ (zone self cylinder).sectors }
        ensures nominal { result.nominal ≡ (zone self cylinder).nominal }
        ensures ring_cells { result.ring_cells ≡ (zone self cylinder).ring_cells }
    {
        match self {
            Format::Ibm3740 => Zone {
                sectors: 26,
                nominal: 49208,
                ring_cells: 83328,
            },
            Format::Ibm360 | Format::Ibm720 => Zone {
                sectors: 9,
                nominal: 49208,
                ring_cells: 100000,
            },
            Format::C1581 => Zone {
                sectors: 10,
                nominal: 49208,
                ring_cells: 100000,
            },
            Format::Ibm1440 => Zone {
                sectors: 18,
                nominal: 24604,
                ring_cells: 200000,
            },
            Format::Amiga => Zone {
                sectors: 11,
                nominal: 49208,
                ring_cells: 100000,
            },
            Format::AmigaHd => Zone {
                sectors: 22,
                nominal: 24604,
                ring_cells: 200000,
            },
            Format::C1541 | Format::C1541Forty | Format::C1571 => commodore_zone(cylinder),
            Format::C8050 | Format::C8250 => commodore_8050_zone(cylinder),
            Format::Mac400 | Format::Mac800 => macintosh_zone(cylinder),
            Format::AppleDo | Format::ApplePo | Format::AppleDos33 | Format::AppleProdos => Zone {
                sectors: 16,
                nominal: 98416,
                ring_cells: 49994,
            },
            Format::Numbered(disk) => {
                let track = disk.track();
                Zone {
                    sectors: track.sectors,
                    nominal: cell_of(disk.rate()),
                    ring_cells: track.cells(),
                }
            }
        }
    }
}
