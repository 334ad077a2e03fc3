//! The formats' disks: words, tracks and the places of their sectors.
ghost use Rattle.std.specs.Prelude.{◌≡◌, ◌<◌};

use flux_base::TrackId;
use ibm_disks::IbmDisk;
use sector_images::{
    Format, image_place, image_sector, image_size, nominal, ring_cells, track_bytes, track_count,
    track_id, track_place,
};

/// The word of a format, the bytes of its image, and its tracks.
const FORMATS: [(&str, Format, u32, u32); 27] = [
    ("ibm-3740", Format::Ibm3740, 77 * 26 * 128, 77),
    (
        "ibm-160",
        Format::Numbered(IbmDisk::IBM_160),
        40 * 8 * 512,
        40,
    ),
    (
        "ibm-180",
        Format::Numbered(IbmDisk::IBM_180),
        40 * 9 * 512,
        40,
    ),
    (
        "ibm-320",
        Format::Numbered(IbmDisk::IBM_320),
        40 * 2 * 8 * 512,
        80,
    ),
    ("ibm-360", Format::Ibm360, 40 * 2 * 9 * 512, 80),
    ("ibm-720", Format::Ibm720, 80 * 2 * 9 * 512, 160),
    (
        "ibm-1200",
        Format::Numbered(IbmDisk::IBM_1200),
        80 * 2 * 15 * 512,
        160,
    ),
    ("ibm-1440", Format::Ibm1440, 80 * 2 * 18 * 512, 160),
    (
        "atari-st-800",
        Format::Numbered(IbmDisk::ATARI_ST_800),
        80 * 2 * 10 * 512,
        160,
    ),
    (
        "cpc-data",
        Format::Numbered(IbmDisk::CPC_DATA),
        40 * 9 * 512,
        40,
    ),
    (
        "cpc-system",
        Format::Numbered(IbmDisk::CPC_SYSTEM),
        40 * 9 * 512,
        40,
    ),
    (
        "acorn-dfs-40",
        Format::Numbered(IbmDisk::ACORN_DFS_40),
        40 * 10 * 256,
        40,
    ),
    (
        "acorn-dfs-80",
        Format::Numbered(IbmDisk::ACORN_DFS_80),
        80 * 10 * 256,
        80,
    ),
    ("amiga", Format::Amiga, 80 * 2 * 11 * 512, 160),
    ("c1541", Format::C1541, 174848, 35),
    ("c1541-40", Format::C1541Forty, 196608, 40),
    ("apple-do", Format::AppleDo, 35 * 16 * 256, 35),
    ("apple-po", Format::ApplePo, 35 * 16 * 256, 35),
    ("apple-dos33", Format::AppleDos33, 35 * 16 * 256, 35),
    ("apple-prodos", Format::AppleProdos, 35 * 16 * 256, 35),
    ("mac-400", Format::Mac400, 800 * 512, 80),
    ("mac-800", Format::Mac800, 1600 * 512, 160),
    ("c1571", Format::C1571, 2 * 174848, 70),
    ("amiga-hd", Format::AmigaHd, 80 * 2 * 22 * 512, 160),
    ("c8050", Format::C8050, 533248, 77),
    ("c8250", Format::C8250, 2 * 533248, 154),
    ("c1581", Format::C1581, 80 * 2 * 10 * 512, 160),
];

const NO_FORMATS: [&[u8]; 5] = [b"", b"ibm-374", b"ibm-37400", b"IBM-3740", b"c1541-4"];

#[test]
fn formats_have_their_words_and_sizes(rt: HostRuntime) {
    for (word, format, size, tracks) in FORMATS {
        assert_eq!(rt; Format::of_word(word.as_bytes()), Some(format), "{word}");
        let name = format.word();
        let row = (name.as_str(), image_size(format), track_count(format));
        assert_eq!(rt; row, (word, size, tracks));
    }
    for word in NO_FORMATS {
        assert_eq!(rt; Format::of_word(word), None);
    }
}

/// Disks by their numbers, the bytes of their images, and their tracks.
const BY_NUMBERS: [(&str, u32, u32); 3] = [
    ("mfm-dd-82x2x10x512", 82 * 2 * 10 * 512, 164),
    ("mfm-hd360-77x2x8x1024", 77 * 2 * 8 * 1024, 154),
    ("fm-sd-40x1x10x256@0", 40 * 10 * 256, 40),
];

#[test]
fn numbers_are_formats(rt: HostRuntime) {
    for (word, size, tracks) in BY_NUMBERS {
        let Some(format) = Format::of_word(word.as_bytes()) else {
            assert!(rt; false, "{word}");
            return;
        };
        let name = format.word();
        let row = (name.as_str(), image_size(format), track_count(format));
        assert_eq!(rt; row, (word, size, tracks));
    }
    assert_eq!(rt; Format::of_word(b"mfm-dd-82x2x13x512"), None);
}

/// Words of numbers, and the word that is printed of the format. Three disks of the PC have a name too; all other names
/// are of disks with gaps of their own, which no word of numbers writes.
const PRINTED: [(&str, &str); 9] = [
    ("mfm-dd-40x1x8x512", "ibm-160"),
    ("mfm-dd-40x1x9x512", "ibm-180"),
    ("mfm-dd-40x2x8x512", "ibm-320"),
    ("mfm-hd360-80x2x15x512", "mfm-hd360-80x2x15x512"),
    ("mfm-dd-80x2x10x512", "mfm-dd-80x2x10x512"),
    ("mfm-dd-40x1x9x512@193", "mfm-dd-40x1x9x512@193"),
    ("mfm-dd-40x1x9x512@65", "mfm-dd-40x1x9x512@65"),
    ("fm-sd-40x1x10x256@0", "fm-sd-40x1x10x256@0"),
    ("mfm-dd-80x2x9x512", "mfm-dd-80x2x9x512"),
];

#[test]
fn names_are_printed(rt: HostRuntime) {
    for (written, printed) in PRINTED {
        let Some(format) = Format::of_word(written.as_bytes()) else {
            assert!(rt; false);
            return;
        };
        let word = format.word();
        assert!(rt; word.as_str().as_bytes() == printed.as_bytes());
        assert_eq!(rt; Format::of_word(word.as_str().as_bytes()), Some(format));
    }
}

/// A track of a format by its number, its cylinder and head, its place in the image and its bytes, and its nominal cell
/// in fine units and the cells of its ring.
const TRACKS: [(Format, u32, (u8, u8), (u32, u32), (u32, u32)); 45] = [
    (Format::AmigaHd, 1, (0, 1), (11264, 11264), (24604, 200000)),
    (
        Format::AmigaHd,
        159,
        (79, 1),
        (1790976, 11264),
        (24604, 200000),
    ),
    // All of head 0 comes first.
    (Format::C1571, 1, (1, 0), (5376, 5376), (79963, 61488)),
    (Format::C1571, 34, (34, 0), (170496, 4352), (98416, 49912)),
    (Format::C1571, 35, (0, 1), (174848, 5376), (79963, 61488)),
    (Format::C1571, 69, (34, 1), (345344, 4352), (98416, 49912)),
    // The first track of each zone, and both ends of head 1
    (Format::C8050, 0, (0, 0), (0, 7424), (53308, 92104)),
    (Format::C8050, 39, (39, 0), (289536, 6912), (57409, 85536)),
    (Format::C8050, 53, (53, 0), (386304, 6400), (61510, 80000)),
    (Format::C8050, 64, (64, 0), (456704, 5888), (65610, 74888)),
    (Format::C8250, 76, (76, 0), (527360, 5888), (65610, 74888)),
    (Format::C8250, 77, (0, 1), (533248, 7424), (53308, 92104)),
    (Format::C8250, 153, (76, 1), (1060608, 5888), (65610, 74888)),
    (Format::Ibm3740, 0, (0, 0), (0, 3328), (49208, 83328)),
    (Format::Ibm3740, 76, (76, 0), (252928, 3328), (49208, 83328)),
    (Format::Ibm360, 1, (0, 1), (4608, 4608), (49208, 100000)),
    (Format::Ibm360, 79, (39, 1), (364032, 4608), (49208, 100000)),
    (Format::Ibm720, 1, (0, 1), (4608, 4608), (49208, 100000)),
    (Format::Ibm720, 2, (1, 0), (9216, 4608), (49208, 100000)),
    (
        Format::Numbered(IbmDisk::IBM_1200),
        0,
        (0, 0),
        (0, 7680),
        (24604, 166656),
    ),
    (Format::Ibm1440, 1, (0, 1), (9216, 9216), (24604, 200000)),
    (
        Format::Numbered(IbmDisk::ACORN_DFS_40),
        0,
        (0, 0),
        (0, 2560),
        (98416, 50000),
    ),
    (
        Format::Numbered(IbmDisk::ACORN_DFS_80),
        0,
        (0, 0),
        (0, 2560),
        (98416, 50000),
    ),
    (Format::Amiga, 0, (0, 0), (0, 5632), (49208, 100000)),
    (Format::Amiga, 159, (79, 1), (895488, 5632), (49208, 100000)),
    (Format::Mac400, 15, (15, 0), (92160, 6144), (63951, 76946)),
    (Format::Mac400, 16, (16, 0), (98304, 5632), (69613, 70688)),
    (Format::Mac800, 64, (32, 0), (376832, 5120), (76612, 64230)),
    (Format::Mac800, 97, (48, 1), (545280, 4608), (85220, 57742)),
    (Format::Mac800, 128, (64, 0), (688128, 4096), (95765, 51384)),
    (Format::Mac800, 159, (79, 1), (815104, 4096), (95765, 51384)),
    (Format::C1541, 0, (0, 0), (0, 5376), (79963, 61488)),
    (Format::C1541, 34, (34, 0), (170496, 4352), (98416, 49912)),
    (Format::C1541Forty, 0, (0, 0), (0, 5376), (79963, 61488)),
    (
        Format::C1541Forty,
        16,
        (16, 0),
        (86016, 5376),
        (79963, 61488),
    ),
    (
        Format::C1541Forty,
        17,
        (17, 0),
        (91392, 4864),
        (86114, 57000),
    ),
    (
        Format::C1541Forty,
        23,
        (23, 0),
        (120576, 4864),
        (86114, 57000),
    ),
    (
        Format::C1541Forty,
        24,
        (24, 0),
        (125440, 4608),
        (92265, 53280),
    ),
    (
        Format::C1541Forty,
        29,
        (29, 0),
        (148480, 4608),
        (92265, 53280),
    ),
    (
        Format::C1541Forty,
        30,
        (30, 0),
        (153088, 4352),
        (98416, 49912),
    ),
    (
        Format::C1541Forty,
        39,
        (39, 0),
        (192256, 4352),
        (98416, 49912),
    ),
    (Format::AppleDo, 0, (0, 0), (0, 4096), (98416, 49994)),
    (Format::AppleDo, 34, (34, 0), (139264, 4096), (98416, 49994)),
    (Format::ApplePo, 0, (0, 0), (0, 4096), (98416, 49994)),
    (Format::ApplePo, 34, (34, 0), (139264, 4096), (98416, 49994)),
];

#[test]
fn tracks_have_their_places_and_cells(rt: HostRuntime) {
    for (format, number, id, part, cells) in TRACKS {
        assert!(rt; number < track_count(format));
        let track = track_id(format, number);
        assert_eq!(rt; (track.cylinder, track.head), id);
        assert_eq!(rt;
            (track_place(format, track), track_bytes(format, track)),
            part
        );
        assert_eq!(rt; (nominal(format, track), ring_cells(format, track)), cells);
    }
}

fn track(cylinder: u8, head: u8) -> TrackId
    ensures { result ≡ record { cylinder = cylinder; head = head } }
{
    TrackId { cylinder, head }
}

#[test]
fn sectors_have_their_places(rt: HostRuntime) {
    let first = track(0, 0);
    assert_eq!(rt; image_place(Format::Ibm3740, first, 2), 128);
    assert_eq!(rt; image_place(Format::Ibm3740, track(76, 0), 26), 256128);
    assert_eq!(rt; image_sector(Format::Ibm3740, track(76, 0), 25), 26);
    assert_eq!(rt; image_place(Format::Ibm1440, track(79, 1), 18), 1474048);
    assert_eq!(rt; image_place(Format::Amiga, track(1, 0), 0), 11264);
    assert_eq!(rt; image_place(Format::Amiga, track(79, 1), 10), 900608);
    assert_eq!(rt; image_place(Format::C1541, track(17, 0), 0), 91392);
    assert_eq!(rt; image_place(Format::C1541, track(34, 0), 16), 174592);
    assert_eq!(rt; image_place(Format::C1541Forty, track(39, 0), 16), 196352);
    assert_eq!(rt; image_sector(Format::C1541, track(17, 0), 18), 18);
    assert_eq!(rt; image_place(Format::C1571, track(17, 0), 0), 91392);
    assert_eq!(rt; image_place(Format::C1571, track(17, 1), 0), 266240);
}

/// A disk by its numbers, the number of a track and of a sector there from 0, the sector's own number,
/// and the place of its first byte.
const NUMBERED_SECTORS: [(IbmDisk, u32, u8, u8, u32); 5] = [
    (IbmDisk::IBM_1200, 159, 14, 15, 1228288),
    (IbmDisk::CPC_DATA, 0, 1, 0xC2, 512),
    (IbmDisk::CPC_DATA, 0, 8, 0xC9, 4096),
    (IbmDisk::CPC_SYSTEM, 39, 8, 0x49, 183808),
    (IbmDisk::ACORN_DFS_80, 79, 9, 9, 204544),
];

#[test]
fn numbered_sectors_have_their_places(rt: HostRuntime) {
    for (disk, number, index, sector, place) in NUMBERED_SECTORS {
        let format = Format::Numbered(disk);
        assert!(rt; number < track_count(format));
        assert!(rt; index < disk.track().sectors);
        let track = track_id(format, number);
        assert_eq!(rt; image_sector(format, track, index), sector);
        assert_eq!(rt;
            image_place(format, track, image_sector(format, track, index)),
            place
        );
    }
}

#[test]
fn apple_sectors_have_their_images_order(rt: HostRuntime) {
    let first = track(0, 0);
    assert_eq!(rt; image_place(Format::AppleDo, first, 0), 0);
    assert_eq!(rt; image_place(Format::AppleDo, first, 1), 1792);
    assert_eq!(rt; image_place(Format::AppleDo, track(34, 0), 15), 143104);
    assert_eq!(rt; image_sector(Format::AppleDo, first, 1), 13);
    assert_eq!(rt; image_place(Format::ApplePo, first, 1), 2048);
    assert_eq!(rt; image_place(Format::ApplePo, first, 2), 256);
    assert_eq!(rt; image_sector(Format::ApplePo, first, 1), 2);
    assert_eq!(rt; image_place(Format::AppleDos33, first, 1), 1792);
    assert_eq!(rt; image_place(Format::AppleProdos, first, 1), 2048);
}
