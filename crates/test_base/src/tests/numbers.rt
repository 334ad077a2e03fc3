//! Disks that words write by their numbers.
use ibm_disks::{IbmDisk, LeadIn, Rate, SectorSize, TrackNumbers};

/// What a word asks for: the rate, and how many cylinders, heads and sectors of a track there are, the number of
/// the first one, and their bytes.
type Asked = (Rate, (u8, u8, u8), u8, SectorSize);

/// Words, what they ask for, and the bytes of the gap after each sector and of the whole track.
const DISKS: [(&str, Asked, (u8, u16)); 11] = [
    (
        "mfm-dd-82x2x10x512",
        (Rate::Double, (82, 2, 10), 1, SectorSize::Bytes512),
        (31, 6250),
    ),
    (
        "mfm-dd-80x2x11x512",
        (Rate::Double, (80, 2, 11), 1, SectorSize::Bytes512),
        (2, 6250),
    ),
    (
        "mfm-hd-80x2x21x512",
        (Rate::High, (80, 2, 21), 1, SectorSize::Bytes512),
        (12, 12500),
    ),
    (
        "mfm-hd360-77x2x8x1024",
        (Rate::HighAt360, (77, 2, 8), 1, SectorSize::Bytes1024),
        (80, 10416),
    ),
    (
        "mfm-dd-80x2x16x256@0",
        (Rate::Double, (80, 2, 16), 0, SectorSize::Bytes256),
        (55, 6250),
    ),
    (
        "mfm-dd-80x1x9x512",
        (Rate::Double, (80, 1, 9), 1, SectorSize::Bytes512),
        (80, 6250),
    ),
    (
        "mfm-hd360-77x2x26x256",
        (Rate::HighAt360, (77, 2, 26), 1, SectorSize::Bytes256),
        (67, 10416),
    ),
    (
        "fm-sd-40x1x10x256@0",
        (Rate::Single, (40, 1, 10), 0, SectorSize::Bytes256),
        (14, 3125),
    ),
    (
        "fm-sd8-77x1x26x128",
        (Rate::SingleAt360, (77, 1, 26), 1, SectorSize::Bytes128),
        (31, 5208),
    ),
    (
        "mfm-dd-40x2x5x1024@0",
        (Rate::Double, (40, 2, 5), 0, SectorSize::Bytes1024),
        (80, 6250),
    ),
    (
        "mfm-dd-99x1x1x128@255",
        (Rate::Double, (99, 1, 1), 255, SectorSize::Bytes128),
        (80, 6250),
    ),
];

/// No cylinder, or too many; no head, or too many; no sector, too many of them, or too many for the
/// track or for 8 bits; a size that there is none of; a rate of the other recording; zeros, letters,
/// words that are too short or too long.
const NO_DISKS: [&str; 24] = [
    "mfm-dd-0x2x9x512",
    "mfm-dd-100x2x9x512",
    "mfm-dd-80x0x9x512",
    "mfm-dd-80x3x9x512",
    "mfm-dd-80x2x0x512",
    "mfm-dd-80x2x33x128",
    "mfm-dd-80x2x12x512",
    "fm-sd-40x1x11x256",
    "mfm-dd-80x2x9x512@248",
    "mfm-dd-80x2x1x512@256",
    "mfm-dd-80x2x9x500",
    "mfm-sd-40x1x10x256",
    "fm-dd-80x2x9x512",
    "mfm-dd-080x2x9x512",
    "mfm-dd-80x2x09x512",
    "mfm-dd-80x2x9x512@01",
    "mfm-dd-80x2x9x512@",
    "mfm-dd-80x2x9",
    "mfm-dd-80x2x9x512x",
    "mfm-dd-80x2x9x512@1@1",
    "MFM-dd-80x2x9x512",
    "mfm-80x2x9x512",
    "",
    "ibm-720",
];

#[test]
fn words_write_disks(rt: HostRuntime) {
    for (
        word,
        (rate, (cylinders, heads, sectors), first_sector, size),
        (sector_gap, bytes),
    ) in DISKS {
        let lead_in = if sector_gap == 2 {
            LeadIn::Bare
        } else {
            LeadIn::Indexed
        };
        let track = TrackNumbers {
            sectors,
            first_sector,
            size,
            lead_in,
            sector_gap,
            bytes,
        };
        let Some(disk) = IbmDisk::of_word(word.as_bytes()) else {
            assert!(rt; false);
            return;
        };
        let counts = (disk.rate(), disk.cylinders(), disk.heads());
        assert_eq!(rt; counts, (rate, cylinders, heads));
        assert_eq!(rt; disk.track(), track);
        let printed = disk.word();
        assert!(rt; printed.as_str().as_bytes() == word.as_bytes());
    }
}

// The number of the first sector may be written where it is 1.
#[test]
fn the_first_sector_may_be_left_out(rt: HostRuntime) {
    let written = IbmDisk::of_word(b"mfm-dd-80x2x9x512@1");
    assert_eq!(rt; written, IbmDisk::of_word(b"mfm-dd-80x2x9x512"));
    assert!(rt; written.is_some());
}

#[test]
fn other_words_write_none(rt: HostRuntime) {
    for word in NO_DISKS {
        assert_eq!(rt; IbmDisk::of_word(word.as_bytes()), None, "{word}");
    }
}
