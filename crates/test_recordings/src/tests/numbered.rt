//! IBM's disks by their numbers alone, written and read back.
use super::rings::{Numbers, assert_data_bytes, read_back_by_chance};
use flux_base::TrackId;
use ibm_disks::{Rate, SectorSize, TrackNumbers};
use ibm_fm::IbmFm;
use ibm_mfm::{HeadNumbers, IbmMfm};
use std::test::Fail;

const TRACK: TrackId = TrackId {
    cylinder: 0,
    head: 0,
};

/// A gap of 80 bytes, twelve of 00, four of the index mark, a gap of 50 and twelve of 00 stand before the marks of the
/// first header.
const PC_9: Numbers = Numbers {
    first: 1,
    sectors: 9,
    size: 512,
    cells: 100_000,
    place: 2528,
    step: 10464,
};

/// The header of sector 1 of 512 bytes on the first track, with its check value.
const FIRST_HEADER: [u8; 7] = [0xFE, 0x00, 0x00, 0x01, 0x02, 0xCA, 0x6F];

/// What is asked of a track: rate, sectors, the number of the first one, and their size.
type Asked = (Rate, u8, u8, SectorSize);

/// Disks of double density by their numbers, with those of their first track and its first header.
const MFM_DISKS: [(Asked, Numbers, [u8; 7]); 8] = [
    (
        (Rate::Double, 10, 1, SectorSize::Bytes512),
        Numbers {
            sectors: 10,
            step: 9680,
            ..PC_9
        },
        FIRST_HEADER,
    ),
    // The gap would be too narrow: before the first header stand ten bytes of 4E and three of 00.
    (
        (Rate::Double, 11, 1, SectorSize::Bytes512),
        Numbers {
            sectors: 11,
            place: 208,
            step: 9072,
            ..PC_9
        },
        FIRST_HEADER,
    ),
    (
        (Rate::High, 21, 1, SectorSize::Bytes512),
        Numbers {
            sectors: 21,
            cells: 200_000,
            step: 9376,
            ..PC_9
        },
        FIRST_HEADER,
    ),
    (
        (Rate::HighAt360, 8, 1, SectorSize::Bytes1024),
        Numbers {
            sectors: 8,
            size: 1024,
            cells: 166_656,
            step: 18656,
            ..PC_9
        },
        [0xFE, 0x00, 0x00, 0x01, 0x03, 0xDA, 0x4E],
    ),
    (
        (Rate::Double, 16, 0, SectorSize::Bytes256),
        Numbers {
            first: 0,
            sectors: 16,
            size: 256,
            step: 5968,
            ..PC_9
        },
        [0xFE, 0x00, 0x00, 0x00, 0x01, 0xC9, 0x3D],
    ),
    (
        (Rate::Double, 9, 1, SectorSize::Bytes512),
        PC_9,
        FIRST_HEADER,
    ),
    (
        (Rate::HighAt360, 26, 1, SectorSize::Bytes256),
        Numbers {
            sectors: 26,
            size: 256,
            cells: 166_656,
            step: 6160,
            ..PC_9
        },
        [0xFE, 0x00, 0x00, 0x01, 0x01, 0xFA, 0x0C],
    ),
    (
        (Rate::Double, 5, 0, SectorSize::Bytes1024),
        Numbers {
            first: 0,
            sectors: 5,
            size: 1024,
            step: 18656,
            ..PC_9
        },
        [0xFE, 0x00, 0x00, 0x00, 0x03, 0xE9, 0x7F],
    ),
];

#[test]
fn reads_double_density_back(rt: HostRuntime) -> Result<(), Fail> {
    for ((rate, sectors, first, size), numbers, header) in &MFM_DISKS {
        let asked = TrackNumbers::of_disk(*rate, *sectors, *first, *size);
        let disk = IbmMfm {
            numbers: asked.unwrap_or(TrackNumbers::PC_8),
            heads: HeadNumbers::Same,
        };
        assert!(rt; disk.fills_track());
        let ring = read_back_by_chance(&rt, rt.alloc(), &disk, TRACK, numbers)?;
        let place = numbers.place.wrapping_add(48);
        assert_data_bytes(&rt, &ring, place, header);
    }
    Ok(())
}

/// Numbers of which there is no track: too many bytes, too many sectors or none, a number of nine bits.
const NO_TRACKS: [Asked; 6] = [
    (Rate::Double, 12, 1, SectorSize::Bytes512),
    (Rate::High, 23, 1, SectorSize::Bytes512),
    (Rate::Single, 3, 1, SectorSize::Bytes1024),
    (Rate::High, 33, 1, SectorSize::Bytes128),
    (Rate::High, 0, 1, SectorSize::Bytes128),
    (Rate::Double, 9, 248, SectorSize::Bytes512),
];

#[test]
fn makes_no_track_of_other_numbers(rt: HostRuntime) {
    for (rate, sectors, first, size) in &NO_TRACKS {
        let asked = TrackNumbers::of_disk(*rate, *sectors, *first, *size);
        assert_eq!(rt; asked, None, "{sectors} sectors from {first}");
    }
}

/// Ten sectors of 256 bytes, with a gap of 14 after each.
const SINGLE: Numbers = Numbers {
    first: 0,
    sectors: 10,
    size: 256,
    cells: 50000,
    place: 1264,
    step: 4848,
};

/// Disks of single density. A gap of 40 bytes, six of 00, the index mark, a gap of 26 and six of 00 stand before it.
const FM_DISKS: [(Asked, Numbers, [u8; 7]); 2] = [
    (
        (Rate::Single, 10, 0, SectorSize::Bytes256),
        SINGLE,
        [0xFE, 0x00, 0x00, 0x00, 0x01, 0xF1, 0xD3],
    ),
    (
        (Rate::SingleAt360, 26, 1, SectorSize::Bytes128),
        Numbers {
            first: 1,
            sectors: 26,
            size: 128,
            cells: 83328,
            step: 3072,
            ..SINGLE
        },
        [0xFE, 0x00, 0x00, 0x01, 0x00, 0xD2, 0xC3],
    ),
];

#[test]
fn reads_single_density_back(rt: HostRuntime) -> Result<(), Fail> {
    for ((rate, sectors, first, size), numbers, header) in &FM_DISKS {
        let asked = TrackNumbers::of_disk(*rate, *sectors, *first, *size);
        let disk = IbmFm {
            numbers: asked.unwrap_or(TrackNumbers::ACORN),
        };
        assert!(rt; disk.fills_track());
        let ring = read_back_by_chance(&rt, rt.alloc(), &disk, TRACK, numbers)?;
        assert_data_bytes(&rt, &ring, numbers.place, header);
    }
    Ok(())
}
