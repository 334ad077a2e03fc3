//! Headers of none of the track's sectors.
use super::super::frames::{Other, assert_others};
use super::{Frame, PLAIN, TRACK};
use apple_gcr::AppleGcr;
use flux_base::HeaderName;
use std::test::Fail;

/// Volume 254, track 1, sector 7: the check value is F8.
const TRACK_1: Frame = Frame {
    address: (0xFFFE_AAAB, 0xABAF_FEFA),
    ..PLAIN
};

const OTHERS: &[Other<Frame>] = &[
    (
        "track 1",
        TRACK_1,
        HeaderName::TrackSector {
            track: 1,
            sector: 7,
        },
        true,
    ),
    (
        "track 1, and one nibble of the data is another",
        Frame {
            changed: (0, 0x97),
            ..TRACK_1
        },
        HeaderName::TrackSector {
            track: 1,
            sector: 7,
        },
        false,
    ),
    (
        "sector 16, check value EE",
        Frame {
            address: (0xFFFE_AAAA, 0xAABA_FFEE),
            ..PLAIN
        },
        HeaderName::TrackSector {
            track: 0,
            sector: 16,
        },
        true,
    ),
];

#[test]
fn tells_headers_of_no_sector(rt: HostRuntime) -> Result<(), Fail> {
    assert_others(&rt, rt.alloc(), &AppleGcr::STRICT, TRACK, OTHERS)
}
