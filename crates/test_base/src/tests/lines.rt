//! Lines of the report.
use flux_base::{HeaderName, TrackId};
use kryo_stream::StreamFault;
use scp_files::ScpTrackFault;
use sector_images::Format;
use sector_report::{
    Naming, Passed, Totals, USAGE, image_line, named_line, other_line, passed_line, refused_line,
    sector_line, total_line, traces_line, transitions_line, trial_line, turn_line, unread_line,
    untold_line, usage_line,
};
use track_shelf::{file_name, missing_line};
use turn_merge::{Clock, OtherTold, Place, Verdict};

#[test]
fn lines_of_a_stream(rt: HostRuntime) {
    assert_eq!(rt;
        transitions_line(u32::MAX).as_str(),
        "transitions 4294967295\n"
    );
    assert_eq!(rt; turn_line(1, 131172).as_str(), "turn 1 131172\n");
    let longest = turn_line(u32::MAX, u64::MAX);
    assert_eq!(rt; longest.as_str(), "turn 4294967295 18446744073709551615\n");
    assert_eq!(rt; usage_line(), USAGE);
}

const REFUSED_STREAMS: [(StreamFault, &str); 10] = [
    (
        StreamFault::Truncated,
        "refused track 159 block 4194304 Truncated\n",
    ),
    (
        StreamFault::UnknownType(5),
        "refused track 159 block 4194304 UnknownType 5\n",
    ),
    (
        StreamFault::BadSize(u16::MAX),
        "refused track 159 block 4194304 BadSize 65535\n",
    ),
    (
        StreamFault::WrongPosition {
            said: 1,
            counted: 2,
        },
        "refused track 159 block 4194304 WrongPosition 1 2\n",
    ),
    (
        StreamFault::DeviceFault(u32::MAX),
        "refused track 159 block 4194304 DeviceFault 4294967295\n",
    ),
    (
        StreamFault::DataAfterEnd,
        "refused track 159 block 4194304 DataAfterEnd\n",
    ),
    (
        StreamFault::IndexPosition,
        "refused track 159 block 4194304 IndexPosition\n",
    ),
    (
        StreamFault::IndexOrder,
        "refused track 159 block 4194304 IndexOrder\n",
    ),
    (
        StreamFault::NoTurn,
        "refused track 159 block 4194304 NoTurn\n",
    ),
    (
        StreamFault::TooLong,
        "refused track 159 block 4194304 TooLong\n",
    ),
];

#[test]
fn lines_of_refused_streams(rt: HostRuntime) {
    for (fault, line) in REFUSED_STREAMS {
        assert_eq!(rt; refused_line(159, 4194304, &fault).as_str(), line);
    }
}

#[test]
fn lines_of_refused_images(rt: HostRuntime) {
    assert_eq!(rt;
        image_line(0, 901120).as_str(),
        "refused image 0 wanted 901120\n"
    );
    let more = image_line(901121, 901120);
    assert_eq!(rt; more.as_str(), "refused image 901121 wanted 901120\n");
}

const TRACK: TrackId = TrackId {
    cylinder: 7,
    head: 1,
};

#[test]
fn names_of_files(rt: HostRuntime) {
    assert_eq!(rt; file_name(TRACK).as_str(), "track07.1.raw");
    let missing = missing_line(15, TRACK);
    assert_eq!(rt;
        missing.as_str(),
        "refused track 15 missing track07.1.raw\n"
    );
}

const FIRST: Place = Place {
    capture: 0,
    clock: Clock::Following,
    turn: 1,
    cell: 10,
};

const OTHER: Place = Place {
    capture: 0,
    clock: Clock::Following,
    turn: 3,
    cell: 30,
};

const LAST: Place = Place {
    capture: 0,
    clock: Clock::Following,
    turn: u32::MAX,
    cell: u64::MAX,
};

/// The cylinder and the head, the sector, its verdict, and its line. The last line is the longest that there is.
const SECTORS: [(u8, u8, u8, Verdict, &str); 5] = [
    (
        0,
        0,
        1,
        Verdict::Good {
            good: 4,
            bad: 0,
            first: FIRST,
        },
        "00.0 01 good 4 0 1 10\n",
    ),
    (
        0,
        0,
        1,
        Verdict::Contradictory {
            good: 3,
            bad: 1,
            first: FIRST,
            other: OTHER,
        },
        "00.0 01 contradictory 3 1 1 10 3 30\n",
    ),
    (
        0,
        0,
        18,
        Verdict::Bad {
            bad: 2,
            first: OTHER,
        },
        "00.0 18 bad 0 2 3 30\n",
    ),
    (79, 1, 0, Verdict::Missing, "79.1 00 missing 0 0\n"),
    (
        99,
        255,
        255,
        Verdict::Contradictory {
            good: u64::MAX,
            bad: u64::MAX,
            first: LAST,
            other: LAST,
        },
        "99.255 255 contradictory 18446744073709551615 18446744073709551615 4294967295 18446744073709551615 4294967295 18446744073709551615\n",
    ),
];

#[test]
fn lines_of_sectors(rt: HostRuntime) {
    for (cylinder, head, sector, verdict, line) in SECTORS {
        assert!(rt; cylinder < 100);
        let track = TrackId { cylinder, head };
        assert_eq!(rt; sector_line(track, sector, &verdict).as_str(), line);
    }
}

const MOST: Totals = Totals {
    sectors: u32::MAX,
    good: u32::MAX,
    bad: u32::MAX,
    missing: u32::MAX,
    contradictory: u32::MAX,
};

const SOME: Totals = Totals {
    sectors: 1440,
    good: 1280,
    bad: 160,
    missing: 3,
    contradictory: 4,
};

#[test]
fn lines_of_totals_and_trials(rt: HostRuntime) {
    assert_eq!(rt;
        total_line(&MOST).as_str(),
        "total 4294967295 good 4294967295 bad 4294967295 missing 4294967295 contradictory 4294967295\n"
    );
    assert_eq!(rt;
        trial_line(Format::Ibm720, 250100001, 160, &SOME, 83558400).as_str(),
        "trial ibm-720 250100001 tracks 160 sectors 1440 good 1280 bad 160 missing 3 contradictory 4 sum 83558400\n"
    );
    assert_eq!(rt;
        trial_line(Format::C1541Forty, u32::MAX, u32::MAX, &MOST, u64::MAX).as_str(),
        "trial c1541-40 4294967295 tracks 4294967295 sectors 4294967295 good 4294967295 bad 4294967295 missing 4294967295 contradictory 4294967295 sum 18446744073709551615\n"
    );
}

/// Why the stream of a dump was passed over, and the line.
const PASSED: [(Passed, &str); 6] = [
    (Passed::Absent, "07.1 dump 2 missing\n"),
    (Passed::Failed, "07.1 dump 2 failed\n"),
    (
        Passed::Refused {
            block: 40017,
            fault: StreamFault::Truncated,
        },
        "07.1 dump 2 refused block 40017 Truncated\n",
    ),
    (
        Passed::Refused {
            block: 0,
            fault: StreamFault::WrongPosition {
                said: 1,
                counted: 2,
            },
        },
        "07.1 dump 2 refused block 0 WrongPosition 1 2\n",
    ),
    (
        Passed::RefusedScp(ScpTrackFault::BadNumber(255)),
        "07.1 dump 2 refused scp BadNumber 255\n",
    ),
    (
        Passed::RefusedScp(ScpTrackFault::ShortTrack),
        "07.1 dump 2 refused scp ShortTrack\n",
    ),
];

#[test]
fn lines_of_dumps(rt: HostRuntime) {
    for (passed, line) in PASSED {
        assert_eq!(rt; passed_line(TRACK, 2, &passed).as_str(), line);
    }
    assert_eq!(rt; unread_line(2, 1, 0).as_str(), "unread 2 other 1 whole 0\n");
}

/// A reading of the third dump by the held clock.
const HELD: Place = Place {
    capture: 2,
    clock: Clock::Held,
    turn: 1,
    cell: 112101,
};

/// Names that headers have and no sector of the track, and the line.
const OTHERS: [(OtherTold, &str); 3] = [
    (
        OtherTold {
            name: HeaderName::Address {
                cylinder: 0,
                head: 0,
                sector: 10,
                size_code: 2,
            },
            headers: 8,
            whole: 3,
            first: HELD,
        },
        "07.1 other 0 0 10 2 8 3 2 1 1 112101\n",
    ),
    (
        OtherTold {
            name: HeaderName::TrackSector {
                track: 36,
                sector: 0,
            },
            headers: 1,
            whole: 0,
            first: HELD,
        },
        "07.1 other 36 0 1 0 2 1 1 112101\n",
    ),
    (
        OtherTold {
            name: HeaderName::TrackSectorSide {
                track: 63,
                sector: 11,
                side: 32,
                format: 255,
            },
            headers: u64::MAX,
            whole: u64::MAX,
            first: HELD,
        },
        "07.1 other 63 11 32 255 18446744073709551615 18446744073709551615 2 1 1 112101\n",
    ),
];

#[test]
fn lines_of_other_headers(rt: HostRuntime) {
    for (told, line) in OTHERS {
        assert_eq!(rt;
            other_line(Naming::ByCaptureAndClock, TRACK, &told).as_str(),
            line
        );
    }
}

// Two digits of the cylinder, and as many of the count as it has.
#[test]
fn lines_of_names_that_are_not_told(rt: HostRuntime) {
    assert_eq!(rt; untold_line(TRACK).as_str(), "07.1 others not told\n");
    assert_eq!(rt; traces_line(TRACK, 3).as_str(), "07.1 traces 3\n");
    assert_eq!(rt;
        traces_line(TRACK, u64::MAX).as_str(),
        "07.1 traces 18446744073709551615\n"
    );
}

#[test]
fn lines_of_sectors_of_dumps(rt: HostRuntime) {
    let verdict = Verdict::Contradictory {
        good: 9,
        bad: 1,
        first: FIRST,
        other: HELD,
    };
    assert_eq!(rt;
        named_line(Naming::ByCaptureAndClock, TRACK, 2, &verdict).as_str(),
        "07.1 02 contradictory 9 1 0 0 1 10 2 1 1 112101\n"
    );
}
