//! Lines that name the capture, or the clock.
use flux_base::TrackId;
use kryo_stream::StreamFault;
use sector_report::{Naming, named_line, refused_capture_line};
use turn_merge::{Clock, Place, Verdict};

const TRACK: TrackId = TrackId {
    cylinder: 0,
    head: 0,
};

/// A place of the first capture, and one of the sixteenth, which the held clock recovered.
const FIRST: Place = Place {
    capture: 0,
    clock: Clock::Following,
    turn: 1,
    cell: 27527,
};

const OTHER: Place = Place {
    capture: 15,
    clock: Clock::Held,
    turn: 2,
    cell: 27527,
};

/// What the readings of sector 1 say, its line that names the capture, and that which names the clock.
const LINES: &[(Verdict, &str, &str)] = &[
    (
        Verdict::Good {
            good: 8,
            bad: 0,
            first: FIRST,
        },
        "00.0 01 good 8 0 0 1 27527\n",
        "00.0 01 good 8 0 0 1 27527\n",
    ),
    (
        Verdict::Contradictory {
            good: 8,
            bad: 1,
            first: FIRST,
            other: OTHER,
        },
        "00.0 01 contradictory 8 1 0 1 27527 15 2 27527\n",
        "00.0 01 contradictory 8 1 0 1 27527 1 2 27527\n",
    ),
    (
        Verdict::Bad {
            bad: 2,
            first: OTHER,
        },
        "00.0 01 bad 0 2 15 2 27527\n",
        "00.0 01 bad 0 2 1 2 27527\n",
    ),
    (
        Verdict::Missing,
        "00.0 01 missing 0 0\n",
        "00.0 01 missing 0 0\n",
    ),
];

#[test]
fn lines_name_the_source(rt: HostRuntime) {
    for (verdict, by_capture, by_clock) in LINES {
        assert_eq!(rt;
            named_line(Naming::ByCapture, TRACK, 1, verdict).as_str(),
            *by_capture
        );
        assert_eq!(rt;
            named_line(Naming::ByClock, TRACK, 1, verdict).as_str(),
            *by_clock
        );
    }
    let fault = StreamFault::WrongPosition {
        said: 1,
        counted: 2,
    };
    assert_eq!(rt;
        refused_capture_line(159, 15, 4194304, &fault).as_str(),
        "refused track 159 capture 15 block 4194304 WrongPosition 1 2\n"
    );
}
