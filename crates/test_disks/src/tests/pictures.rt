//! Pictures, and the fields of which they are made.
use disk_map::{Layout, field_text, foot_text, map_disk};
use flux_base::{Memory, MemorySink, MemorySource, TrackId};
use flux_engine::{DiskRoom, RefusedCapture, Stopped, decoding_plan};
use kryo_stream::StreamFault;
use sector_images::Format;
use sector_report::{Totals, refused_line};
use std::alloc::Global;
use std::process::Abort;
use std::str;
use std::test::Fail;
use turn_merge::{Clock, Place, Verdict};

const TRACK: TrackId = TrackId {
    cylinder: 3,
    head: 1,
};

const FIRST: Place = Place {
    capture: 0,
    clock: Clock::Following,
    turn: 1,
    cell: 27527,
};

/// A sector of the second head, what its readings say, and its field in a picture.
const FIELDS: &[(u8, Verdict, &str)] = &[
    // 40 + 12 * 3 from the left; from the top 56, one grid of 9 rows with 48 below it, and a row.
    (
        2,
        Verdict::Good {
            good: 5,
            bad: 0,
            first: FIRST,
        },
        "<path fill=\"#5aae61\" d=\"M76 224h10v10h-10z\"><title>03.1 02 good 5 0 1 27527\n</title></path>\n",
    ),
    (
        2,
        Verdict::Bad {
            bad: 2,
            first: FIRST,
        },
        "<path fill=\"#d6301d\" d=\"M76 224l3 0l2 3l2 -3h3l-3 5l3 5h-3l-2 -3l-2 3h-3l3 -5z\"><title>03.1 02 bad 0 2 1 27527\n</title></path>\n",
    ),
    (
        1,
        Verdict::Contradictory {
            good: 4,
            bad: 1,
            first: FIRST,
            other: FIRST,
        },
        "<path fill=\"#40004b\" d=\"M76 212l10 0l-10 10h10z\"><title>03.1 01 contradictory 4 1 1 27527 1 27527\n</title></path>\n",
    ),
    (
        9,
        Verdict::Missing,
        "<path fill=\"#8c8c8c\" d=\"M76 308v10h10v-10zm2 2h6v6h-6z\"><title>03.1 09 missing 0 0\n</title></path>\n",
    ),
];

#[test]
fn fields_have_their_verdicts_look(rt: HostRuntime) {
    let layout = Layout::of_format(Format::Ibm720);
    for (sector, verdict, text) in FIELDS {
        assert_eq!(rt; field_text(layout, TRACK, *sector, verdict).as_str(), *text);
    }
}

/// Compares how a text begins and ends, and what stands in it.
fn has(rt: &impl Abort, text: &str, first: &str, parts: &[&str], last: &str) {
    assert!(rt; text.starts_with(first), "begins in {text}");
    for part in parts {
        assert!(rt; text.contains(*part), "{part} in {text}");
    }
    assert!(rt; text.ends_with(last), "ends in {text}");
}

// The foot of a refused disk: its legend stands below one grid of 21 rows.
#[test]
fn the_foot_says_why_a_disk_is_refused(rt: HostRuntime) {
    let layout = Layout::of_format(Format::C1541);
    let totals = Totals {
        sectors: 42,
        good: 40,
        bad: 1,
        missing: 1,
        contradictory: 0,
    };
    let last = refused_line(2, 7, &StreamFault::Truncated);
    has(
        &rt,
        foot_text(layout, &totals, &last).as_str(),
        "<path fill=\"#5aae61\" d=\"M40 322h10v10h-10z\"/><text x=\"58\" y=\"331\">good 40</text>\n",
        &["y=\"363\">bad 1</text>\n"],
        "<text x=\"40\" y=\"398\">refused track 2 block 7 Truncated\n</text>\n</svg>\n",
    );
}

/// A stream of one turn with two transitions that make no sector.
const ONE_TURN: &[u8] =
    b"\x0D\x02\x0C\0\0\0\0\0\0\0\0\0\0\0\0\0\x60\x60\x0D\x02\x0C\0\x02\0\0\0\x05\0\0\0\x18\0\0\0\
    \x0D\x03\x08\0\x02\0\0\0\0\0\0\0\x0D\x0D\x0D\x0D";

/// What drawing a disk came to.
#[derive(Drop)]
struct Drawn {
    answer: Result<Totals, Stopped<RefusedCapture>>,
    picture: MemorySink,
}

/// Draws a Commodore 1541's disk from a stream without a sector, and these bytes after it.
fn draw_after(alloc: Global, rest: &[u8]) -> Result<Drawn, Memory> {
    let mut bytes = ONE_TURN.to_vec(alloc)?;
    bytes.extend_from_slice(rest)?;
    let mut source = MemorySource::new(bytes, 4096, Vec::new(alloc));
    let mut picture = MemorySink::new(alloc, 16384, Vec::new(alloc))?;
    let mut room = DiskRoom::reserve(alloc, Format::C1541)?;
    let answer = map_disk(decoding_plan(), &mut room, &mut source, &mut picture);
    Ok(Drawn { answer, picture })
}

// The second stream has a block of a type that there is not: the picture has the first track, its legend, and its end.
#[test]
fn a_refused_disk_has_a_whole_picture(rt: HostRuntime) -> Result<(), Fail> {
    let drawn = draw_after(rt.alloc(), b"\x0D\x05\0\0")?;
    let refused = Stopped::Refused(RefusedCapture {
        track: 1,
        capture: 0,
        block: 0,
        fault: StreamFault::UnknownType(5),
    });
    assert!(rt; drawn.answer == Err(refused));
    let text = str::from_utf8(drawn.picture.bytes()).unwrap_or("");
    has(
        &rt,
        text,
        "<svg xmlns=\"http://www.w3.org/2000/svg\" viewBox=\"0 0 476 410\" ",
        &[
            "d=\"M40 296v10h10v-10zm2 2h6v6h-6z\"><title>00.0 20 missing 0 0\n</title></path>\n<path ",
            // The number of cylinder 35 would begin at 419.6.
            "<svg y=\"-14\" width=\"419\" height=\"12\"><use href=\"#columns\"/></svg>\n",
            "y=\"379\">missing 21</text>\n",
        ],
        ">refused track 1 block 0 UnknownType 5\n</text>\n</svg>\n",
    );
    Ok(())
}
