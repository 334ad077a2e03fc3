//! Disks that are read by a plan: two captures of each track, each by both clocks.
use super::decoding::{PADDED_TURN, TRACK, three_turns};
use cell_bits::Cells;
use flux_base::{MemorySink, MemorySource};
use flux_engine::{Clocks, DiskRoom, Plan, RefusedCapture, Rule, Stopped, decode_planned};
use frame_law::Recording;
use ibm_fm::IbmFm;
use kryo_stream::StreamFault;
use sector_images::Format;
use sector_report::{Naming, Totals};
use std::alloc::Global;
use std::process::Abort;
use std::test::Fail;

/// What reading a disk by the plan came to.
#[derive(Drop)]
struct Planned {
    answer: Result<Totals, Stopped<RefusedCapture>>,
    image: MemorySink,
    notes: MemorySink,
}

/// Reads a disk of IBM 3740 by a rule, of two captures by both clocks. The first capture of its first track has no
/// sector, and the second has all. Then come these bytes, so often.
fn read_planned(alloc: Global, rule: Rule, then: &[u8], times: u32) -> Result<Planned, Fail> {
    let mut ring = Cells::new(alloc);
    IbmFm::IBM_3740.ring(TRACK, &[0xE5; 3328], &mut ring)?;
    // There is no padding before the first stream.
    let mut bytes = PADDED_TURN[1..].to_vec(alloc)?;
    bytes.extend_from_slice(&three_turns(alloc, &ring, 48)?)?;
    for _ in 0..times {
        bytes.extend_from_slice(then)?;
    }
    let mut source = MemorySource::new(bytes, 4096, Vec::new(alloc));
    let mut image = MemorySink::new(alloc, 300_000, Vec::new(alloc))?;
    let mut notes = MemorySink::new(alloc, 100_000, Vec::new(alloc))?;
    let mut room = DiskRoom::reserve(alloc, Format::Ibm3740)?;
    let plan = Plan {
        captures: 2,
        rule,
        clocks: Clocks::Both,
        naming: Naming::ByCapture,
    };
    let answer = decode_planned(plan, &mut room, &mut source, &mut image, &mut notes);
    Ok(Planned {
        answer,
        image,
        notes,
    })
}

// Three turns by two clocks are six readings, all of the second capture, and the first of them is by the
// clock that follows the drive.
fn comes_to_six_readings(rt: &impl Abort, planned: &Planned) {
    let totals = Totals {
        sectors: 2002,
        good: 26,
        bad: 0,
        missing: 1976,
        contradictory: 0,
    };
    assert_eq!(rt; planned.answer, Ok(totals));
    assert_eq!(rt; planned.image.bytes().len(), 256_256);
    assert!(rt; planned.image.bytes().starts_with(&[0xE5; 3328]));
    assert!(rt;
        planned
            .notes
            .bytes()
            .starts_with(b"00.0 01 good 6 0 1 1 1264\n")
    );
    assert!(rt;
        planned.notes.bytes().ends_with(
            b"76.0 26 missing 0 0\ntotal 2002 good 26 bad 0 missing 1976 contradictory 0\n"
        )
    );
}

#[test]
fn two_captures_are_read_by_both_clocks(rt: HostRuntime) -> Result<(), Fail> {
    let planned = read_planned(rt.alloc(), Rule::Strict, PADDED_TURN, 152)?;
    comes_to_six_readings(&rt, &planned);
    Ok(())
}

#[test]
fn a_controller_reads_the_same(rt: HostRuntime) -> Result<(), Fail> {
    let planned = read_planned(rt.alloc(), Rule::Controller, PADDED_TURN, 152)?;
    comes_to_six_readings(&rt, &planned);
    Ok(())
}

// The first capture of the second track is whole, and the second has a block of a type that there is not.
#[test]
fn a_refusal_names_its_capture(rt: HostRuntime) -> Result<(), Fail> {
    let mut bytes = PADDED_TURN.to_vec(rt.alloc())?;
    bytes.extend_from_slice(b"\x0D\x05\0\0")?;
    let planned = read_planned(rt.alloc(), Rule::Strict, &bytes, 1)?;
    let refused = Stopped::Refused(RefusedCapture {
        track: 1,
        capture: 1,
        block: 0,
        fault: StreamFault::UnknownType(5),
    });
    assert_eq!(rt; planned.answer, Err(refused));
    assert_eq!(rt; planned.image.bytes().len(), 3328);
    assert!(rt;
        planned
            .notes
            .bytes()
            .ends_with(b"00.0 26 good 6 0 1 1 76464\n")
    );
    Ok(())
}
