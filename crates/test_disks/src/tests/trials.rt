//! Trials, by their line.
use flux_base::{Failed, MemorySink};
use flux_trial::{TrialRoom, run_trial};
use sector_images::Format;
use std::alloc::Global;
use std::process::Abort;
use std::test::Fail;

/// A trial of a format with a seed, into a sink with room for so many bytes: its answer, and what was written.
type Row = (Format, u32, usize, Result<(), Failed>, &'static str);

const GCR: &[Row] = &[
    (
        Format::AppleDo,
        0,
        192,
        Ok(()),
        "trial apple-do 0 tracks 35 sectors 560 good 560 bad 0 missing 0 contradictory 0 sum 18278400\n",
    ),
    // A sink that fails, and one with no room for the whole line.
    (Format::AppleDo, 0, 0, Err(Failed), ""),
    (Format::AppleDo, 0, 12, Err(Failed), "trial apple-"),
    (
        Format::ApplePo,
        1,
        192,
        Ok(()),
        "trial apple-po 1 tracks 35 sectors 560 good 560 bad 0 missing 0 contradictory 0 sum 18278400\n",
    ),
    // A hole in the data of sector 0 of every track: cells 1008 to 1107.
    (
        Format::AppleDo,
        63100000,
        192,
        Ok(()),
        "trial apple-do 63100000 tracks 35 sectors 560 good 525 bad 35 missing 0 contradictory 0 sum 17136000\n",
    ),
    (
        Format::C1541Forty,
        7,
        192,
        Ok(()),
        "trial c1541-40 7 tracks 40 sectors 768 good 768 bad 0 missing 0 contradictory 0 sum 25067520\n",
    ),
    // The same hole in the data of sector 0.
    (
        Format::C1541,
        63100000,
        192,
        Ok(()),
        "trial c1541 63100000 tracks 35 sectors 683 good 648 bad 35 missing 0 contradictory 0 sum 21150720\n",
    ),
];

const FM_AND_MFM: &[Row] = &[
    // A hole in the data of sector 1: cells 2000 to 2099.
    (
        Format::Ibm3740,
        125100000,
        192,
        Ok(()),
        "trial ibm-3740 125100000 tracks 77 sectors 2002 good 1925 bad 77 missing 0 contradictory 0 sum 31418944\n",
    ),
    // A hole in the data of sector 1: cells 4000 to 4099.
    (
        Format::Ibm720,
        250100001,
        192,
        Ok(()),
        "trial ibm-720 250100001 tracks 160 sectors 1440 good 1280 bad 160 missing 0 contradictory 0 sum 83558400\n",
    ),
    (
        Format::Amiga,
        1,
        192,
        Ok(()),
        "trial amiga 1 tracks 160 sectors 1760 good 1760 bad 0 missing 0 contradictory 0 sum 114892800\n",
    ),
    // The same hole in the data of sector 0.
    (
        Format::Amiga,
        250100000,
        192,
        Ok(()),
        "trial amiga 250100000 tracks 160 sectors 1760 good 1600 bad 160 missing 0 contradictory 0 sum 104448000\n",
    ),
];

fn writes(rt: &impl Abort, alloc: Global, row: &Row) -> Result<(), Fail> {
    let (format, seed, room_of_sink, answer, line) = row;
    let mut sink = MemorySink::new(alloc, *room_of_sink, Vec::new(alloc))?;
    let mut room = TrialRoom::reserve(alloc, *format)?;
    let came = run_trial(&mut room, *seed, &mut sink);
    assert_eq!(rt;
        (came, sink.bytes()),
        (*answer, line.as_bytes()),
        "of {format:?} {seed}"
    );
    Ok(())
}

#[test]
fn trials_of_apple_and_commodore_disks(rt: HostRuntime) -> Result<(), Fail> {
    for row in GCR {
        writes(&rt, rt.alloc(), row)?;
    }
    Ok(())
}

#[test]
fn trials_of_8_inch_pc_and_amiga_disks(rt: HostRuntime) -> Result<(), Fail> {
    for row in FM_AND_MFM {
        writes(&rt, rt.alloc(), row)?;
    }
    Ok(())
}
