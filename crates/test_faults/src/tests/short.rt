//! Reads and writes of few bytes: each run gives what it gives in one read and whole pieces.
use super::small::{
    DECODE, DECODE_FOLDER, FROM_G64, OVER_STREAMS, SmallRun, TO_G64, TRIAL, WRITE,
    WRITE_OF_A_SHORT_IMAGE,
};
use std::alloc::Global;
use std::process::Abort;
use std::test::Fail;
use test_rows::{Mismatch, Run, Want, gives};

/// With reads and writes of at most one to eight bytes this run gives the same.
fn gives_the_same(rt: &impl Abort, alloc: Global, small: &SmallRun) -> Result<(), Fail> {
    let bytes = small.bytes(alloc)?;
    let run = Run {
        chunk: 4096,
        ..small.run(&bytes)
    };
    let whole = small.whole(rt, alloc, run)?;
    small.holds(rt, short_runs_give(alloc, run, whole.given()));
    Ok(())
}

fn short_runs_give(alloc: Global, run: Run, want: Want) -> Result<(), Mismatch> {
    for bytes in 1..9u8 {
        let short = Run {
            chunk: u32::from(bytes),
            taken: usize::from(bytes),
            ..run
        };
        gives(alloc, short, want)?;
    }
    Ok(())
}

#[test]
fn short_pieces_over_streams(rt: HostRuntime) -> Result<(), Fail> {
    for small in OVER_STREAMS {
        gives_the_same(&rt, rt.alloc(), small)?;
    }
    Ok(())
}

#[test]
fn short_pieces_of_write(rt: HostRuntime) -> Result<(), Fail> {
    gives_the_same(&rt, rt.alloc(), &WRITE)?;
    gives_the_same(&rt, rt.alloc(), &WRITE_OF_A_SHORT_IMAGE)
}

#[test]
fn short_pieces_of_trial(rt: HostRuntime) -> Result<(), Fail> {
    gives_the_same(&rt, rt.alloc(), &TRIAL)
}

#[test]
fn short_pieces_of_g64_files(rt: HostRuntime) -> Result<(), Fail> {
    gives_the_same(&rt, rt.alloc(), &TO_G64)?;
    gives_the_same(&rt, rt.alloc(), &FROM_G64)
}

#[test]
fn a_folder_gives_what_its_files_give_joined(rt: HostRuntime) -> Result<(), Fail> {
    let bytes = DECODE.bytes(rt.alloc())?;
    let joined = DECODE.whole(&rt, rt.alloc(), DECODE.run(&bytes))?;
    gives(rt.alloc(), DECODE_FOLDER.run(&bytes), joined.given())?;
    Ok(())
}
