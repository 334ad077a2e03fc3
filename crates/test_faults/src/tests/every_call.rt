//! Each call of each object fails in its turn, over a small input of each command.
use super::small::{
    FROM_G64, OVER_STREAMS, SmallRun, TO_G64, TRIAL, WRITE, WRITE_OF_A_SHORT_IMAGE,
};
use std::alloc::Global;
use std::process::Abort;
use std::test::Fail;
use test_rows::{Ended, Mismatch, Run, Want, gives, is_cut};

/// The objects of a run.
#[derive(Clone, Copy)]
enum Object {
    Source,
    Image,
    Notes,
    Shelf,
}

/// The line behind a fault of the image.
const TOLD: &[u8] = b"failed output\n";

const OBJECTS: [Object; 4] = [Object::Source, Object::Image, Object::Notes, Object::Shelf];

impl Object {
    /// The run in which one call of this object fails.
    fn failing<'a>(self, run: Run<'a>, call: u64) -> Run<'a> {
        let number = Some(call as usize);
        match self {
            Object::Source => Run {
                failing_read: number,
                ..run
            },
            Object::Image => Run {
                failing_image: number,
                ..run
            },
            Object::Notes => Run {
                failing_notes: number,
                ..run
            },
            Object::Shelf => Run {
                failing_shelf: number,
                ..run
            },
        }
    }

    /// The exit code where a call of this object failed.
    fn code(self) -> u8 {
        match self {
            Object::Source => 4,
            Object::Image => 5,
            Object::Notes => 6,
            Object::Shelf => 8,
        }
    }

    /// What a run gives fronts of in which a call of this object fails.
    fn cut<'a>(self, small: &SmallRun, whole: Want<'a>) -> Want<'a> {
        match self {
            Object::Image if small.is_told => Want {
                notes: TOLD,
                ..whole
            },
            _ => whole,
        }
    }

    /// How often a whole run calls this object.
    fn calls(self, small: &SmallRun, whole: &Ended) -> u64 {
        match self {
            Object::Source => whole.source.calls(),
            Object::Image => whole.image.sink.calls(),
            Object::Notes => whole.notes.sink.calls(),
            Object::Shelf => small.shelf_calls,
        }
    }
}

/// Each call of this run fails in its turn, and ends it.
fn every_call_fails(rt: &impl Abort, alloc: Global, small: &SmallRun) -> Result<(), Fail> {
    let bytes = small.bytes(alloc)?;
    every_call_over_fails(rt, alloc, small, small.run(&bytes))
}

fn every_call_over_fails(
    rt: &impl Abort,
    alloc: Global,
    small: &SmallRun,
    run: Run,
) -> Result<(), Fail> {
    let whole = small.whole(rt, alloc, run)?;
    for object in OBJECTS {
        let calls = object.calls(small, &whole);
        small.holds(
            rt,
            each_call_fails(alloc, run, small, whole.given(), object, calls),
        );
    }
    Ok(())
}

/// The number after the last call is of none.
fn each_call_fails(
    alloc: Global,
    run: Run,
    small: &SmallRun,
    whole: Want,
    object: Object,
    calls: u64,
) -> Result<(), Mismatch> {
    let cut = object.cut(small, whole);
    for call in 0..calls {
        is_cut(alloc, object.failing(run, call), cut, object.code())?;
    }
    gives(alloc, object.failing(run, calls), whole)?;
    Ok(())
}

#[test]
fn every_call_over_streams_fails(rt: HostRuntime) -> Result<(), Fail> {
    for small in OVER_STREAMS {
        every_call_fails(&rt, rt.alloc(), small)?;
    }
    Ok(())
}

#[test]
fn every_call_of_write_fails(rt: HostRuntime) -> Result<(), Fail> {
    every_call_fails(&rt, rt.alloc(), &WRITE)?;
    every_call_fails(&rt, rt.alloc(), &WRITE_OF_A_SHORT_IMAGE)
}

#[test]
fn every_call_of_trial_fails(rt: HostRuntime) -> Result<(), Fail> {
    every_call_fails(&rt, rt.alloc(), &TRIAL)
}

#[test]
fn every_call_of_g64_files_fails(rt: HostRuntime) -> Result<(), Fail> {
    every_call_fails(&rt, rt.alloc(), &TO_G64)?;
    every_call_fails(&rt, rt.alloc(), &FROM_G64)
}
