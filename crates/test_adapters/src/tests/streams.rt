//! A reader and a writer in place of the system's.
use super::FAULTS;
use flux_base::{Failed, Sink, Source, copy_front};
use std::alloc::{AllocError, Global};
use std::io;
use std::io::{ErrorKind, Read, Write};
use std::process::Abort;
use std::test::Fail;
use std_streams::{StdSink, StdSource};

/// What a call comes to that is not interrupted.
#[derive(Clone, Copy, Debug)]
enum End {
    /// It moves so many bytes, or as many as there is room for.
    Moves(usize),
    Fails(ErrorKind),
}

/// The first calls are interrupted, the next one ends so, and those behind it move one byte each. It tells how often it
/// was called, and what it took.
#[derive(Drop)]
struct Device {
    interrupted: u32,
    end: End,
    calls: u32,
    taken: Vec<u8>,
}

impl Device {
    fn new(alloc: Global, interrupted: u32, end: End) -> Device {
        Device {
            interrupted,
            end,
            calls: 0,
            taken: Vec::new(alloc),
        }
    }

    /// How many bytes the next call moves at most.
    fn called(&mut self) -> io::Result<usize> {
        let before = self.calls;
        self.calls = before.saturating_add(1);
        if before < self.interrupted {
            return Err(io::Error::from(ErrorKind::Interrupted));
        }
        if before > self.interrupted {
            return Ok(1);
        }
        match self.end {
            End::Moves(count) => Ok(count),
            End::Fails(kind) => Err(io::Error::from(kind)),
        }
    }
}

impl Read for Device {
    fn read(&mut self, buffer: &mut [u8]) -> io::Result<usize> {
        let most = self.called()?;
        let bytes = b"abcdefgh";
        Ok(copy_front(&bytes[..most.min(8)], buffer))
    }
}

impl Write for Device {
    fn write(&mut self, piece: &[u8]) -> io::Result<usize> {
        let count = self.called()?.min(piece.len());
        self.taken.extend_from_slice(&piece[..count])?;
        Ok(count)
    }

    fn flush(&mut self) -> io::Result<()> {
        Ok(())
    }
}

/// How often the system's call for four bytes is interrupted, what it comes to then, how often it is made, and
/// what a read and a write answer.
type Row = (u32, End, u32, Result<usize, Failed>, Result<usize, Failed>);

const ROWS: [Row; 9] = [
    (0, End::Moves(3), 1, Ok(3), Ok(3)),
    (0, End::Moves(8), 1, Ok(4), Ok(4)),
    (1, End::Moves(2), 2, Ok(2), Ok(2)),
    (7, End::Moves(4), 8, Ok(4), Ok(4)),
    // It is made a thousand times at most.
    (999, End::Moves(1), 1000, Ok(1), Ok(1)),
    (1000, End::Moves(1), 1000, Err(Failed), Err(Failed)),
    (5000, End::Moves(1), 1000, Err(Failed), Err(Failed)),
    // A reader that gives nothing is at its end. A writer that takes nothing fails.
    (0, End::Moves(0), 1, Ok(0), Err(Failed)),
    (3, End::Moves(0), 4, Ok(0), Err(Failed)),
];

/// Reads once, as a row says.
fn reads(rt: &impl Abort, alloc: Global, (interrupted, end, calls, wanted, _): Row) {
    let mut device = Device::new(alloc, interrupted, end);
    let mut buffer = [0; 4];
    let answer = StdSource::new(&mut device).read(&mut buffer);
    assert_eq!(rt;
        (answer, device.calls),
        (wanted, calls),
        "{interrupted} {end:?}"
    );
    let mut bytes = [0; 4];
    let _count = copy_front(&b"abcd"[..wanted.unwrap_or(0).min(4)], &mut bytes);
    assert_eq!(rt; buffer, bytes);
}

/// Writes once, as a row says.
fn writes(rt: &impl Abort, alloc: Global, (interrupted, end, calls, _, wanted): Row) {
    let mut device = Device::new(alloc, interrupted, end);
    let answer = StdSink::new(&mut device).write(b"wxyz");
    assert_eq!(rt;
        (answer, device.calls),
        (wanted, calls),
        "{interrupted} {end:?}"
    );
    assert_eq!(rt;
        device.taken.as_slice(),
        &b"wxyz"[..wanted.unwrap_or(0).min(4)]
    );
}

#[test]
fn interrupted_calls_are_made_again_a_thousand_times_at_most(rt: HostRuntime) {
    for row in ROWS {
        reads(&rt, rt.alloc(), row);
        writes(&rt, rt.alloc(), row);
    }
}

// The next call would succeed.
#[test]
fn failed_calls_are_not_made_again(rt: HostRuntime) {
    for kind in FAULTS {
        for interrupted in [0, 5] {
            let row = (
                interrupted,
                End::Fails(kind),
                interrupted + 1,
                Err(Failed),
                Err(Failed),
            );
            reads(&rt, rt.alloc(), row);
            writes(&rt, rt.alloc(), row);
        }
    }
}

// Nothing is there to be taken, so that it is no fault where nothing is.
#[test]
fn empty_pieces_are_taken(rt: HostRuntime) -> Result<(), Fail> {
    let mut device = Device::new(rt.alloc(), 0, End::Moves(8));
    assert_eq!(rt; StdSink::new(&mut device).write(b""), Ok(0));
    assert_eq!(rt; StdSource::new(&mut device).read(&mut []), Ok(0));
    assert_eq!(rt; device.calls, 2);
    Ok(())
}

/// The next reads and writes go on behind the one that failed.
#[test]
fn each_call_is_one_of_the_system(rt: HostRuntime) -> Result<(), AllocError> {
    let mut device = Device::new(rt.alloc(), 1, End::Fails(ErrorKind::TimedOut));
    let mut sink = StdSink::new(&mut device);
    let answers = [sink.write(b"ab"), sink.write(b"cd"), sink.write(b"e")];
    assert_eq!(rt; answers, [Err(Failed), Ok(1), Ok(1)]);
    assert_eq!(rt;
        (device.calls, device.taken.as_slice()),
        (4, b"ce".as_slice())
    );
    Ok(())
}
