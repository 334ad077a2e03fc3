//! A small run of each command.
use std::alloc::{AllocError, Global};
use std::process::Abort;
use std::test::Fail;
use test_rows::{
    Ended, Files, IBM_3740, Mismatch, Run, SHORT, content_of, end_of, first_bytes, short_streams,
    turns,
};

/// A G64 file of one half track, which has no cells.
const NO_TRACKS: [u8; 20] = *b"GCR-1541\0\x01\xF8\x1E\0\0\0\0\0\0\0\0";

/// A run, and how it ends where no call fails.
#[derive(Clone, Copy)]
pub struct SmallRun {
    pub name: &'static str,
    pub command: &'static str,
    pub format: Option<&'static str>,
    /// The number of a trial, how many streams capture a track, or the name of a folder.
    pub third: Option<&'static str>,
    pub input: Input,
    /// The most bytes that a read gives.
    pub chunk: u32,
    pub code: u8,
    pub shelf_calls: u64,
    /// A fault of the image is told in a line of the notes, which had none before.
    pub is_told: bool,
}

/// What a run reads.
#[derive(Clone, Copy)]
pub enum Input {
    /// The first bytes of a shortest stream.
    Front(usize),
    /// So many shortest streams, and the first 30 bytes of one more.
    Streams(usize),
    /// The same, as the files of the folder `dump`: the later files have no bytes.
    Files(usize),
    /// So many bytes of an image.
    Image(usize),
    NoTracks,
}

const TURNS: SmallRun = SmallRun {
    name: "turns",
    command: "turns",
    format: None,
    third: None,
    input: Input::Front(50),
    chunk: 7,
    code: 0,
    shelf_calls: 0,
    is_told: false,
};

/// Two tracks are written, and the third is refused.
pub const DECODE: SmallRun = SmallRun {
    name: "decode",
    command: "decode",
    format: Some("ibm-3740"),
    input: Input::Streams(2),
    code: 2,
    ..TURNS
};

/// The shelf is asked for the files, then its files of 50, 50 and 30 bytes are read in 8, 8 and 5 pieces, and the next
/// read finds that nothing is left.
pub const DECODE_FOLDER: SmallRun = SmallRun {
    name: "decode-folder",
    command: "decode-folder",
    third: Some("dump"),
    input: Input::Files(2),
    shelf_calls: 1 + 8 + 8 + 5 + 1,
    ..DECODE
};

/// The page goes to the image's sink, and nothing is read.
const HELP: SmallRun = SmallRun {
    name: "help",
    command: "help",
    input: Input::Front(0),
    is_told: true,
    ..TURNS
};

/// Runs over streams, and pages.
pub const OVER_STREAMS: &[SmallRun] = &[
    TURNS,
    SmallRun {
        name: "turns over a cut stream",
        input: Input::Front(40),
        code: 2,
        ..TURNS
    },
    DECODE,
    SmallRun {
        name: "report",
        command: "report",
        ..DECODE
    },
    SmallRun {
        name: "map",
        command: "map",
        is_told: true,
        ..DECODE
    },
    // The second track is refused: the notes have nothing before the first one's part of the image.
    SmallRun {
        name: "rescue",
        command: "rescue",
        input: Input::Streams(1),
        is_told: true,
        ..DECODE
    },
    // The third track is refused in its second capture.
    SmallRun {
        name: "decode-set",
        command: "decode-set",
        third: Some("2"),
        input: Input::Streams(5),
        ..DECODE
    },
    DECODE_FOLDER,
    // No file lies in this folder: the shelf is asked once, and the notes get a line.
    SmallRun {
        name: "decode-folder of an empty folder",
        third: Some("other"),
        shelf_calls: 1,
        ..DECODE_FOLDER
    },
    HELP,
    SmallRun {
        name: "--version",
        command: "--version",
        ..HELP
    },
];

/// The streams are more than a sink has room for, so that the whole run ends there.
pub const WRITE: SmallRun = SmallRun {
    name: "write",
    command: "write",
    format: Some("apple-do"),
    third: None,
    input: Input::Image(143_360),
    chunk: 4096,
    code: 5,
    shelf_calls: 0,
    is_told: false,
};

pub const WRITE_OF_A_SHORT_IMAGE: SmallRun = SmallRun {
    name: "write of a short image",
    input: Input::Image(100),
    chunk: 7,
    code: 2,
    ..WRITE
};

pub const TRIAL: SmallRun = SmallRun {
    name: "trial",
    command: "trial",
    third: Some("1"),
    input: Input::Front(0),
    code: 0,
    ..WRITE
};

pub const TO_G64: SmallRun = SmallRun {
    name: "to-g64",
    command: "to-g64",
    format: Some("c1541"),
    input: Input::Image(174_848),
    code: 0,
    ..WRITE
};

/// No sector is there.
pub const FROM_G64: SmallRun = SmallRun {
    name: "from-g64",
    command: "from-g64",
    format: Some("c1541"),
    input: Input::NoTracks,
    chunk: 7,
    code: 1,
    ..WRITE
};

impl SmallRun {
    pub fn bytes(&self, alloc: Global) -> Result<Vec<u8>, AllocError> {
        match self.input {
            Input::Front(length) => first_bytes(&SHORT, length).to_vec(alloc),
            Input::Streams(count) | Input::Files(count) => streams_and_front(alloc, count, 30),
            Input::Image(length) => content_of(alloc, length),
            Input::NoTracks => NO_TRACKS.to_vec(alloc),
        }
    }

    /// The run over these bytes.
    pub fn run<'a>(&self, bytes: &'a [u8]) -> Run<'a> {
        let plain = Run {
            command: self.command,
            format: self.format,
            third: self.third,
            chunk: self.chunk,
            ..turns(bytes)
        };
        match self.input {
            Input::Files(_) => Run {
                input: &[],
                files: Some(in_files(bytes)),
                ..plain
            },
            _ => plain,
        }
    }

    /// What this run comes to where no call fails. It ends as it is to end: what other runs are compared with has done
    /// its work.
    pub fn whole(&self, rt: &impl Abort, alloc: Global, run: Run) -> Result<Ended, Fail> {
        let end = end_of(alloc, run)?;
        let code = end.code;
        assert_eq!(rt; code, self.code, "{}", self.name);
        Ok(end)
    }

    /// Stops with the run's name where it gave something else.
    pub fn holds(&self, rt: &impl Abort, found: Result<(), Mismatch>) {
        if let Err(mismatch) = found {
            panic!(rt; "{}: {mismatch:?}", self.name);
        }
    }
}

/// So many shortest streams, and the first bytes of one more.
pub fn streams_and_front(alloc: Global, count: usize, front: usize) -> Result<Vec<u8>, AllocError> {
    let mut input = short_streams(alloc, count)?;
    input.extend_from_slice(first_bytes(&SHORT, front))?;
    Ok(input)
}

fn in_files(bytes: &[u8]) -> Files<'_> {
    Files {
        disk: IBM_3740,
        folder: "dump",
        bytes,
        size: SHORT.len(),
    }
}
