//! The memory for writing a disk as a file of ImageDisk.

use arrayvec::ArrayVec;
use flux_base::{Memory, TrackId};
use flux_engine::PassedStreams;
use ibm_walks::WalkRoom;
use imd_records::{Choice, MOST_ROWS, Mode, TrackBooks};
use kryo_stream::StreamRoom;
use std::alloc::Global;
use std::marker::Model;

/// What is found of a track: the files that were passed over, its names, the mode and the size of its record, and the
/// record's rows.
#[derive(Drop)]
pub(crate) struct TrackRoom {
    pub track: TrackId,
    pub passed: PassedStreams,
    pub books: TrackBooks,
    pub choice: Choice,
    pub rows: ArrayVec<u8, MOST_ROWS>,
}

/// All memory that it takes, less than 128 MiB. It serves once.
#[derive(Drop)]
pub struct ImdRoom {
    pub(crate) stream: StreamRoom,
    pub(crate) walk: WalkRoom,
    pub(crate) track: TrackRoom,
}

impl Model for ImdRoom {
    ghost Value = { Unit {0} };

    ghost view = { λ room. record {} };

    ghost invariant = { λ room. Unit {0} };
}

impl ImdRoom {
    /// Takes it.
    pub fn reserve(alloc: Global) -> Result<ImdRoom, Memory> {
        Ok(ImdRoom {
            stream: StreamRoom::reserve(alloc)?,
            walk: WalkRoom::reserve(alloc)?,
            track: TrackRoom {
                track: TrackId {
                    cylinder: 0,
                    head: 0,
                },
                passed: PassedStreams::new(),
                books: TrackBooks::new(alloc)?,
                choice: Choice {
                    mode: Mode::Mfm250,
                    code: 0,
                },
                rows: ArrayVec::new(),
            },
        })
    }
}
