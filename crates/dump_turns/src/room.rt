//! The memory for measuring the revolutions of a dump.

ghost use Rattle.std.specs.Prelude.{◌≡◌, [], IfOk};

use crate::files::MOST_BYTES;
use crate::found::Found;
use flux_base::Memory;
use kryo_stream::StreamRoom;
use std::alloc::Global;
use std::marker::Model;

/// The most files: of 99 cylinders and two heads.
const MOST_FILES: usize = 198;

/// All memory that measuring the revolutions of a dump takes, less than 128 MiB. Contracts see what was found of the
/// files of the dump that was measured last.
#[derive(Drop)]
pub struct TurnsRoom {
    pub(crate) stream: StreamRoom,
    /// A file's bytes.
    pub(crate) buffer: Vec<u8>,
    /// What is found of each file.
    pub(crate) founds: Vec<Found>,
    /// The means of the files that are read.
    pub(crate) means: Vec<u64>,
}

impl Model for TurnsRoom {
    ghost use Rattle.std.specs.Prelude.{◌≡◌, ◌≤◌, All, List, vec_len};
    ghost use Rattle.std.specs.Vec.{vec_capacity};
    ghost use Rattle.dump_turns.specs.declared.found.Found.{Found};
    ghost use Rattle.dump_turns.specs.inside.Told.{IsBoundedFound};

    ghost Value = { List Found };

    ghost view = { λ room. room.founds.items };

    ghost invariant = { λ room. (vec_len room.buffer ≡ 8388608) × (198 ≤ vec_capacity room.founds)
        × (198 ≤ vec_capacity room.means) × All IsBoundedFound room.founds.items };
}

impl TurnsRoom {
    /// Takes it. Nothing is found of any file.
    pub fn reserve(alloc: Global) -> Result<TurnsRoom, Memory>
        ensures { IfOk result (λ room. room ≡ []) }
    {
        let stream = StreamRoom::reserve(alloc)?;
        let buffer = vec![in alloc; 0u8; MOST_BYTES]?;
        let founds = Vec::with_capacity(alloc, MOST_FILES)?;
        let means = Vec::with_capacity(alloc, MOST_FILES)?;
        Ok(TurnsRoom {
            stream,
            buffer,
            founds,
            means,
        })
    }
}
