//! The memory for splitting joined streams.

use crate::ahead::Ahead;
use flux_base::Memory;
use kryo_stream::StreamRoom;
use std::alloc::Global;
use std::marker::Model;

/// All memory that splitting joined streams takes, 74 MiB: no call on it takes any.
#[derive(Drop)]
pub struct SplitRoom {
    pub(crate) stream: StreamRoom,
    pub(crate) ahead: Ahead,
}

impl Model for SplitRoom {
    ghost Value = { Unit {0} };

    ghost view = { λ room. record {} };
}

impl SplitRoom {
    /// Takes it.
    pub fn reserve(alloc: Global) -> Result<SplitRoom, Memory> {
        Ok(SplitRoom {
            stream: StreamRoom::reserve(alloc)?,
            ahead: Ahead::new(alloc)?,
        })
    }
}
