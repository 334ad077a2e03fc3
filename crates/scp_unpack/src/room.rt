//! The memory for unpacking an SCP file.

use flux_base::Memory;
use index_turns::TrackFlux;
use scp_files::Capture;
use std::alloc::Global;
use std::marker::Model;

/// Room for the most transitions and index times of a stream.
const MOST_TIMES: usize = 4194304;

const MOST_INDEXES: usize = 262144;

/// All memory that unpacking an SCP file takes, 34 MiB: no call on it takes any.
#[derive(Drop)]
pub struct UnpackRoom {
    pub(crate) capture: Capture,
}

impl Model for UnpackRoom {
    ghost Value = { Unit {0} };

    ghost view = { λ room. record {} };
}

impl UnpackRoom {
    /// Takes it.
    pub fn reserve(alloc: Global) -> Result<UnpackRoom, Memory> {
        let mut flux = TrackFlux::new(alloc);
        flux.reserve(MOST_TIMES, MOST_INDEXES)?;
        Ok(UnpackRoom {
            capture: Capture::begin(flux, 0),
        })
    }
}
