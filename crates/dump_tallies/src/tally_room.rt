//! The memory for what the files of a dump come to as the tracks of a disk that is not known yet.

use crate::files::MOST_FILES;
use flux_base::Memory;
use flux_engine::{Gathered, PassedStreams, TrackTally};
use std::alloc::Global;
use std::marker::Model;
use turn_merge::{Book, Others};

/// No track of any disk has more sectors.
const MOST_SECTORS: u8 = 100;

/// So many of these bytes are the most that all sectors of a track have, 11264 and a few more.
const SECTOR_BYTES: u16 = 113;

/// All memory that a [`DiskTally`](crate::DiskTally) takes, whatever its disk is.
#[derive(Drop)]
pub struct TallyRoom {
    pub(crate) gathered: Gathered,
    pub(crate) tallies: Vec<TrackTally>,
}

impl Model for TallyRoom {
    ghost use Rattle.std.specs.Prelude.{◌≡◌, ◌≤◌, []};
    ghost use Rattle.std.specs.Vec.{vec_capacity};

    ghost Value = { Unit {0} };

    ghost view = { λ room. record {} };

    ghost invariant = { λ room. (room.gathered.book.most ≡ 100) × (room.gathered.book.size ≡ 113)
        × (room.tallies.items ≡ []) × (200 ≤ vec_capacity room.tallies) };
}

impl TallyRoom {
    /// Takes it.
    pub fn reserve(alloc: Global) -> Result<TallyRoom, Memory> {
        let book = Book::new(alloc, 0, MOST_SECTORS, SECTOR_BYTES)?;
        let others = Others::new(alloc)?;
        let tallies = Vec::with_capacity(alloc, usize::from(MOST_FILES))?;
        Ok(TallyRoom {
            gathered: Gathered {
                book,
                passed: PassedStreams::new(),
                others,
            },
            tallies,
        })
    }
}
