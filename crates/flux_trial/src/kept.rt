ghost use Rattle.std.specs.Prelude.{◌≡◌, ◌<◌, ◌≤◌, [], Some, length, vec_capacity, vec_len, IfOk, OnErr};
ghost use Rattle.std.specs.Io.{WritesAtMost};
ghost use Rattle.std.specs.Io.KnownBytes.{WriteAppends};
ghost use Rattle.flux_base.specs.Outside.{Rose};
ghost use Rattle.flux_trial.specs.inside.Keeping.{faults_of};

use flux_base::{Failed, Memory, Sink};
use std::alloc::Global;
use std::marker::Model;

/// How many bytes are kept: as many as a stream may have, and more than any image has.
const ROOM: usize = 4_194_304;

/// A sink that keeps its bytes in memory, which is taken at the start; contracts see the bytes. A full one counts as
/// failed as often as is counted.
#[derive(Drop)]
pub(crate) struct Kept {
    bytes: Vec<u8>,
}

impl Model for Kept {
    ghost use Rattle.std.specs.Prelude.{ℕ, ◌≤◌, List, vec_capacity, vec_len};

    ghost Value = { List ℕ };

    ghost view = { λ s. s.bytes.items };

    ghost invariant = { λ s. (vec_len s.bytes ≤ 4194304) × (4194304 ≤ vec_capacity s.bytes) };
}

impl Kept {
    /// No bytes yet, and memory for them.
    pub(crate) fn reserve(alloc: Global) -> Result<Kept, Memory>
        ensures { IfOk result (λ kept. kept ≡ []) }
    {
        Ok(Kept {
            bytes: Vec::with_capacity(alloc, ROOM)?,
        })
    }

    /// Forgets the bytes.
    pub(crate) fn clear(&mut self)
        ensures { self.new ≡ [] }
    {
        self.bytes.clear();
    }

    /// The bytes.
    pub(crate) fn bytes(&self) -> &[u8]
        ensures value { result.now ≡ self.now }
        ensures few { length result.now ≤ 4194304 }
    {
        &self.bytes
    }
}

impl Sink for Kept {
    ghost written = { λ s. Some s };

    ghost faults = { λ s. faults_of s };

    fn write(&mut self, piece: &[u8]) -> Result<usize, Failed>
        ensures bound { WritesAtMost result piece.now }
        ensures progress { IfOk result (λ n. 0 < length piece.now → 0 < n) }
        ensures bytes { WriteAppends (Some self.old) (Some self.new) result piece.now }
        ensures later { faults_of self.old ≤ faults_of self.new }
        ensures cause { OnErr result (Rose (faults_of self.old) (faults_of self.new)) }
    {
        let left = ROOM - self.bytes.len();
        if left == 0 {
            return Err(Failed);
        }
        let taken = piece.len().min(left);
        match self.bytes.extend_from_slice(&piece[..taken]) {
            Ok(()) => Ok(taken),
            // There is memory for them.
            Err(_) => unreachable!(),
        }
    }
}
