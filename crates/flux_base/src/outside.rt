ghost use Rattle.std.specs.Prelude.{ℕ, is_err, ◌<◌, ◌≤◌, List, None, length, IfOk, OnErr, Option};
ghost use Rattle.std.specs.Io.{ReadsAtMost, WritesAtMost};
ghost use Rattle.std.specs.Io.KnownBytes.{ReadConsumes, WriteAppends};
ghost use Rattle.flux_base.specs.Outside.{Rose, GivesPiece, IsCounted};

use std::alloc::{AllocError, AllocFailed};

/// The one answer of an outside object that failed.
#[derive(Clone, Copy, Debug, PartialEq, Eq)]
pub struct Failed;

/// The one answer for want of memory.
#[derive(Clone, Copy, Debug, PartialEq, Eq)]
pub struct Memory;

impl From<AllocError> for Memory {
    fn from(_: AllocError) -> Self {
        Memory
    }
}

impl<T: Drop> From<AllocFailed<T>> for Memory {
    fn from(_: AllocFailed<T>) -> Self {
        Memory
    }
}

/// Where bytes come from.
pub trait Source {
    /// The bytes still to come, where the object tells them.
    ghost left: { Self → Option (List ℕ) } = { λ _. None };

    /// How often the object has failed.
    ghost faults: { Self → ℕ };

    /// How many calls have failed, where the object tells it.
    ghost failed: { Self → Option ℕ } = { λ _. None };

    /// What each read so far gave, as long as the object tells it: nothing at the end, and after `Failed`.
    ghost given: { Self → Option (List (List ℕ)) } = { λ _. None };

    /// Puts the next bytes at the buffer's front and says how many. 0 for a buffer that is not empty
    /// says that there are no more bytes.
    fn read(&mut self, buffer: &mut [u8]) -> Result<usize, Failed>
        ensures bound { ReadsAtMost result buffer.new }

        // The bytes given are the first of those left. After `Failed` all are still left.
        ensures bytes { ReadConsumes (left self.old) (left self.new) result buffer.new }
        ensures piece { GivesPiece (given self.old) (given self.new) result buffer.new }
        ensures later { faults self.old ≤ faults self.new }
        ensures cause { OnErr result (Rose (faults self.old) (faults self.new)) }

        // A call that fails is one failed call, and no other is.
        ensures counted { IsCounted (is_err result) (failed self.old) (failed self.new) };
}

/// Where bytes go.
pub trait Sink {
    /// The bytes taken so far, where the object tells them.
    ghost written: { Self → Option (List ℕ) } = { λ _. None };

    /// How often the object has failed.
    ghost faults: { Self → ℕ };

    /// How many calls have failed, where the object tells it.
    ghost failed: { Self → Option ℕ } = { λ _. None };

    /// Takes some bytes of the piece's front and says how many: at least one of a piece that is not empty.
    fn write(&mut self, piece: &[u8]) -> Result<usize, Failed>
        ensures bound { WritesAtMost result piece.now }
        ensures progress { IfOk result (λ n. 0 < length piece.now → 0 < n) }

        // The bytes taken stand after those taken before. After `Failed` none was taken.
        ensures bytes { WriteAppends (written self.old) (written self.new) result piece.now }
        ensures later { faults self.old ≤ faults self.new }
        ensures cause { OnErr result (Rose (faults self.old) (faults self.new)) }

        // A call that fails is one failed call, and no other is.
        ensures counted { IsCounted (is_err result) (failed self.old) (failed self.new) };
}
