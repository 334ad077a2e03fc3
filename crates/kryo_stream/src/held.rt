//! Bytes at hand, as a source.

ghost use Rattle.std.specs.Prelude.{◌≡◌, ◌≤◌, None, Some, is_err, length, OnErr};
ghost use Rattle.std.specs.Io.{ReadsAtMost};
ghost use Rattle.std.specs.Io.KnownBytes.{ReadConsumes};
ghost use Rattle.flux_base.specs.Outside.{GivesPiece, IsCounted, Rose};

use flux_base::{Failed, Source, copy_front};
use std::marker::Model;

/// Bytes that are still to come.
#[derive(Debug, Drop)]
pub(crate) struct HeldBytes<'a> {
    pub(crate) rest: &'a [u8],
}

impl<'a> Model for HeldBytes<'a> {
    ghost use Rattle.std.specs.Prelude.{ℕ, List};

    ghost Value = { List ℕ };

    ghost view = { λ held. held.rest.now };
}

impl<'a> HeldBytes<'a> {
    /// How many they are.
    pub(crate) fn count(&self) -> usize
        ensures { result ≡ length self.now }
    {
        self.rest.len()
    }
}

impl<'a> Source for HeldBytes<'a> {
    ghost left = { λ held. Some held };

    ghost faults = { λ _. 0 };

    ghost failed = { λ _. Some 0 };

    fn read(&mut self, buffer: &mut [u8]) -> Result<usize, Failed>
        ensures bound { ReadsAtMost result buffer.new }
        ensures bytes { ReadConsumes (Some self.old) (Some self.new) result buffer.new }
        ensures piece { GivesPiece None None result buffer.new }
        ensures later { 0 ≤ 0 }
        ensures cause { OnErr result (Rose 0 0) }
        ensures counted { IsCounted (is_err result) (Some 0) (Some 0) }
    {
        let given = copy_front(self.rest, buffer);
        self.rest = &self.rest[given..];
        Ok(given)
    }
}
