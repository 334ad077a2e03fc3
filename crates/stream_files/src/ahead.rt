//! Bytes that are taken ahead, in room for the longest stream.

ghost use Rattle.std.specs.Prelude.{◌≡◌, ◌+◌, ◌-◌, ◌≤◌, [], drop, is_err, length, take, IfOk};
ghost use Rattle.flux_base.specs.Counts.{Counts};
ghost use Rattle.flux_base.specs.World.{source_counts};
ghost use Rattle.stream_files.specs.inside.Ahead.{Finds, Refills, TakesBehind};

use flux_base::{Failed, Memory, Source};
use flux_engine::fill;
use kryo_stream::{padding_at_hand, padding_law};
use std::alloc::Global;
use std::marker::Model;

/// The most bytes that reading a stream takes, 4194304 and 4096 of which it may use none, and 16 of padding; and one
/// more, so that a stream ends within them or is refused for its length.
const ROOM: usize = 4198417;

/// Bytes that were taken from a source and not used yet.
///
/// Contracts see these bytes.
#[derive(Drop)]
pub(crate) struct Ahead {
    buffer: Vec<u8>,
    start: usize,
    end: usize,
}

impl Model for Ahead {
    ghost use Rattle.std.specs.Prelude.{◌≡◌, ◌-◌, ◌≤◌, ℕ, List, length, take, drop};

    ghost Value = { List ℕ };

    ghost view = { λ a. take (a.end - a.start) (drop a.start a.buffer.items) };

    ghost invariant = { λ a.
        (a.start ≤ a.end) × (a.end ≤ length a.buffer.items) × (length a.buffer.items ≡ 4198417) };
}

impl Ahead {
    pub(crate) fn new(alloc: Global) -> Result<Ahead, Memory>
        ensures { IfOk result (λ ahead. ahead ≡ []) }
    {
        Ok(Ahead {
            buffer: vec![in alloc; 0u8; ROOM]?,
            start: 0,
            end: 0,
        })
    }

    pub(crate) fn bytes(&self) -> &[u8]
        ensures { result.now ≡ self.now }
    {
        &self.buffer[self.start..self.end]
    }

    /// Forgets all bytes.
    pub(crate) fn forget(&mut self)
        ensures { self.new ≡ [] }
    {
        self.start = 0;
        self.end = 0;
    }

    /// Passes over the first bytes.
    pub(crate) fn pass(&mut self, count: usize)
        requires { count ≤ length self.old }
        ensures { self.new ≡ drop count self.old }
    {
        self.start += count;
    }

    /// Takes bytes from the source until the room is full or the source has ended, and passes over the padding before
    /// a stream that is not the first. Whether anything is left: else the source has ended.
    pub(crate) fn find<S: Source>(&mut self, is_first: bool, source: &mut S) -> Result<bool, Failed>
        ensures found { Finds is_first (S.left source.old) (S.left source.new) self.old self.new result }
        ensures counts { Counts (is_err result) (source_counts S.Source source.old)
            (source_counts S.Source source.new) }
    {
        padding_law();
        match self.refill(source) {
            Ok(()) => {}
            Err(failed) => return Err(failed),
        }
        if is_first {
            return Ok(true);
        }
        match padding_at_hand(self.bytes()) {
            Some(count) => {
                self.pass(count);
                Ok(true)
            }
            None => Ok(false),
        }
    }

    /// Takes bytes from the source until the room is full or the source has ended.
    fn refill<S: Source>(&mut self, source: &mut S) -> Result<(), Failed>
        ensures took { Refills (S.left source.old) (S.left source.new) self.old self.new result }
        ensures counts { Counts (is_err result) (source_counts S.Source source.old)
            (source_counts S.Source source.new) }
    {
        let held = self.end - self.start;
        let outcome = take_behind(&mut self.buffer, self.start, self.end, source);
        self.start = 0;
        self.end = held;
        match outcome {
            Ok(count) => {
                self.end += count;
                Ok(())
            }
            Err(failed) => Err(failed),
        }
    }
}

/// Moves the bytes from `start` to `end` to the front, and fills what is behind them as far as the source goes.
fn take_behind<S: Source>(
    buffer: &mut [u8],
    start: usize,
    end: usize,
    source: &mut S,
) -> Result<usize, Failed>
    requires order { start ≤ end }
    requires inside { end ≤ length buffer.old }
    ensures bound { IfOk result (λ count. end - start + count ≤ length buffer.new) }
    ensures front { take (end - start) buffer.new ≡ take (end - start) (drop start buffer.old) }
    ensures took { TakesBehind (S.left source.old) (S.left source.new) (drop (end - start) buffer.new) result }
    ensures counts { Counts (is_err result) (source_counts S.Source source.old) (source_counts S.Source source.new) }
{
    buffer.copy_within(start..end, 0);
    fill(&mut buffer[end - start..], source)
}
