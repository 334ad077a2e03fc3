ghost use Rattle.std.specs.Prelude.{◌≡◌, ℕ, ◌+◌, ◌-◌, ◌≤◌, ◌<◌, [], length, take, drop, false, true, is_err, IfOk};
ghost use Rattle.std.specs.Prelude.{OnErr};
ghost use Rattle.std.specs.Io.KnownBytes.{ReadConsumes};
ghost use Rattle.flux_base.specs.Counts.{Counts};
ghost use Rattle.flux_base.specs.Outside.{GivesPiece};
ghost use Rattle.flux_base.specs.World.{source_at, source_counts};
ghost use Rattle.kryo_stream.specs.Reads.{reads_at};

use flux_base::{Failed, Memory, Source};
use std::alloc::Global;
use std::marker::Model;

/// How many bytes an intake holds at most.
const ROOM: usize = 4096;

/// What a call for more bytes came to.
#[derive(Clone, Copy)]
pub enum More {
    /// There are more bytes now.
    Taken,
    /// The source has no more bytes.
    End,
}

/// Bytes that were taken from a source and not used yet, at most 4096.
///
/// Contracts see these bytes, and whether a stream was read through this intake before.
#[derive(Drop)]
pub struct Intake {
    buffer: Vec<u8>,
    start: usize,
    end: usize,
    used: bool,
}

impl Model for Intake {
    ghost use Rattle.std.specs.Prelude.{◌≡◌, ◌-◌, ◌≤◌, length, take, drop};
    ghost use Rattle.kryo_stream.specs.Held.{IntakeState};

    ghost Value = { IntakeState };

    ghost view = { λ i. record { held = take (i.end - i.start) (drop i.start i.buffer.items); used = i.used } };

    ghost invariant = { λ i. (i.start ≤ i.end) × (i.end ≤ length i.buffer.items) × (length i.buffer.items ≡ 4096) };
}

impl Intake {
    ghost use Rattle.kryo_stream.specs.inside.Held.{Took, IsMore};
    ghost use Rattle.kryo_stream.specs.Reads.{reads_at};
    ghost use Rattle.kryo_stream.specs.inside.Reads.{IsNothing};

    /// An intake that holds nothing and was not used.
    pub fn new(alloc: Global) -> Result<Intake, Memory>
        ensures held { IfOk result (λ intake. intake.held ≡ []) }
        ensures fresh { IfOk result (λ intake. intake.used ≡ false) }
    {
        Ok(Intake {
            buffer: vec![in alloc; 0u8; ROOM]?,
            start: 0,
            end: 0,
            used: false,
        })
    }

    /// The bytes that are held, at most 4096.
    pub(crate) fn bytes(&self) -> &[u8]
        ensures value { result.now ≡ self.now.held }
        ensures bound { length result.now ≤ 4096 }
    {
        &self.buffer[self.start..self.end]
    }

    /// Whether a stream was read through this intake before.
    pub(crate) fn is_used(&self) -> bool
        ensures value { result ≡ self.now.used }
        ensures bound { length self.now.held ≤ 4096 }
    {
        self.used
    }

    /// Notes that a stream is read through this intake.
    pub(crate) fn begin(&mut self)
        ensures { self.new ≡ record self.old { used = true } }
    {
        self.used = true;
    }

    /// Forgets the bytes that are held, and that a stream was read.
    pub(crate) fn forget(&mut self)
        ensures held { self.new.held ≡ [] }
        ensures unused { self.new.used ≡ false }
    {
        self.start = 0;
        self.end = 0;
        self.used = false;
    }

    /// Passes over the first bytes.
    pub(crate) fn pass(&mut self, count: usize)
        requires { count ≤ length self.old.held }
        ensures { self.new ≡ record self.old { held = drop count self.old.held } }
    {
        self.start += count;
    }

    /// Takes at least one more byte from the source, unless that has ended or fails.
    pub(crate) fn more<S: Source>(&mut self, source: &mut S) -> Result<More, Failed>
        requires { length self.old.held < 4096 }
        ensures took { Took IsNothing (reads_at S.Source source.old) (reads_at S.Source source.new) self.old.held
            self.new.held }
        ensures more { IfOk result (λ more. IsMore more self.old.held self.new.held (S.left source.new)) }
        ensures kept { OnErr result (self.new.held ≡ self.old.held) }
        ensures bound { length self.new.held ≤ 4096 }
        ensures used { self.new.used ≡ self.old.used }
        ensures counts { Counts (is_err result) (source_counts S.Source source.old)
            (source_counts S.Source source.new) }
    {
        let held = self.end - self.start;
        let outcome = take_more(&mut self.buffer, self.start, self.end, source);
        self.start = 0;
        self.end = held;
        match outcome {
            Ok(0) => Ok(More::End),
            Ok(count) => {
                self.end += count;
                Ok(More::Taken)
            }
            Err(failed) => Err(failed),
        }
    }
}

/// Moves the bytes from `start` to `end` to the front, and reads more after them.
fn take_more<S: Source>(
    buffer: &mut [u8],
    start: usize,
    end: usize,
    source: &mut S,
) -> Result<usize, Failed>
    requires order { start ≤ end }
    requires inside { end ≤ length buffer.old }
    ensures bound { IfOk result (λ count. end - start + count ≤ length buffer.old) }
    ensures front { take (end - start) buffer.new ≡ take (end - start) (drop start buffer.old) }
    ensures bytes { ReadConsumes (S.left source.old) (S.left source.new) result (drop (end - start) buffer.new) }
    ensures piece { GivesPiece (S.given source.old) (S.given source.new) result (drop (end - start) buffer.new) }
    ensures counts { Counts (is_err result) (source_counts S.Source source.old) (source_counts S.Source source.new) }
{
    buffer.copy_within(start..end, 0);
    source.read(&mut buffer[end - start..])
}
