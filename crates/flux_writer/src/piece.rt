ghost use Rattle.std.specs.Prelude.{◌≡◌, ◌<◌, ◌≤◌, ◌+◌, ◌++◌, [], ◌∷◌, length, take, OnOk};
ghost use Rattle.flux_base.specs.Moments.{Puts};
ghost use Rattle.flux_base.specs.World.{sink_at};
ghost use Rattle.flux_writer.specs.inside.Gathering.{Holds};

use flux_base::{Failed, Sink, write_whole};
use std::marker::Model;

/// How many bytes go to the sink together.
const ROOM: usize = 4096;

/// The bytes that are held back until a piece is full, seen by contracts as their list.
#[derive(Drop)]
pub(crate) struct OutputPiece {
    bytes: [u8; ROOM],
    filled: usize,
}

impl Model for OutputPiece {
    ghost use Rattle.std.specs.Prelude.{ℕ, ◌≤◌, List, take};

    ghost Value = { List ℕ };

    ghost view = { λ p. take p.filled p.bytes };

    ghost invariant = { λ p. p.filled ≤ 4096 };
}

impl OutputPiece {
    /// A piece without bytes.
    pub(crate) fn new() -> OutputPiece
        ensures { result ≡ [] }
    {
        OutputPiece {
            bytes: [0; ROOM],
            filled: 0,
        }
    }

    /// Puts bytes after those that are held, of which the sink is given all first where there is no room.
    pub(crate) fn put<W: Sink>(&mut self, bytes: &[u8], sink: &mut W) -> Result<(), Failed>
        requires { length bytes.now ≤ 4096 }
        ensures { Holds (sink_at W.Sink sink.old) (sink_at W.Sink sink.new) self.old self.new
            bytes.now result }
    {
        if ROOM - self.filled < bytes.len() {
            match self.give(sink) {
                Ok(()) => {}
                Err(failed) => return Err(failed),
            }
        }
        self.append(bytes);
        Ok(())
    }

    /// Puts one byte after those that are held, as `put` does.
    #[inline]
    pub(crate) fn put_byte<W: Sink>(&mut self, byte: u8, sink: &mut W) -> Result<(), Failed>
        ensures { Holds (sink_at W.Sink sink.old) (sink_at W.Sink sink.new) self.old self.new
            (byte ∷ []) result }
    {
        if self.filled >= ROOM {
            match self.give(sink) {
                Ok(()) => {}
                Err(failed) => return Err(failed),
            }
        }
        self.append_byte(byte);
        Ok(())
    }

    /// Puts one byte after those that are held, where there is room for it.
    #[inline]
    fn append_byte(&mut self, byte: u8)
        requires { length self.old < 4096 }
        ensures { self.new ≡ self.old ++ byte ∷ [] }
    {
        self.bytes[self.filled] = byte;
        self.filled += 1;
    }

    /// Puts bytes after those that are held, where there is room for them.
    fn append(&mut self, bytes: &[u8])
        requires { length self.old + length bytes.now ≤ 4096 }
        ensures { self.new ≡ self.old ++ bytes.now }
    {
        let end = self.filled + bytes.len();
        self.bytes[self.filled..end].copy_from_slice(bytes);
        self.filled = end;
    }

    /// Gives the sink all bytes that are held.
    pub(crate) fn give<W: Sink>(&mut self, sink: &mut W) -> Result<(), Failed>
        ensures puts { Puts (sink_at W.Sink sink.old) (sink_at W.Sink sink.new) self.old result }
        ensures empty { OnOk result (self.new ≡ []) }
    {
        let answer = write_whole(sink, &self.bytes[..self.filled]);
        self.filled = 0;
        answer
    }
}
