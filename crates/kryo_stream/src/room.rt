ghost use Rattle.std.specs.Prelude.{◌≡◌, ◌≤◌, ◌++◌, ℕ, List, [], length, Some, false, true, IfErr, IfOk};
ghost use Rattle.std.specs.Prelude.{OnErr};
ghost use Rattle.flux_base.specs.Counts.{Counts};
ghost use Rattle.flux_base.specs.World.{source_counts};
ghost use Rattle.kryo_stream.specs.HeldStreams.{HoldsFault, HoldsStream};
ghost use Rattle.kryo_stream.specs.Outcome.{IsRead, IsReadOfInput, IsReadWhereNeeded, IsSmall, TrackCause};
ghost use Rattle.kryo_stream.specs.Outcome.{is_read_fault, input_of};
ghost use Rattle.kryo_stream.specs.Reads.{reads_at};

use crate::bench::{MOST_INDEXES, MOST_TIMES, StreamBench};
use crate::fault::{CaptureFault, StreamFault, TrackFault};
use crate::flux_maker::FluxMaker;
use crate::held::HeldBytes;
use crate::intake::Intake;
use crate::laws::growth_law;
use crate::reading::read_track;
use flux_base::{Memory, Source};
use index_turns::TrackFlux;
use std::alloc::Global;
use std::marker::Model;

/// All that reading streams one after another takes, 70 MiB: no call on it takes memory.
///
/// Contracts see the bytes that were taken from the source and not used yet, whether a stream was read, and
/// the transitions and index times of the stream that was read last.
#[derive(Drop)]
pub struct StreamRoom {
    intake: Intake,
    flux: TrackFlux,
    bench: StreamBench,
}

impl Model for StreamRoom {
    ghost use Rattle.kryo_stream.specs.Room.{StreamRoomState};

    ghost Value = { StreamRoomState };

    ghost use Rattle.kryo_stream.specs.Bench.{HasFullBench};
    ghost use Rattle.kryo_stream.specs.Outcome.{HasFullRoom};

    ghost view = { λ r. record { held = r.intake.held; used = r.intake.used; flux = r.flux } };

    ghost invariant = { λ r. HasFullRoom r.flux × HasFullBench r.bench };
}

impl StreamRoom {
    ghost use Rattle.kryo_stream.specs.Room.{IsFresh, track_answer};

    /// Takes all memory that reading the longest stream needs.
    pub fn reserve(alloc: Global) -> Result<StreamRoom, Memory>
        ensures { IfOk result IsFresh }
    {
        let mut flux = TrackFlux::new(alloc);
        flux.reserve(MOST_TIMES, MOST_INDEXES)?;
        let mut bench = StreamBench::new(alloc);
        bench.reserve()?;
        Ok(StreamRoom {
            intake: Intake::new(alloc)?,
            flux,
            bench,
        })
    }

    /// Begins anew, as after `reserve`: bytes that were taken and not used yet are forgotten, and so is the stream that
    /// was read last. The next stream may come of another source, at whose first byte it begins.
    pub fn restart(&mut self)
        ensures { IsFresh self.new }
    {
        self.intake.forget();
        self.flux.clear();
    }

    /// Reads one stream, as `read_track` does. After each `Err` the track is empty, and the room may not be
    /// used again for reading before it begins anew.
    pub fn read<S: Source>(&mut self, source: &mut S) -> Result<(), CaptureFault>
        ensures read { IsRead (S.left source.old) (S.left source.new) self.old.used self.old.held self.new.held
            self.new.flux (track_answer result) }
        ensures told { (bytes : List ℕ) → S.left source.old ≡ Some bytes
            → IsReadOfInput (input_of self.old.used (self.old.held ++ bytes)) (S.left source.new) self.new.held
            self.new.flux (track_answer result) }
        ensures needed { IsReadWhereNeeded (reads_at S.Source source.old) (reads_at S.Source source.new) self.old.used
            self.old.held }
        ensures used { self.new.used ≡ true }
        ensures bound { length self.new.held ≤ 4096 }
        ensures small { IsSmall self.new.flux }
        ensures no_times { OnErr result (self.new.flux.times ≡ []) }
        ensures no_indexes { OnErr result (self.new.flux.indexes ≡ []) }
        ensures later { S.faults source.old ≤ S.faults source.new }
        ensures cause { TrackCause (S.faults source.old) (S.faults source.new) (track_answer result) }
        ensures counts { Counts (is_read_fault (track_answer result)) (source_counts S.Source source.old)
            (source_counts S.Source source.new) }
    {
        match read_track(source, &mut self.intake, &mut self.flux, &mut self.bench) {
            Ok(()) => Ok(()),
            Err(TrackFault::ReadFault) => Err(CaptureFault::ReadFault),
            Err(TrackFault::Refused { block, fault }) => Err(CaptureFault::Refused {
                block,
                fault,
            }),
            // All room was reserved.
            Err(TrackFault::Memory) => unreachable!(),
        }
    }

    /// Reads the stream that these bytes begin with, and gives how many bytes it has; or gives its first fault, behind
    /// the number of the block. The room begins anew before.
    pub fn read_held(&mut self, held: &[u8]) -> Result<usize, (u32, StreamFault)>
        ensures read { IfOk result (HoldsStream held.now self.new.flux) }
        ensures refused { IfErr result (HoldsFault held.now) }
        ensures small { IsSmall self.new.flux }
    {
        growth_law();
        self.restart();
        let mut source = HeldBytes { rest: held };
        match self.read(&mut source) {
            Ok(()) => {
                let unused = self.intake.bytes().len() + source.count();
                let size = held.len() - unused;
                Ok(size)
            }
            Err(CaptureFault::Refused { block, fault }) => Err((block, fault)),
            // Bytes at hand do not fail.
            Err(CaptureFault::ReadFault) => unreachable!(),
        }
    }

    /// Has transitions and index times made in the place of those of a stream. The room begins anew before.
    pub fn fill<S, R, M: FluxMaker<S, R>>(&mut self, maker: &M, outside: &mut S) -> R
        ensures made { M.makes maker.now outside.old outside.new result self.new.flux }
        ensures held { self.new.held ≡ [] }
        ensures used { self.new.used ≡ false }
    {
        self.restart();
        let (flux, answer) = maker.make(outside, self.flux.take());
        self.flux = flux;
        answer
    }

    /// The transitions and index times of the stream that was read last.
    pub fn flux(&self) -> &TrackFlux
        ensures { result.now ≡ self.now.flux }
    {
        &self.flux
    }
}
