//! Where the streams of a disk's tracks come from.

ghost use Rattle.std.specs.Prelude.{◌≡◌, ◌+◌, ◌*◌, ◌<◌, ℕ, Bool, false, List, [], length, IfOk};
ghost use Rattle.flux_base.specs.lemmas.Counting.{Counts-none};
ghost use Rattle.flux_base.specs.World.{source_counts};
ghost use Rattle.flux_engine.specs.LoopProgress.{GivesNext, IsBoundedNext};
ghost use Rattle.flux_engine.specs.Plans.{Seen};
ghost use Rattle.flux_engine.specs.SourceStreams.{HaveComeCounted, HaveEndedCounted};
ghost use Rattle.kryo_stream.specs.declared.fault.CaptureFault.{CaptureFault};
ghost use Rattle.flux_engine.specs.declared.plan.Plan.{Plan};
ghost use Rattle.flux_engine.specs.lemmas.Coming.{none_came};
ghost use Rattle.kryo_stream.specs.Reads.{reads_at};
ghost use Rattle.sector_images.specs.Places.{tracks};
ghost use Rattle.sector_images.specs.declared.format.Format.{Format};

use crate::capture::read_stream;
use flux_base::Source;
use kryo_stream::{CaptureFault, StreamRoom};
use sector_images::Format;
use sector_report::Passed;

/// What came of a track's next stream.
#[derive(Clone, Copy, Debug, PartialEq, Eq)]
pub enum NextStream {
    /// It was read.
    Read,
    /// It is passed over.
    PassedOver(Passed),
}

/// Where the streams of a disk's tracks come from: how each of them is taken from an object
/// of the outside, or passed over.
///
/// The ghost members are what is known of the object from one moment to another.
pub trait TrackStreams<S> {
    /// From one moment to another these streams came, in the order of a plan, of a disk of this format, and none
    /// ended the disk. The stream room holds these bytes that were taken and not used, and whether a stream was read
    /// in it. How often the object failed in between is said here too.
    ghost came: { Self → Plan → Format → S → S → List ℕ → Bool → List Seen → Type 0 };

    /// From one moment to another these streams came, and the next one ended the disk with this fault.
    ghost ended: { Self → Plan → Format → S → S → List Seen → CaptureFault → Type 0 };

    /// Reads the next stream: a capture of a track of the format, both by their numbers from 0. It may be passed over,
    /// and after a fault there is no next one. No memory is taken.
    fn next_stream(
        &self,
        format: Format,
        number: u32,
        capture: u8,
        source: &mut S,
        stream: &mut StreamRoom,
    ) -> Result<NextStream, CaptureFault>
        requires track { number < length (tracks format) }
        ensures next { (plan : Plan) (start : S) (before : List Seen) → capture < plan.captures
            → length before ≡ number * plan.captures + capture
            → came self.now plan format start source.old stream.old.held stream.old.used before
            → GivesNext (came self.now plan format start source.new stream.new.held stream.new.used)
            (ended self.now plan format start source.new) before stream.new.flux result }
        ensures bounded { IfOk result (λ next. IsBoundedNext next stream.new.flux) };

    /// At first none came.
    ghost begins: { (streams : Self) (plan : Plan) (format : Format) (now : S)
        → came streams plan format now now [] false [] };
}

/// The streams follow one another in a source: the captures of the first track, and then those of the next one. None is
/// passed over.
#[derive(Clone, Copy, Debug)]
pub struct OneAfterAnother;

impl<S: Source> TrackStreams<S> for OneAfterAnother {
    ghost came = { λ streams plan format start now held used before.
        HaveComeCounted plan format (reads_at S.Source start) (reads_at S.Source now) (source_counts S.Source start)
        (source_counts S.Source now) held used before };

    ghost ended = { λ streams plan format start now before fault.
        HaveEndedCounted plan format (reads_at S.Source start) (reads_at S.Source now) (source_counts S.Source start)
        (source_counts S.Source now) before fault };

    fn next_stream(
        &self,
        format: Format,
        number: u32,
        capture: u8,
        source: &mut S,
        stream: &mut StreamRoom,
    ) -> Result<NextStream, CaptureFault> {
        match read_stream(source, stream) {
            Ok(()) => Ok(NextStream::Read),
            Err(fault) => Err(fault),
        }
    }

    ghost begins = { λ streams plan format now.
        (none_came plan format (reads_at S.Source now), Counts-none (source_counts S.Source now)) };
}
