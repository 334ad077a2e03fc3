//! One stream that is read as a track of many disks.

ghost use Rattle.std.specs.Prelude.{◌≡◌, ◌≤◌, ◌<◌, ◌+◌};
ghost use Rattle.sector_images.specs.Places.{IsTrack};
ghost use Rattle.sector_report.specs.declared.dump_lines.Passed.{Passed as OfPassed};
ghost use Rattle.turn_merge.specs.Book.{MOST_NOTES};
ghost use Rattle.turn_merge.specs.declared.clock.Clock.TheVariants.{Following};
ghost use Rattle.flux_engine.specs.Gathering.{HasNotedBy};
ghost use Rattle.flux_engine.specs.LoopProgress.{IsBoundedNext, seen_next};
ghost use Rattle.flux_engine.specs.Names.{HasNamesOf};
ghost use Rattle.flux_engine.specs.Recordings.{sectors_of as sectors_in};
ghost use Rattle.flux_engine.specs.Room.{IsBookOf, MOST_READINGS};
ghost use Rattle.flux_engine.specs.SharedCells.{AreKept};
ghost use Rattle.flux_engine.specs.Writing.{Knows};
ghost use Rattle.flux_engine.specs.declared.plan.Clocks.TheVariants.{FollowingAlone};
ghost use Rattle.flux_engine.specs.declared.plan.Rule.TheVariants.{Controller};

use crate::capture::note_in_cells;
use crate::cell_reader::CellReader;
use crate::gathered_track::Gathered;
use crate::names::{NamedStreams, names_in_cells};
use crate::plan::Rule;
use crate::shared_cells::SharedCells;
use crate::track_streams::NextStream;
use crate::track_tally::{TrackTally, count_verdicts, tally_of};
use crate::writing::no_totals;
use disk_recordings::{headers_have_names, sectors_of, tracks_have_only_own};
use flux_base::{Memory, TrackId};
use index_turns::TrackFlux;
use kryo_stream::StreamRoom;
use sector_images::{Format, tracks_keep_bounds};
use sector_report::Passed;
use std::alloc::Global;
use std::marker::Model;
use turn_merge::{Clock, Others};

/// A stream that is read as a track of many disks, by the clock that follows the drive and as controllers read: its
/// transitions are taken once, and its cells are recovered once for all disks whose clocks start alike. Of a stream of
/// more than 500000 transitions only those of the last start are kept.
///
/// It takes 104 MiB. Contracts see what the stream says.
#[derive(Drop)]
pub struct SharedStream {
    stream: StreamRoom,
    next: NextStream,
    recovered: SharedCells,
}

impl Model for SharedStream {
    ghost use Rattle.flux_engine.specs.LoopProgress.{IsBoundedNext, seen_next};
    ghost use Rattle.flux_engine.specs.Plans.{Seen};
    ghost use Rattle.flux_engine.specs.SharedCells.{AreKept};

    ghost Value = { Seen };

    ghost view = { λ a. seen_next a.next a.stream.flux };

    ghost invariant = { λ a. IsBoundedNext a.next a.stream.flux
        × AreKept a.recovered.used a.recovered.slots.items a.stream.flux.times };
}

impl SharedStream {
    ghost use Rattle.std.specs.Prelude.{None, Some, IfNone, IfSome};
    ghost use Rattle.flux_engine.specs.Recordings.{cells_of};
    ghost use Rattle.flux_engine.specs.Tallies.{IsFewTally, IsNameTallyOf, IsTallyOf};

    /// Takes all memory that reading any stream needs. At first there is none.
    pub fn reserve(alloc: Global) -> Result<SharedStream, Memory> {
        let stream = StreamRoom::reserve(alloc)?;
        let recovered = SharedCells::reserve(alloc)?;
        Ok(SharedStream {
            stream,
            next: NextStream::PassedOver(Passed::Absent),
            recovered,
        })
    }

    /// Reads a capture of a track in place of the last stream, or passes it over. The cylinder is below 128.
    pub fn take<T: NamedStreams<S>, S>(
        &mut self,
        streams: &T,
        track: TrackId,
        capture: u8,
        source: &mut S,
    )
        requires { track.cylinder < 128 }
        ensures gave { T.gave streams.now source.old source.new track capture self.new }
        ensures whole { self.new.fault ≡ None }
    {
        self.recovered.forget();
        self.next = streams.stream_of(track, capture, source, &mut self.stream);
    }

    /// Why it is passed over, if it is.
    pub fn passed(&self) -> Option<Passed>
        ensures { result ≡ self.now.passed }
    {
        match self.next {
            NextStream::Read => None,
            NextStream::PassedOver(why) => Some(why),
        }
    }

    /// What is read in the cells that are recovered of it as of this track of a format. None where it is passed over.
    pub fn read_cells<C: CellReader<R>, R>(
        &mut self,
        format: Format,
        track: TrackId,
        reader: &C,
    ) -> Option<R>
        requires track { IsTrack format track }
        ensures read { IfSome result (λ r. (self.old.passed ≡ None)
            × C.reads reader.now self.old.times self.old.indexes
            (cells_of format track self.old.times self.old.indexes) r) }
        ensures passed { IfNone result ((why : OfPassed) × (self.old.passed ≡ Some why)) }
        ensures stream { self.new ≡ self.old }
    {
        match self.next {
            NextStream::Read => {
                let slot = self.recovered.recover(format, track, self.stream.flux());
                Some(reader.read(self.stream.flux(), self.recovered.cells(slot)))
            }
            NextStream::PassedOver(_) => None,
        }
    }

    /// What it comes to as this track of a format. What was gathered before is forgotten.
    pub fn tally_track(
        &mut self,
        format: Format,
        track: TrackId,
        gathered: &mut Gathered,
    ) -> TrackTally
        requires track { IsTrack format track }
        requires book { IsBookOf format gathered.old.book }
        ensures tally { IsTallyOf format track self.old result }
        ensures few { IsFewTally result }
        ensures stream { self.new ≡ self.old }
        ensures book { IsBookOf format gathered.new.book }
    {
        tracks_keep_bounds();
        let sectors = sectors_of(format, track);
        gathered.book.clear(sectors.count);
        gathered.others.clear();
        note_shared(
            self.next,
            format,
            track,
            self.stream.flux(),
            &mut self.recovered,
            gathered,
        );
        tally_of(count_verdicts(sectors, &gathered.book), &gathered.others)
    }

    /// What it comes to as a track that is none of the format's, which is read with the cells of this one. No sector
    /// is wanted, and all headers are others. What was gathered before is forgotten.
    pub fn tally_names(
        &mut self,
        format: Format,
        near: TrackId,
        gathered: &mut Gathered,
    ) -> TrackTally
        requires track { IsTrack format near }
        ensures tally { IsNameTallyOf format near self.old result }
        ensures few { IsFewTally result }
        ensures stream { self.new ≡ self.old }
        ensures book { gathered.new.book ≡ gathered.old.book }
    {
        gathered.others.clear();
        names_shared(
            self.next,
            format,
            near,
            self.stream.flux(),
            &mut self.recovered,
            &mut gathered.others,
        );
        tally_of(no_totals(), &gathered.others)
    }
}

/// Notes all readings of a stream that was read.
fn note_shared(
    next: NextStream,
    format: Format,
    track: TrackId,
    flux: &TrackFlux,
    shared: &mut SharedCells,
    gathered: &mut Gathered,
)
    requires track { IsTrack format track }
    requires bounded { IsBoundedNext next flux.now }
    requires kept { AreKept shared.old.used shared.old.slots.items flux.now.times }
    requires book { IsBookOf format gathered.old.book }
    requires knows { Knows (sectors_in format track) gathered.old.book }
    requires few { gathered.old.book.notes + MOST_READINGS ≤ MOST_NOTES }
    requires few_others { gathered.old.others.notes + MOST_READINGS ≤ MOST_NOTES }
    ensures noted { HasNotedBy Controller FollowingAlone format track (seen_next next flux.now).times
        (seen_next next flux.now).indexes 0 gathered.old.book gathered.new.book gathered.old.others
        gathered.new.others }
    ensures kept { AreKept shared.new.used shared.new.slots.items flux.now.times }
    ensures book { IsBookOf format gathered.new.book }
{
    // In no cells nothing stands.
    tracks_have_only_own();
    headers_have_names();
    match next {
        NextStream::Read => {
            let slot = shared.recover(format, track, flux);
            note_in_cells(
                Rule::Controller,
                Clock::Following,
                format,
                track,
                0,
                flux,
                shared.cells(slot),
                gathered,
            );
        }
        NextStream::PassedOver(_) => {}
    }
}

/// Notes all headers of a stream that was read.
fn names_shared(
    next: NextStream,
    format: Format,
    near: TrackId,
    flux: &TrackFlux,
    shared: &mut SharedCells,
    others: &mut Others,
)
    requires track { IsTrack format near }
    requires bounded { IsBoundedNext next flux.now }
    requires kept { AreKept shared.old.used shared.old.slots.items flux.now.times }
    requires few_others { others.old.notes + MOST_READINGS ≤ MOST_NOTES }
    ensures noted { HasNamesOf FollowingAlone format near (seen_next next flux.now).times
        (seen_next next flux.now).indexes 0 others.old others.new }
    ensures kept { AreKept shared.new.used shared.new.slots.items flux.now.times }
{
    // In no cells nothing stands.
    headers_have_names();
    match next {
        NextStream::Read => {
            let slot = shared.recover(format, near, flux);
            names_in_cells(
                Clock::Following,
                format,
                near,
                0,
                flux,
                shared.cells(slot),
                others,
            );
        }
        NextStream::PassedOver(_) => {}
    }
}
