//! What the streams of a track are worked on with, and what is noted of them.

ghost use Rattle.std.specs.Prelude.{◌≡◌, ◌≤◌, ◌<◌, ◌+◌, ◌*◌, ◌++◌, length};
ghost use Rattle.cell_bits.specs.State.{room};
ghost use Rattle.flux_engine.specs.Captured.{AreReadingsBy, AreReadingsOf};
ghost use Rattle.flux_engine.specs.LoopProgress.{IsBoundedNext, seen_next};
ghost use Rattle.flux_engine.specs.Plans.{passed_one};
ghost use Rattle.flux_engine.specs.Reading.{IsBounded};
ghost use Rattle.flux_engine.specs.Room.{MOST_CELLS, MOST_READINGS};
ghost use Rattle.flux_engine.specs.declared.plan.Clocks.TheVariants.{Both};
ghost use Rattle.flux_engine.specs.declared.plan.Rule.TheVariants.{Controller};
ghost use Rattle.sector_copies.specs.inside.Notes.{IsSameSector, NotesOf};
ghost use Rattle.sector_images.specs.Formats.{row};
ghost use Rattle.sector_images.specs.Places.{IsTrack};
ghost use Rattle.turn_merge.specs.Book.{MOST_NOTES};

use crate::notes::SectorNotes;
use crate::walk::note_cells;
use cell_bits::Cells;
use disk_recordings::{DiskId, controller_format, recording_of, tracks_have_only_own};
use flux_base::TrackId;
use flux_engine::{NextStream, PassedStream, PassedStreams, recover_cells};
use index_turns::TrackFlux;
use phase_loop::Loop;
use sector_images::Format;
use turn_merge::Clock;

/// What the streams of a track are worked on with, what is noted of one sector, and which of
/// the streams were passed over.
#[derive(Drop)]
pub(crate) struct SectorTools {
    pub clock: Loop,
    pub cells: Cells,
    pub notes: SectorNotes,
    pub passed: PassedStreams,
}

/// Notes all readings of the sector in a stream that was read, or that it was passed over.
pub(crate) fn note_next(
    next: NextStream,
    format: Format,
    track: TrackId,
    capture: u8,
    flux: &TrackFlux,
    tools: &mut SectorTools,
)
    requires track { IsTrack format track }
    requires bounded { IsBoundedNext next flux.now }
    requires cells { MOST_CELLS ≤ room tools.old.cells }
    requires size { tools.old.notes.book.size ≡ (row format).sector_size }
    requires few { tools.old.notes.book.notes + 2 * MOST_READINGS ≤ MOST_NOTES }
    requires room { length tools.old.passed.items < 16 }
    ensures noted { NotesOf
        (AreReadingsOf Controller Both format track (seen_next next flux.now).times (seen_next next flux.now).indexes
        capture) tools.old.notes tools.new.notes }
    ensures passed { tools.new.passed.items
        ≡ tools.old.passed.items ++ passed_one capture (seen_next next flux.now).passed }
    ensures same { IsSameSector tools.old.notes tools.new.notes }
    ensures few { tools.new.notes.book.notes ≤ tools.old.notes.book.notes + 2 * MOST_READINGS }
    ensures cells { MOST_CELLS ≤ room tools.new.cells }
{
    // In no cells nothing stands.
    tracks_have_only_own();
    match next {
        NextStream::Read => note_stream(format, track, capture, flux, tools),
        NextStream::PassedOver(why) => tools.passed.push(PassedStream { capture, why }),
    }
}

/// Notes all readings of the sector in a stream, by both clocks.
fn note_stream(
    format: Format,
    track: TrackId,
    capture: u8,
    flux: &TrackFlux,
    tools: &mut SectorTools,
)
    requires track { IsTrack format track }
    requires bounded { IsBounded flux.now }
    requires cells { MOST_CELLS ≤ room tools.old.cells }
    requires size { tools.old.notes.book.size ≡ (row format).sector_size }
    requires few { tools.old.notes.book.notes + 2 * MOST_READINGS ≤ MOST_NOTES }
    ensures noted { NotesOf (AreReadingsOf Controller Both format track flux.now.times flux.now.indexes capture)
        tools.old.notes tools.new.notes }
    ensures kept { tools.new.passed ≡ tools.old.passed }
    ensures same { IsSameSector tools.old.notes tools.new.notes }
    ensures few { tools.new.notes.book.notes ≤ tools.old.notes.book.notes + 2 * MOST_READINGS }
    ensures cells { MOST_CELLS ≤ room tools.new.cells }
{
    note_by_clock(Clock::Following, format, track, capture, flux, tools);
    note_by_clock(Clock::Held, format, track, capture, flux, tools);
}

/// Recovers the cells of a stream by a clock and notes all readings of the sector, as controllers read.
fn note_by_clock(
    clock: Clock,
    format: Format,
    track: TrackId,
    capture: u8,
    flux: &TrackFlux,
    tools: &mut SectorTools,
)
    requires track { IsTrack format track }
    requires bounded { IsBounded flux.now }
    requires cells { MOST_CELLS ≤ room tools.old.cells }
    requires size { tools.old.notes.book.size ≡ (row format).sector_size }
    requires few { tools.old.notes.book.notes + MOST_READINGS ≤ MOST_NOTES }
    ensures noted { NotesOf (AreReadingsBy Controller clock format track flux.now.times flux.now.indexes capture)
        tools.old.notes tools.new.notes }
    ensures kept { tools.new.passed ≡ tools.old.passed }
    ensures same { IsSameSector tools.old.notes tools.new.notes }
    ensures few { tools.new.notes.book.notes ≤ tools.old.notes.book.notes + MOST_READINGS }
    ensures cells { MOST_CELLS ≤ room tools.new.cells }
{
    recover_cells(
        clock,
        format,
        track,
        flux,
        &mut tools.clock,
        &mut tools.cells,
    );
    let recording = recording_of(controller_format(format), DiskId::ANY);
    note_cells(
        &recording,
        track,
        flux,
        &tools.cells,
        capture,
        clock,
        &mut tools.notes,
    );
}
