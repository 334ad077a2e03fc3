//! One walk over the cells of a track, which notes each reading of one sector as it comes, as controllers read.

ghost use Rattle.std.specs.Prelude.{◌≡◌, ℕ, ◌<◌, ◌≤◌, ◌+◌, ◌*◌, List, drop, length};
ghost use Rattle.flux_engine.specs.Gathering.{AreCellsOf, header_readings};
ghost use Rattle.flux_engine.specs.Room.{MOST_CELLS, MOST_READINGS};
ghost use Rattle.flux_engine.specs.Rules.{AreReadByControllers};
ghost use Rattle.flux_engine.specs.Tracks.{Found, readings_in};
ghost use Rattle.frame_law.specs.Controller.{AreFound};
ghost use Rattle.sector_copies.specs.Notes.{of_sector};
ghost use Rattle.sector_copies.specs.inside.Notes.{AppendsNotes, IsSameSector, data_readings};
ghost use Rattle.turn_merge.specs.Book.{MOST_NOTES};

use crate::notes::SectorNotes;
use cell_bits::Cells;
use flux_base::TrackId;
use flux_engine::place_of;
use frame_law::{Recording, SectorBuffer, data_are_read, next_header};
use index_turns::TrackFlux;
use turn_merge::{Clock, Place};

/// Notes all readings of the sector in the cells that a clock recovered of a capture, as controllers read: a good one
/// for each of the data of its headers, and a bad one for a header that has none.
pub(crate) fn note_cells<R: Recording>(
    recording: &R,
    track: TrackId,
    flux: &TrackFlux,
    cells: &Cells,
    capture: u8,
    clock: Clock,
    notes: &mut SectorNotes,
)
    requires track { R.has_track recording.now track }
    requires cells { AreCellsOf flux.now.times cells.now.cells }
    requires indexes { length flux.now.indexes ≤ 262144 }
    requires size { notes.old.book.size ≡ R.sector_size recording.now }
    requires few { notes.old.book.notes + MOST_READINGS ≤ MOST_NOTES }
    ensures same { IsSameSector notes.old notes.new }
    ensures few { notes.new.book.notes ≤ notes.old.book.notes + MOST_READINGS }

    // Whatever list has all that can be read in the cells.
    ensures noted { (found : List Found)
        → AreReadByControllers (R.header_at recording.now track) (R.data_at recording.now) cells.now.cells found
        → AppendsNotes notes.old notes.new
        (of_sector notes.old.sector
        (readings_in capture clock flux.now.times flux.now.indexes cells.now.cells found)) }
{
    data_are_read::<R>();
    let mut buffer = SectorBuffer::new();
    let mut from = 0;
    let mut passed = 0;
    while let Some((cell, sector)) = next_header(recording, cells, from, track) {
        passed += cells.ones_between(from, cell + 1);
        let place = place_of(flux, passed, cell, capture, clock);
        note_if_asked(recording, cells, cell, sector, place, &mut buffer, notes);
        from = cell + 1;
    }
}

/// Notes what is read of a header where it is one of the sector.
fn note_if_asked<R: Recording>(
    recording: &R,
    cells: &Cells,
    cell: usize,
    sector: u8,
    place: Place,
    buffer: &mut SectorBuffer,
    notes: &mut SectorNotes,
)
    requires size { notes.old.book.size ≡ R.sector_size recording.now }
    requires some { cell < length cells.now.cells }
    requires few { notes.old.book.notes + length cells.now.cells ≤ MOST_NOTES }
    ensures same { IsSameSector notes.old notes.new }
    ensures few { notes.new.book.notes ≤ notes.old.book.notes + length cells.now.cells }
    ensures noted { (found : List (ℕ × List ℕ)) → AreFound (R.data_at recording.now (drop cell cells.now.cells)) 0 found
        → AppendsNotes notes.old notes.new (of_sector notes.old.sector (header_readings sector place found)) }
{
    if sector == notes.sector() {
        note_header(recording, cells, cell, place, buffer, notes);
    }
}

/// Notes what is read of a header of the sector: all its data, or that it has none.
fn note_header<R: Recording>(
    recording: &R,
    cells: &Cells,
    cell: usize,
    place: Place,
    buffer: &mut SectorBuffer,
    notes: &mut SectorNotes,
)
    requires size { notes.old.book.size ≡ R.sector_size recording.now }
    requires some { cell < length cells.now.cells }
    requires few { notes.old.book.notes + length cells.now.cells ≤ MOST_NOTES }
    ensures same { IsSameSector notes.old notes.new }
    ensures few { notes.new.book.notes ≤ notes.old.book.notes + length cells.now.cells }
    ensures noted { (found : List (ℕ × List ℕ)) → AreFound (R.data_at recording.now (drop cell cells.now.cells)) 0 found
        → AppendsNotes notes.old notes.new (header_readings notes.old.sector place found) }
{
    let Some(first) = recording.next_data(cells, cell, 0, buffer) else {
        notes.note_bad(place);
        return;
    };
    notes.note_good(place, buffer.as_slice());
    note_data(recording, cells, cell, place, first + 1, buffer, notes);
}

/// Notes all data of a header of the sector that stand at a place from this one on, each as a good reading.
fn note_data<R: Recording>(
    recording: &R,
    cells: &Cells,
    cell: usize,
    place: Place,
    from: usize,
    buffer: &mut SectorBuffer,
    notes: &mut SectorNotes,
)
    requires size { notes.old.book.size ≡ R.sector_size recording.now }
    requires within { from ≤ length cells.now.cells }
    requires short { length cells.now.cells ≤ MOST_NOTES }
    requires few { notes.old.book.notes + length cells.now.cells ≤ MOST_NOTES + from }
    ensures same { IsSameSector notes.old notes.new }
    ensures few { notes.new.book.notes + from ≤ notes.old.book.notes + length cells.now.cells }
    ensures noted { (found : List (ℕ × List ℕ))
        → AreFound (R.data_at recording.now (drop cell cells.now.cells)) from found
        → AppendsNotes notes.old notes.new (data_readings notes.old.sector place found) }
{
    let mut start = from;
    while let Some(begin) = recording.next_data(cells, cell, start, buffer) {
        notes.note_good(place, buffer.as_slice());
        start = begin + 1;
    }
}
