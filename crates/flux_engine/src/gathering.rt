//! One walk over the cells of a track, which notes each reading as it comes.

ghost use Rattle.std.specs.Prelude.{◌≡◌, ℕ, ◌<◌, ◌≤◌, ◌+◌, ◌-◌, ◌++◌, Bool, List, drop, length, slice_index};
ghost use Rattle.frame_law.specs.Readings.{AreReadings};
ghost use Rattle.index_turns.specs.Track.{turn_at};
ghost use Rattle.turn_merge.specs.Book.{IsKnown, MOST_NOTES, StandsFor, SameShape};
ghost use Rattle.turn_merge.specs.Readings.{NotedReading};
ghost use Rattle.flux_engine.specs.Gathering.{AreCellsOf, IsBookFor, CanBeNoted, Gathers, GathersOthers, IsFoundIn};
ghost use Rattle.flux_engine.specs.Gathering.{NotesData, NotesFound, NotesHeader};
ghost use Rattle.flux_engine.specs.Room.{MOST_CELLS, MOST_READINGS};
ghost use Rattle.flux_engine.specs.Rules.{AreReadByControllers};
ghost use Rattle.flux_engine.specs.Tracks.{readings_at};

use crate::gathered_track::Gathered;
use cell_bits::Cells;
use flux_base::TrackId;
use frame_law::{
    FoundHeader, Reading, Recording, SectorBuffer, data_are_read, next_found, next_reading,
};
use index_turns::TrackFlux;
use turn_merge::{Book, Clock, Place};

/// Notes all readings of a track of the recording in a book, after those that it has, as those of a capture whose cells
/// a clock recovered. Each cell is looked at once, and its ones are counted once.
pub(crate) fn gather<R: Recording>(
    recording: &R,
    track: TrackId,
    flux: &TrackFlux,
    cells: &Cells,
    capture: u8,
    clock: Clock,
    book: &mut Book,
)
    requires track { R.has_track recording.now track }
    requires cells { AreCellsOf flux.now.times cells.now.cells }
    requires indexes { length flux.now.indexes ≤ 262144 }
    requires book { IsBookFor
        (record { first = R.first_sector recording.now; count = R.sectors recording.now track; size = R.sector_size recording.now })
        book.old }
    requires few { book.old.notes + MOST_READINGS ≤ MOST_NOTES }
    ensures { Gathers
        (AreReadings (R.header_at recording.now track) (R.sector_at recording.now track) cells.now.cells 0)
        flux.now.times flux.now.indexes cells.now.cells capture clock book.old book.new }
{
    let mut buffer = SectorBuffer::new();
    let mut from = 0;
    let mut passed = 0;
    while let Some((cell, reading)) = next_reading(recording, cells, from, track, &mut buffer) {
        passed += cells.ones_between(from, cell + 1);
        note_reading(
            book,
            reading,
            place_of(flux, passed, cell, capture, clock),
            buffer.as_slice(),
        );
        from = cell + 1;
    }
}

/// The same by the second rule, as controllers read: a good reading for each of the data of a header of the track's
/// sectors, and a bad one where it has none. Each other header is noted too.
pub(crate) fn gather_as_controller<R: Recording>(
    recording: &R,
    track: TrackId,
    flux: &TrackFlux,
    cells: &Cells,
    capture: u8,
    clock: Clock,
    gathered: &mut Gathered,
)
    requires track { R.has_track recording.now track }
    requires cells { AreCellsOf flux.now.times cells.now.cells }
    requires indexes { length flux.now.indexes ≤ 262144 }
    requires book { IsBookFor
        (record { first = R.first_sector recording.now; count = R.sectors recording.now track; size = R.sector_size recording.now })
        gathered.old.book }
    requires few { gathered.old.book.notes + MOST_READINGS ≤ MOST_NOTES }
    requires few_others { gathered.old.others.notes + MOST_READINGS ≤ MOST_NOTES }
    ensures readings { Gathers
        (AreReadByControllers (R.header_at recording.now track) (R.data_at recording.now) cells.now.cells)
        flux.now.times flux.now.indexes cells.now.cells capture clock gathered.old.book gathered.new.book }
    ensures others { GathersOthers (R.named_at recording.now) (R.header_at recording.now track)
        (R.whole_data_of recording.now) flux.now.times flux.now.indexes cells.now.cells capture clock
        gathered.old.others gathered.new.others }
    ensures kept { gathered.new.passed ≡ gathered.old.passed }
{
    data_are_read::<R>();
    let mut buffer = SectorBuffer::new();
    let mut from = 0;
    let mut passed = 0;
    while let Some((cell, found)) = next_found(recording, cells, from, track) {
        passed += cells.ones_between(from, cell + 1);
        let place = place_of(flux, passed, cell, capture, clock);
        note_found(
            recording,
            cells,
            FoundAt { cell, found, place },
            &mut buffer,
            gathered,
        );
        from = cell + 1;
    }
}

/// What is found at a cell, and the cell's place.
#[derive(Clone, Copy, Debug)]
struct FoundAt {
    cell: usize,
    found: FoundHeader,
    place: Place,
}

/// Notes a header that is found: what is read of one of the track's sectors, or an other with
/// whether whole data stand after it.
fn note_found<R: Recording>(
    recording: &R,
    cells: &Cells,
    at: FoundAt,
    buffer: &mut SectorBuffer,
    gathered: &mut Gathered,
)
    requires known { IsFoundIn gathered.old.book at.found }
    requires size { gathered.old.book.size ≡ R.sector_size recording.now }
    requires some { at.cell < length cells.now.cells }
    requires few { gathered.old.book.notes + length cells.now.cells ≤ MOST_NOTES }
    requires few_others { gathered.old.others.notes < MOST_NOTES }
    ensures noted { NotesFound (R.data_at recording.now (drop at.cell cells.now.cells))
        (R.whole_data_of recording.now (drop at.cell cells.now.cells)) at.found at.place (length cells.now.cells)
        gathered.old.book gathered.new.book gathered.old.others gathered.new.others }
    ensures kept { gathered.new.passed ≡ gathered.old.passed }
{
    match at.found {
        FoundHeader::Sector(sector) => {
            let header = HeaderFound {
                cell: at.cell,
                sector,
                place: at.place,
            };
            note_header(recording, cells, header, buffer, &mut gathered.book);
        }
        FoundHeader::Other(name) => {
            let whole = recording.has_data(cells, at.cell, name);
            gathered.others.note(name, whole, at.place);
        }
    }
}

/// A header of one of the track's sectors.
#[derive(Clone, Copy, Debug)]
struct HeaderFound {
    /// The place in the cells at which it begins.
    cell: usize,
    sector: u8,
    /// The same place as it is noted.
    place: Place,
}

/// Notes what is read of a header by the second rule: all its data, or that it has none.
fn note_header<R: Recording>(
    recording: &R,
    cells: &Cells,
    header: HeaderFound,
    buffer: &mut SectorBuffer,
    book: &mut Book,
)
    requires known { IsKnown book.old header.sector }
    requires size { book.old.size ≡ R.sector_size recording.now }
    requires some { header.cell < length cells.now.cells }
    requires few { book.old.notes + length cells.now.cells ≤ MOST_NOTES }
    ensures { NotesHeader (R.data_at recording.now (drop header.cell cells.now.cells)) header.sector header.place
        (length cells.now.cells) book.old book.new }
{
    let Some(first) = recording.next_data(cells, header.cell, 0, buffer) else {
        book.note_bad(header.sector, header.place);
        return;
    };
    book.note_good(header.sector, header.place, buffer.as_slice());
    note_data(recording, cells, header, first + 1, buffer, book);
}

/// Notes all data of a header that stand at a place from this one on, each as a good reading of its sector.
fn note_data<R: Recording>(
    recording: &R,
    cells: &Cells,
    header: HeaderFound,
    from: usize,
    buffer: &mut SectorBuffer,
    book: &mut Book,
)
    requires known { IsKnown book.old header.sector }
    requires size { book.old.size ≡ R.sector_size recording.now }
    requires within { from ≤ length cells.now.cells }
    requires short { length cells.now.cells ≤ MOST_NOTES }
    requires few { book.old.notes + length cells.now.cells ≤ MOST_NOTES + from }
    ensures { NotesData (R.data_at recording.now (drop header.cell cells.now.cells)) from header.sector header.place
        (length cells.now.cells) book.old book.new }
{
    let mut start = from;
    while let Some(place) = recording.next_data(cells, header.cell, start, buffer) {
        book.note_good(header.sector, header.place, buffer.as_slice());
        start = place + 1;
    }
}

/// The place of a cell that the clock recovered of the capture. So many ones stand at the places up to it: the last of
/// them is the transition whose time says in which turn the cell lies.
pub fn place_of(flux: &TrackFlux, ones_to: usize, cell: usize, capture: u8, clock: Clock) -> Place
    requires some { 1 ≤ ones_to }
    requires within { ones_to ≤ length flux.now.times }
    requires indexes { length flux.now.indexes ≤ 262144 }
    requires cell { cell < MOST_CELLS }
    ensures { result
        ≡ record { capture = capture; clock = clock; turn = turn_at flux.now.indexes (slice_index flux.now.times (ones_to - 1)); cell = cell } }
{
    let time = flux.times()[ones_to - 1];
    Place {
        capture,
        clock,
        turn: flux.turn_of(time),
        cell: cell as u64,
    }
}

/// Notes what is read at a place of a track: a good sector with its bytes, or a bad one.
pub fn note_reading(book: &mut Book, reading: Reading, place: Place, bytes: &[u8])
    requires fits { CanBeNoted book.old reading bytes.now }
    requires few { book.old.notes < MOST_NOTES }
    ensures shape { SameShape book.old book.new }
    ensures count { book.new.notes ≤ book.old.notes + 1 }
    ensures noted { (readings : List NotedReading) → StandsFor book.old readings
        → StandsFor book.new (readings ++ readings_at place reading bytes.now) }
{
    match reading {
        Reading::Good { sector } => book.note_good(sector, place, bytes),
        Reading::Bad { sector } => book.note_bad(sector, place),
        Reading::Nothing => {}
    }
}
