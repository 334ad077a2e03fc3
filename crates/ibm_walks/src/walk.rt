//! The walk over all headers of a stream.

ghost use Rattle.std.specs.Prelude.{◌≡◌, ◌+◌, ◌<◌, ◌≤◌, ◌≢◌, ◌∷◌, ℕ, List, drop, length, take, IfNone, IfSome};
ghost use Rattle.cell_bits.specs.Ones.{ones};
ghost use Rattle.flux_engine.specs.Gathering.{AreCellsOf};
ghost use Rattle.flux_engine.specs.Reading.{IsBounded};
ghost use Rattle.flux_engine.specs.Room.{MOST_CELLS};
ghost use Rattle.ibm_disks.specs.GapPlans.{density_of};
ghost use Rattle.ibm_walks.specs.Headers.{HoldAt, HoldBy, IsNamed, address_of, since_index as since_of};
ghost use Rattle.ibm_walks.specs.Headers.{size_of_code as size_of};
ghost use Rattle.ibm_walks.specs.Walks.{AreNamesBy, AreNamesIn, HaveNoted};
ghost use Rattle.ibm_walks.specs.inside.Walked.{HasNotedOne, HaveNotedHeld};
ghost use Rattle.name_book.specs.Book.{AppendsData};
ghost use Rattle.name_book.specs.declared.name.SectorName.{SectorName as OfSector};

use crate::data::{has_sync, mark_at, size_of_code};
use crate::rates::{recording_with_one, recover_at};
use crate::room::WalkRoom;
use cell_bits::Cells;
use disk_recordings::headers_have_names;
use flux_base::HeaderName;
use flux_engine::next_name;
use frame_law::{CellsFrom, Recording, SectorBuffer};
use ibm_disks::{Density, Rate, SectorSize};
use index_turns::TrackFlux;
use name_book::{NameBook, NamedHeader, SectorName};
use turn_merge::Clock;

/// The mark's byte, and those of the largest sector that is kept.
const MOST_HELD: usize = 1025;

/// Recovers the cells of a dump's stream by a rate and a clock, and notes all headers in them by their names, each with
/// all whole data behind it. No answer is for want of memory.
pub fn note_names(
    clock: Clock,
    rate: Rate,
    dump: u8,
    flux: &TrackFlux,
    room: &mut WalkRoom,
    book: &mut NameBook,
)
    requires { IsBounded flux.now }
    ensures { HaveNoted (AreNamesBy clock rate dump flux.now.times flux.now.indexes) book.old book.new }
{
    recover_at(clock, rate, flux, &mut room.clock, &mut room.cells);
    note_in_cells(rate, dump, flux, &room.cells, book);
}

/// Notes all headers that stand in cells.
fn note_in_cells(rate: Rate, dump: u8, flux: &TrackFlux, cells: &Cells, book: &mut NameBook)
    requires bounded { IsBounded flux.now }
    requires cells { AreCellsOf flux.now.times cells.now.cells }
    ensures { HaveNoted (AreNamesIn rate dump flux.now.times flux.now.indexes cells.now.cells) book.old book.new }
{
    headers_have_names();
    let recording = recording_with_one(rate, SectorSize::Bytes128);
    let mut from = 0;
    let mut passed = 0;
    while let Some((place, name)) = next_name(&recording, cells, from) {
        passed += cells.ones_between(from, place + 1);
        if let Some(name) = sector_name(name) {
            note_found(rate, dump, flux, cells, place, passed, name, book);
        }
        from = place + 1;
    }
}

/// Notes the header of a name that stands at a place, with all whole data behind it. So many ones stand up to the
/// place: the last of them is the transition whose time is the header's.
fn note_found(
    rate: Rate,
    dump: u8,
    flux: &TrackFlux,
    cells: &Cells,
    place: usize,
    ones_to: usize,
    name: SectorName,
    book: &mut NameBook,
)
    requires bounded { IsBounded flux.now }
    requires cells { AreCellsOf flux.now.times cells.now.cells }
    requires place { place < length cells.now.cells }
    requires ones { ones_to ≡ ones (take (place + 1) cells.now.cells) }
    requires named { IsNamed rate (drop place cells.now.cells) (address_of name) }
    ensures { HasNotedOne rate dump flux.now.times flux.now.indexes cells.now.cells place book.old book.new }
{
    let time = flux.times()[ones_to - 1];
    book.note_header(NamedHeader {
        name,
        dump,
        time,
        since: since_index(flux, time),
        opens: has_sync(rate, cells, place),
    });
    note_data(rate, cells, place, name, book);
}

/// Notes all whole data of a header of a name that stands at a place.
fn note_data(rate: Rate, cells: &Cells, place: usize, name: SectorName, book: &mut NameBook)
    requires place { place < length cells.now.cells }
    requires few { length cells.now.cells ≤ MOST_CELLS }
    ensures { HaveNotedHeld (HoldBy rate (size_of name.code) (drop place cells.now.cells)) name book.old book.new }
{
    if let Some(size) = size_of_code(name.code) {
        let recording = recording_with_one(rate, size);
        note_held(&recording, rate.density(), cells, place, name, book);
    }
}

/// Notes all whole data of the recording's size behind the header at a place, each with its mark.
fn note_held<R: Recording>(
    recording: &R,
    density: Density,
    cells: &Cells,
    place: usize,
    name: SectorName,
    book: &mut NameBook,
)
    requires place { place < length cells.now.cells }
    requires few { length cells.now.cells ≤ MOST_CELLS }
    requires small { R.sector_size recording.now ≤ 1024 }

    // Data have a whole mark.
    requires marks { (behind : ℕ) (bytes : List ℕ) → R.data_at recording.now (drop place cells.now.cells) behind bytes
        → behind + 64 ≤ length (drop place cells.now.cells) }
    ensures { HaveNotedHeld
        (HoldAt (R.data_at recording.now (drop place cells.now.cells)) density (drop place cells.now.cells))
        name book.old book.new }
{
    let frame = CellsFrom::new(cells, place);
    let mut buffer = SectorBuffer::new();
    let mut from = 0;
    while let Some(behind) = recording.next_data(cells, place, from, &mut buffer) {
        note_one(
            mark_at(density, &frame, behind),
            buffer.as_slice(),
            name,
            book,
        );
        from = behind + 1;
    }
}

/// Notes data by the byte of their mark and their own.
fn note_one(mark: u8, bytes: &[u8], name: SectorName, book: &mut NameBook)
    requires { length bytes.now ≤ 1024 }
    ensures { AppendsData book.old book.new (record { name = name; held = mark ∷ bytes.now }) }
{
    let mut held = [0u8; MOST_HELD];
    let end = 1 + bytes.len();
    held[0] = mark;
    held[1..end].copy_from_slice(bytes);
    book.note_data(name, &held[..end]);
}

/// How many ticks the last index moment lies back at a time, if one is at or before it.
fn since_index(flux: &TrackFlux, time: u64) -> Option<u64>
    requires { length flux.now.indexes ≤ 262144 }
    ensures { result ≡ since_of flux.now.indexes time }
{
    let turn = flux.turn_of(time);
    if turn == 0 {
        return None;
    }
    Some(time.saturating_sub(flux.indexes()[(turn - 1) as usize]))
}

/// The sector that IBM's header names.
fn sector_name(name: HeaderName) -> Option<SectorName>
    ensures some { IfSome result (λ sector. name ≡ address_of sector) }
    ensures none { IfNone result ((sector : OfSector) → name ≢ address_of sector) }
{
    match name {
        HeaderName::Address {
            cylinder,
            head,
            sector,
            size_code,
        } => Some(SectorName {
            cylinder,
            head,
            number: sector,
            code: size_code,
        }),
        _ => None,
    }
}
