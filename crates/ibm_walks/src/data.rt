//! The data behind a header, with their mark.

ghost use Rattle.std.specs.Prelude.{◌≡◌, ◌+◌, ◌^◌, ◌<◌, ◌≤◌, ◌↔◌, IsTrue, drop, length, IfNone, IfSome};
ghost use Rattle.flux_engine.specs.Room.{MOST_CELLS};
ghost use Rattle.frame_law.specs.Frames.{IsFirstSync, NoSync};
ghost use Rattle.ibm_walks.specs.Headers.{DataSyncAt, HasSync, header_cells as header_cells_of};
ghost use Rattle.ibm_walks.specs.inside.Walked.{HasNameFrom};
ghost use Rattle.ibm_walks.specs.Headers.{mark_at as mark_of, size_of_code as size_of};

use crate::rates::recording_with_one;
use cell_bits::Cells;
use flux_engine::next_name;
use frame_law::{CellsFrom, Layout};
use ibm_disks::{Density, Rate, SectorSize};
use ibm_fm::IbmFm;
use ibm_mfm::IbmMfm;

/// Data begin less than so many cells behind their header.
const DATA_REACH: usize = 1024;

/// Where the first byte behind the three marks of double density stands.
const FIRST_BYTE_PLACE: usize = 48;

/// Whether a data sync stands behind the header at a place, within reach of it and before the next header.
pub(crate) fn has_sync(rate: Rate, cells: &Cells, place: usize) -> bool
    requires place { place < length cells.now.cells }
    requires few { length cells.now.cells ≤ MOST_CELLS }
    ensures { IsTrue result ↔ HasSync rate (drop place cells.now.cells) }
{
    let frame = CellsFrom::new(cells, place);
    let end = header_cells(rate.density());
    match next_sync(rate.density(), &frame, end, end + DATA_REACH) {
        Some(sync) => !has_name(rate, cells, place + end, place + sync + 1),
        None => false,
    }
}

/// The cells of a header.
fn header_cells(density: Density) -> usize
    ensures { result ≡ header_cells_of density }
{
    match density {
        Density::Single => 112,
        Density::Double => 160,
    }
}

/// The first sync with which data may begin, at a place from `from` to below `to`.
fn next_sync(density: Density, frame: &CellsFrom, from: usize, to: usize) -> Option<usize>
    requires order { from ≤ to }
    requires near { to < 2 ^ 31 }
    ensures first { IfSome result (λ sync. IsFirstSync (DataSyncAt density frame.now) from to sync) }
    ensures none { IfNone result (NoSync (DataSyncAt density frame.now) from to) }
{
    match density {
        Density::Single => IbmFm::IBM_3740.next_sync(frame, from, to),
        Density::Double => IbmMfm::PC_9.next_sync(frame, from, to),
    }
}

/// Whether a header stands at a place from `from` to below `to`, by a rate.
fn has_name(rate: Rate, cells: &Cells, from: usize, to: usize) -> bool
    ensures { IsTrue result ↔ HasNameFrom rate cells.now.cells from to }
{
    let recording = recording_with_one(rate, SectorSize::Bytes128);
    match next_name(&recording, cells, from) {
        Some((place, _)) => place < to,
        None => false,
    }
}

/// The byte of the mark of data that stand whole behind a header.
pub(crate) fn mark_at(density: Density, frame: &CellsFrom, behind: usize) -> u8
    requires near { behind < 2 ^ 32 }
    requires whole { behind + 64 ≤ length frame.now }
    ensures { result ≡ mark_of density frame.now behind }
{
    match density {
        Density::Single => frame.byte_at(behind),
        Density::Double => frame.byte_at(behind + FIRST_BYTE_PLACE),
    }
}

/// The size of a code, of 128 to 1024 bytes.
pub(crate) fn size_of_code(code: u8) -> Option<SectorSize>
    ensures { result ≡ size_of code }
{
    match code {
        0 => Some(SectorSize::Bytes128),
        1 => Some(SectorSize::Bytes256),
        2 => Some(SectorSize::Bytes512),
        3 => Some(SectorSize::Bytes1024),
        _ => None,
    }
}
