//! The search for a header's data by the second rule, as controllers read.

ghost use Rattle.std.specs.Prelude.{◌≡◌, ℕ, ◌+◌, ◌^◌, ◌<◌, ◌≤◌, ◌↔◌, [], List, false, drop, length, IfNone, IfSome};
ghost use Rattle.std.specs.Prelude.{IsTrue};
ghost use Rattle.cell_bits.specs.Word.{Stands};
ghost use Rattle.frame_law.specs.Controller.{DataStandAt, FirstData, FirstKeptData, NamedHeaderStands, WholeDataAt};
ghost use Rattle.flux_base.specs.declared.header_name.HeaderName.{HeaderName};
ghost use Rattle.frame_law.specs.Frames.{DATA_REACH, IsSyncInReach};
ghost use Rattle.frame_law.specs.Others.{HasNamedData};

use crate::data_reader::{DataReader, NoBytes};
use crate::frame_reading::{DATA_REACH, whole_header};
use crate::{CellsFrom, Layout, SectorBuffer};
use flux_base::HeaderName;

/// The zeros that a clock leaves where it starts anew.
const START_ZEROS: u8 = 31;

/// The first place, at least `from`, at which data of so many bytes of the header at the front of the cells stand. The
/// reader then keeps their bytes, and has else none.
fn next_data<L: Layout, D: DataReader>(
    layout: &L,
    size: u16,
    frame: &CellsFrom,
    from: usize,
    reader: &mut D,
) -> Option<usize>
    requires fits { D.fits size }
    ensures { let header =
        NamedHeaderStands L.CODING.sync L.CODING.sync_cells (L.header_end layout.now) (L.names layout.now) in
        FirstKeptData (D.keeps reader.new)
        (DataStandAt (L.header_end layout.now) (L.data_end layout.now size) (L.is_sync layout.now)
        (L.hold layout.now size) header frame.now)
        from result }
{
    reader.clear();
    let header_end = whole_header(layout, frame)?;
    let end = header_end + DATA_REACH;
    let mut start = from.max(header_end);
    // No header stands from the header's end up to here: where no sync for data is found, no more is looked at.
    let mut seen = header_end;
    while start < end {
        let sync = layout.next_sync(frame, start, end)?;
        if has_header(layout, frame, seen, sync) {
            return None;
        }
        if stands_at_sync(layout, size, frame, sync, reader) {
            return Some(sync);
        }
        reader.clear();
        seen = sync;
        start = sync + 1;
    }
    None
}

/// Whether a header of any name stands at a place from `from` to below `to`.
fn has_header<L: Layout>(layout: &L, frame: &CellsFrom, from: usize, to: usize) -> bool
    requires order { from ≤ to }
    requires near { to < 2 ^ 31 }
    ensures some { IsTrue result → (place : ℕ) × (name : HeaderName) × (from ≤ place) × (place < to)
        × NamedHeaderStands L.CODING.sync L.CODING.sync_cells (L.header_end layout.now) (L.names layout.now)
        (drop place frame.now) name }
    ensures none { result ≡ false → (place : ℕ) (name : HeaderName) → from ≤ place → place < to
        → ¬ NamedHeaderStands L.CODING.sync L.CODING.sync_cells (L.header_end layout.now) (L.names layout.now)
        (drop place frame.now) name }
{
    let mut start = from;
    while let Some(place) = frame.find_word(start, to, L::CODING.sync, L::CODING.sync_cells) {
        if standing_name(layout, &frame.behind(place)).is_some() {
            return true;
        }
        start = place + 1;
    }
    false
}

/// The name of the header at the front of the cells, where the sync stands. None where no header stands.
pub(crate) fn standing_name<L: Layout>(layout: &L, frame: &CellsFrom) -> Option<HeaderName>
    requires sync { Stands frame.now L.CODING.sync L.CODING.sync_cells 0 }
    ensures stands { IfSome result
        (λ name.
        NamedHeaderStands L.CODING.sync L.CODING.sync_cells (L.header_end layout.now) (L.names layout.now) frame.now
        name) }
    ensures none { IfNone result
        ((name : HeaderName)
        → ¬ NamedHeaderStands L.CODING.sync L.CODING.sync_cells (L.header_end layout.now) (L.names layout.now) frame.now
        name) }
{
    let Some(header_end) = layout.header_end(frame) else {
        return None;
    };
    let Some(name) = layout.read_name(frame) else {
        return None;
    };
    if !frame.unbroken_to(header_end) {
        return None;
    }
    Some(name)
}

/// The first place, at least `from`, at which data of the header at the front of the cells stand, of the size that the
/// recording's sectors have. The buffer then has their bytes, and is else empty.
pub(crate) fn own_data<L: Layout>(
    layout: &L,
    frame: &CellsFrom,
    from: usize,
    buffer: &mut SectorBuffer,
) -> Option<usize>
    ensures { let header =
        NamedHeaderStands L.CODING.sync L.CODING.sync_cells (L.header_end layout.now) (L.names layout.now) in
        let size = L.sector_bytes layout.now in
        FirstData
        (DataStandAt (L.header_end layout.now) (L.data_end layout.now size) (L.is_sync layout.now)
        (L.hold layout.now size) header frame.now)
        from result buffer.new.items }
{
    next_data(layout, layout.sector_bytes(), frame, from, buffer)
}

/// Whether data of the size that the name tells stand after the header at the front of the cells.
pub(crate) fn has_named_data<L: Layout>(layout: &L, frame: &CellsFrom, name: HeaderName) -> bool
    ensures { let header =
        NamedHeaderStands L.CODING.sync L.CODING.sync_cells (L.header_end layout.now) (L.names layout.now) in
        IsTrue result ↔ HasNamedData (L.size_named layout.now name)
        (λ size place bytes.
        DataStandAt (L.header_end layout.now) (L.data_end layout.now size) (L.is_sync layout.now)
        (L.hold layout.now size) header frame.now place bytes) }
{
    let Some(size) = layout.size_named(name) else {
        return false;
    };
    next_data(layout, size, frame, 0, &mut NoBytes).is_some()
}

/// Whether data stand at the sync, but for the headers before it. Then the reader, which had none, keeps their bytes.
/// What they hold is looked at last: it takes longest.
fn stands_at_sync<L: Layout, D: DataReader>(
    layout: &L,
    size: u16,
    frame: &CellsFrom,
    sync: usize,
    reader: &mut D,
) -> bool
    requires sync { IsSyncInReach (L.header_end layout.now frame.now) (L.is_sync layout.now frame.now) sync }
    requires near { sync < 2 ^ 31 }
    requires fits { D.fits size }
    requires empty { D.keeps reader.old [] }
    ensures good { IsTrue result
        → (bytes : List ℕ) × D.keeps reader.new bytes
        × WholeDataAt (L.data_end layout.now size) (L.hold layout.now size) frame.now sync bytes }
    ensures bad { result ≡ false → (bytes : List ℕ)
        → ¬ WholeDataAt (L.data_end layout.now size) (L.hold layout.now size) frame.now sync bytes }
{
    let Some(end) = layout.data_end(size, frame, sync) else {
        return false;
    };
    if !frame.unbroken_between(sync, end) {
        return false;
    }
    if let Some(_start) = frame.find_word(0, sync, 0, START_ZEROS) {
        return false;
    }
    reader.read(layout, size, frame, sync)
}
