//! A sector is read in one way for every recording: its header, and the data at the first sync after it.

ghost use Rattle.std.specs.Prelude.{◌≡◌, ℕ, ◌<◌, ◌≤◌, [], List, false, length, IfSome, IfNone, IsTrue};
ghost use Rattle.cell_bits.specs.Word.{Stands};
ghost use Rattle.flux_base.specs.Bounds.{LONGEST_RING};
ghost use Rattle.frame_law.specs.Frames.{DataStand, HeaderStands, SectorStands};
ghost use Rattle.frame_law.specs.Others.{IsSectorName};
ghost use Rattle.frame_law.specs.Readings.{Reads};
ghost use Rattle.track_rings.specs.Rings.{IsSectorNumber};

use crate::{CellsFrom, Layout, Reading, SectorBuffer};
use flux_base::{HeaderName, TrackId};

/// The data's sync begins less than this number of cells after the header.
pub(crate) const DATA_REACH: usize = 1024;

/// What is read at the front of the cells, where the sync stands. The buffer then has a good sector's bytes, and
/// is else empty.
pub(crate) fn read_frame<L: Layout>(
    layout: &L,
    frame: &CellsFrom,
    track: TrackId,
    buffer: &mut SectorBuffer,
) -> Reading
    requires track { L.has_track layout.now track }
    requires sync { Stands frame.now L.CODING.sync L.CODING.sync_cells 0 }
    ensures { let header : (s : ℕ) → Type 0 =
        λ s.
        HeaderStands L.CODING.sync L.CODING.sync_cells (L.header_end layout.now) (L.lowest_sector layout.now)
        (L.sector_count layout.now track) (L.names_sector layout.now track) frame.now s in
        let content : List ℕ → Type 0 =
        λ bytes.
        DataStand (L.header_end layout.now) (L.data_end layout.now (L.sector_bytes layout.now))
        (L.is_sync layout.now) (L.hold layout.now (L.sector_bytes layout.now)) frame.now bytes in
        Reads header (λ s bytes. SectorStands (header s) (content bytes)) result buffer.new.items }
{
    buffer.clear();
    let Some(header_end) = whole_header(layout, frame) else {
        return Reading::Nothing;
    };
    let Some(sector) = header_sector(layout, frame, header_end, track) else {
        return Reading::Nothing;
    };
    if read_content(layout, frame, header_end, buffer) {
        return Reading::Good { sector };
    }
    buffer.clear();
    Reading::Bad { sector }
}

/// Where the header at the front of the cells ends, which has no more cells than a ring. None where it is not whole.
pub(crate) fn whole_header<L: Layout>(layout: &L, frame: &CellsFrom) -> Option<usize>
    ensures some { IfSome result (λ end. (end ≡ L.header_end layout.now frame.now) × (end ≤ length frame.now)) }
    ensures near { IfSome result (λ end. end ≤ LONGEST_RING) }
    ensures none { IfNone result (length frame.now < L.header_end layout.now frame.now) }
{
    let end = layout.header_end(frame)?;
    Some(end)
}

/// The number of the sector whose header, of this track, stands at the front of the cells after the sync. It ends at
/// this place.
pub(crate) fn header_sector<L: Layout>(
    layout: &L,
    frame: &CellsFrom,
    header_end: usize,
    track: TrackId,
) -> Option<u8>
    requires track { L.has_track layout.now track }
    requires end { header_end ≡ L.header_end layout.now frame.now }
    requires whole { header_end ≤ length frame.now }
    requires sync { Stands frame.now L.CODING.sync L.CODING.sync_cells 0 }
    ensures stands { IfSome result
        (λ s.
        HeaderStands L.CODING.sync L.CODING.sync_cells (L.header_end layout.now) (L.lowest_sector layout.now)
        (L.sector_count layout.now track) (L.names_sector layout.now track) frame.now s) }
    ensures none { IfNone result
        ((s : ℕ)
        → ¬ HeaderStands L.CODING.sync L.CODING.sync_cells (L.header_end layout.now) (L.lowest_sector layout.now)
        (L.sector_count layout.now track) (L.names_sector layout.now track) frame.now s) }
{
    let sector = named_sector(layout, frame, track)?;
    if !frame.unbroken_to(header_end) {
        return None;
    }
    Some(sector)
}

/// The sector of this track that the header at the front of the cells names.
fn named_sector<L: Layout>(layout: &L, frame: &CellsFrom, track: TrackId) -> Option<u8>
    requires track { L.has_track layout.now track }
    requires whole { L.header_end layout.now frame.now ≤ length frame.now }
    ensures named { IfSome result
        (λ s.
        L.names_sector layout.now track frame.now s
        × IsSectorNumber (L.lowest_sector layout.now) (L.sector_count layout.now track) s) }
    ensures none { IfNone result
        ((s : ℕ) → IsSectorNumber (L.lowest_sector layout.now) (L.sector_count layout.now track) s
        → ¬ L.names_sector layout.now track frame.now s) }
{
    let Some(name) = layout.read_name(frame) else {
        return None;
    };
    sector_with_name(layout, track, name)
}

/// The sector of this track that has the name. None where none has it.
pub(crate) fn sector_with_name<L: Layout>(
    layout: &L,
    track: TrackId,
    name: HeaderName,
) -> Option<u8>
    requires track { L.has_track layout.now track }
    ensures named { IfSome result
        (λ s.
        IsSectorName (L.is_name_of layout.now track) (L.lowest_sector layout.now) (L.sector_count layout.now track) name
        s) }
    ensures none { IfNone result
        ((s : ℕ)
        → ¬ IsSectorName (L.is_name_of layout.now track) (L.lowest_sector layout.now) (L.sector_count layout.now track)
        name s) }
{
    let Some(sector) = layout.sector_named(track, name) else {
        return None;
    };
    let first = layout.lowest_sector();
    if sector < first {
        return None;
    }
    if sector - first >= layout.sector_count(track) {
        return None;
    }
    Some(sector)
}

/// Whether data stand after the header at the front of the cells, which ends at this place. Then the buffer, which was
/// empty, has them.
fn read_content<L: Layout>(
    layout: &L,
    frame: &CellsFrom,
    header_end: usize,
    buffer: &mut SectorBuffer,
) -> bool
    requires end { header_end ≡ L.header_end layout.now frame.now }
    requires near { header_end ≤ LONGEST_RING }
    requires empty { buffer.old.items ≡ [] }
    ensures good { IsTrue result
        → DataStand (L.header_end layout.now) (L.data_end layout.now (L.sector_bytes layout.now)) (L.is_sync layout.now)
        (L.hold layout.now (L.sector_bytes layout.now)) frame.now buffer.new.items }
    ensures bad { result ≡ false → (bytes : List ℕ)
        → ¬ DataStand (L.header_end layout.now) (L.data_end layout.now (L.sector_bytes layout.now))
        (L.is_sync layout.now) (L.hold layout.now (L.sector_bytes layout.now)) frame.now bytes }
{
    let reach = header_end + DATA_REACH;
    let Some(sync) = layout.next_sync(frame, header_end, reach) else {
        return false;
    };
    let size = layout.sector_bytes();
    let Some(end) = layout.data_end(size, frame, sync) else {
        return false;
    };
    if !frame.unbroken_to(end) {
        return false;
    }
    layout.read_data(size, frame, sync, buffer)
}
