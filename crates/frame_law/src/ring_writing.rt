//! A track is written in one way for every recording: its rows, one after another.

ghost use Rattle.std.specs.Prelude.{◌≡◌, ◌*◌, ◌⊎◌, ◌&&◌, [], length};
ghost use Rattle.std.specs.List.{flat_map, range_with_len};
ghost use Rattle.frame_law.specs.inside.RowWriting.{AppendsParts};
ghost use Rattle.track_rings.specs.Rings.{IsSectorNumber};
ghost use Rattle.track_rings.specs.Rows.{parts_of, sector_parts, track_parts};

use crate::{Layout, SectorBytes};
use cell_bits::Cells;
use flux_base::{Memory, TrackId};

/// Appends the whole ring of a track, of the bytes of its sectors.
pub(crate) fn append_track<L: Layout>(
    layout: &L,
    track: TrackId,
    bytes: &[u8],
    cells: &mut Cells,
) -> Result<(), Memory>
    requires track { L.has_track layout.now track }
    requires bytes { length bytes.now ≡ L.sector_count layout.now track * L.sector_bytes layout.now }
    ensures { let parts = track_parts (L.lowest_sector layout.now) (L.sector_count layout.now track)
        (L.sector_bytes layout.now) bytes.now (L.rows layout.now track) in
        AppendsParts L.asks (L.row_cells layout.now track) cells.old cells.new parts result }
{
    let first = layout.lowest_sector();
    append_rows(layout, track, first, &[], layout.lead_in(track), cells)?;
    append_sectors(layout, track, bytes, cells)?;
    append_rows(layout, track, first, &[], layout.lead_out(track), cells)
}

/// Appends the sectors of a track, in the order of their numbers.
fn append_sectors<L: Layout>(
    layout: &L,
    track: TrackId,
    bytes: &[u8],
    cells: &mut Cells,
) -> Result<(), Memory>
    requires track { L.has_track layout.now track }
    requires bytes { length bytes.now ≡ L.sector_count layout.now track * L.sector_bytes layout.now }
    ensures { let sector =
        sector_parts (L.lowest_sector layout.now) (L.sector_bytes layout.now) bytes.now (L.rows layout.now track) in
        let all = flat_map sector (range_with_len (L.lowest_sector layout.now) (L.sector_count layout.now track)) in
        AppendsParts L.asks (L.row_cells layout.now track) cells.old cells.new all result }
{
    let first = layout.lowest_sector();
    let size = usize::from(layout.sector_bytes());
    let rows = layout.sector_rows(track);
    for index in 0..layout.sector_count(track) {
        let begin = usize::from(index) * size;
        let content = &bytes[begin..begin + size];
        append_rows(layout, track, first + index, content, rows, cells)?;
    }
    Ok(())
}

/// Appends rows for this sector with these bytes.
fn append_rows<L: Layout>(
    layout: &L,
    track: TrackId,
    sector: u8,
    bytes: &[u8],
    rows: &[L::Row],
    cells: &mut Cells,
) -> Result<(), Memory>
    requires track { L.has_track layout.now track }
    requires sector { IsSectorNumber (L.lowest_sector layout.now) (L.sector_count layout.now track) sector }
    requires bytes { (length bytes.now ≡ 0) ⊎ (length bytes.now ≡ L.sector_bytes layout.now) }
    ensures { AppendsParts L.asks (L.row_cells layout.now track) cells.old cells.new
        (parts_of sector bytes.now rows.now) result }
{
    let content = SectorBytes {
        track,
        sector,
        bytes,
    };
    for row in rows {
        layout.append_row(&content, *row, cells)?;
    }
    Ok(())
}
