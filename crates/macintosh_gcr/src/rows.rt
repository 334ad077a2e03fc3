ghost use Rattle.std.specs.Prelude.{◌≡◌, ◌<◌, ℕ, false};
ghost use Rattle.frame_law.specs.Writing.{AppendsCells};
ghost use Rattle.macintosh_gcr.specs.Coding.{AreSixBits};
ghost use Rattle.macintosh_gcr.specs.Layout.{field_values, gap_syncs, nibble_cells, row_cells};
ghost use Rattle.macintosh_gcr.specs.Sectors.{IsMacintoshTrack, zone_of};

use crate::coding::values_of;
use crate::header::header_values;
use crate::layout::{Row, SECTOR_CELLS, SELF_SYNC_CELLS};
use crate::recording::MacintoshGcr;
use apple_nibbles::{nibble_of, push_byte, push_mark, push_self_syncs};
use cell_bits::Cells;
use disk_zones::macintosh_zone;
use flux_base::{Memory, TrackId};

/// Appends a row of this disk, for this sector with these bytes.
pub(crate) fn push_row(
    cells: &mut Cells,
    row: Row,
    disk: MacintoshGcr,
    track: TrackId,
    sector: u8,
    bytes: &[u8],
) -> Result<(), Memory>
    requires track { IsMacintoshTrack disk track }
    requires sector { sector < 64 }
    ensures { AppendsCells cells.old cells.new (row_cells disk track false sector bytes.now row) result }
{
    match row {
        Row::SelfSyncs(count) => push_self_syncs(cells, count.into()),
        Row::Mark(mark) => push_mark(cells, mark.word()),
        Row::Header => push_values(cells, &header_values(disk, track, sector)),
        Row::Content => push_content(cells, sector, bytes),
        Row::ZoneGap => push_self_syncs(cells, zone_gap(track)),
    }
}

/// How many self-syncs stand after the last sector of the track.
fn zone_gap(track: TrackId) -> u16
    ensures { result ≡ gap_syncs (zone_of track) }
{
    let zone = macintosh_zone(track.cylinder);
    let rest = zone.ring_cells - SECTOR_CELLS * u32::from(zone.sectors);
    (rest / SELF_SYNC_CELLS) as u16
}

/// Appends the nibbles of a data field.
fn push_content(cells: &mut Cells, sector: u8, bytes: &[u8]) -> Result<(), Memory>
    requires { sector < 64 }
    ensures { AppendsCells cells.old cells.new (nibble_cells (field_values sector bytes.now)) result }
{
    push_values(cells, &[sector])?;
    push_values(cells, &values_of(bytes))
}

/// Appends the nibbles of these values.
fn push_values(cells: &mut Cells, values: &[u8]) -> Result<(), Memory>
    requires { AreSixBits values.now }
    ensures { AppendsCells cells.old cells.new (nibble_cells values.now) result }
{
    for value in values {
        push_byte(cells, nibble_of(*value))?;
    }
    Ok(())
}
