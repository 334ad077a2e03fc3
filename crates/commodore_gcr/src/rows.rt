ghost use Rattle.std.specs.Prelude.{◌≡◌, ◌≤◌, ℕ, false, replicate};
ghost use Rattle.frame_law.specs.Writing.{AppendsCells};
ghost use Rattle.cell_bits.specs.Word.{word_cells};
ghost use Rattle.commodore_gcr.specs.Sectors.{data_bytes};
ghost use Rattle.commodore_gcr.specs.Coding.{gcr, gcr_bytes};
ghost use Rattle.commodore_gcr.specs.Layout.{gap_cells, row_cells};
ghost use Rattle.commodore_gcr.specs.Zones.{IsCommodoreTrack};

use crate::coding::coded;
use crate::header_block::header_block;
use crate::layout::{BYTE_CELLS, DATA_BYTE, DATA_FILL, GAP_BYTE, HEADER_GAP, Row};
use crate::recording::CommodoreGcr;
use crate::zones::zone_gap;
use cell_bits::Cells;
use check_values::xor_bytes;
use flux_base::{Memory, TrackId};

/// Appends a row of this disk, for this sector with these bytes.
pub(crate) fn push_row(
    cells: &mut Cells,
    row: Row,
    disk: CommodoreGcr,
    track: TrackId,
    sector: u8,
    bytes: &[u8],
) -> Result<(), Memory>
    requires { IsCommodoreTrack disk.drive track }
    ensures { AppendsCells cells.old cells.new (row_cells disk track false sector bytes.now row) result }
{
    match row {
        Row::SyncLead => push_ones(cells, 30),
        Row::SyncOnes => push_ones(cells, 10),
        Row::HeaderBlock => push_bytes(cells, &header_block(disk, track, sector)),
        Row::HeaderGap => push_gap(cells, HEADER_GAP),
        Row::DataBytes => push_data(cells, bytes),
        Row::DataFill => push_bytes(cells, &[DATA_FILL, DATA_FILL]),
        Row::ZoneGap => push_gap(cells, zone_gap(disk.drive, track)),
    }
}

/// Appends so many ones, 1 to 32.
fn push_ones(cells: &mut Cells, count: u8) -> Result<(), Memory>
    requires some { 1 ≤ count }
    requires most { count ≤ 32 }
    ensures { AppendsCells cells.old cells.new (word_cells count 0xFFFFFFFF) result }
{
    cells.push_word(u32::MAX, count)
}

/// Appends so many bytes of a gap.
fn push_gap(cells: &mut Cells, count: u8) -> Result<(), Memory>
    ensures { AppendsCells cells.old cells.new (gap_cells count) result }
{
    for _ in 0..count {
        push_gap_byte(cells)?;
    }
    Ok(())
}

fn push_gap_byte(cells: &mut Cells) -> Result<(), Memory>
    ensures { AppendsCells cells.old cells.new (word_cells 8 0x55) result }
{
    cells.push_word(GAP_BYTE.into(), 8)
}

/// Appends the first byte of data, these bytes, and their check value.
fn push_data(cells: &mut Cells, bytes: &[u8]) -> Result<(), Memory>
    ensures { AppendsCells cells.old cells.new (gcr_bytes (data_bytes bytes.now)) result }
{
    push_byte(cells, DATA_BYTE)?;
    push_bytes(cells, bytes)?;
    push_bytes(cells, &[xor_bytes(bytes)])
}

/// Appends bytes in group code.
fn push_bytes(cells: &mut Cells, bytes: &[u8]) -> Result<(), Memory>
    ensures { AppendsCells cells.old cells.new (gcr_bytes bytes.now) result }
{
    for byte in bytes {
        push_byte(cells, *byte)?;
    }
    Ok(())
}

fn push_byte(cells: &mut Cells, byte: u8) -> Result<(), Memory>
    ensures { AppendsCells cells.old cells.new (gcr byte) result }
{
    cells.push_word(coded(byte), BYTE_CELLS)
}
