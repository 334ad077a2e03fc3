ghost use Rattle.std.specs.Prelude.{◌≡◌, ℕ, false, replicate};
ghost use Rattle.frame_law.specs.Writing.{AppendsCells};
ghost use Rattle.cell_bits.specs.Bytes.{fm};
ghost use Rattle.cell_bits.specs.Word.{word_cells};
ghost use Rattle.ibm_disks.specs.Numbers.{FillFmTrack};
ghost use Rattle.ibm_fields.specs.Fields.{high_first};
ghost use Rattle.ibm_fm.specs.Layout.{field_cells, fm_bytes, row_cells, word_of};
ghost use Rattle.ibm_fm.specs.Sectors.{check_of};

use crate::layout::{GAP, MARK_CELLS, Mark, Row, track_gap};
use cell_bits::Cells;
use check_values::crc16;
use flux_base::{Memory, TrackId};
use ibm_disks::TrackNumbers;
use ibm_fields::{CHECK_START, DATA_BYTE, ID_BYTE};

/// Appends a row of a track with these numbers, for this sector with these bytes.
pub(crate) fn push_row(
    cells: &mut Cells,
    row: Row,
    numbers: TrackNumbers,
    track: TrackId,
    sector: u8,
    bytes: &[u8],
) -> Result<(), Memory>
    requires { FillFmTrack numbers }
    ensures { AppendsCells cells.old cells.new (row_cells numbers track false sector bytes.now row) result }
{
    match row {
        Row::Run(count, byte) => push_run(cells, u16::from(count), byte),
        Row::Mark(mark) => push_mark(cells, mark),
        Row::Address => {
            let address = [track.cylinder, track.head, sector, numbers.size.code()];
            push_field(cells, ID_BYTE, &address)
        }
        Row::Content => push_field(cells, DATA_BYTE, bytes),
        Row::SectorGap => push_run(cells, u16::from(numbers.sector_gap), GAP),
        Row::TrackGap => push_run(cells, track_gap(numbers), GAP),
    }
}

fn push_run(cells: &mut Cells, count: u16, byte: u8) -> Result<(), Memory>
    ensures { AppendsCells cells.old cells.new (fm_bytes (replicate count byte)) result }
{
    for _ in 0..count {
        push_byte(cells, byte)?;
    }
    Ok(())
}

fn push_mark(cells: &mut Cells, mark: Mark) -> Result<(), Memory>
    ensures { AppendsCells cells.old cells.new (word_cells 16 (word_of mark)) result }
{
    cells.push_word(mark.word(), MARK_CELLS)
}

fn push_byte(cells: &mut Cells, byte: u8) -> Result<(), Memory>
    ensures { AppendsCells cells.old cells.new (fm byte) result }
{
    cells.push_fm(byte)
}

/// Appends what stands after a mark: bytes, and the check value of mark and bytes.
fn push_field(cells: &mut Cells, mark: u8, bytes: &[u8]) -> Result<(), Memory>
    ensures { AppendsCells cells.old cells.new (field_cells mark bytes.now) result }
{
    push_bytes(cells, bytes)?;
    push_number(cells, field_check(mark, bytes))
}

fn push_bytes(cells: &mut Cells, bytes: &[u8]) -> Result<(), Memory>
    ensures { AppendsCells cells.old cells.new (fm_bytes bytes.now) result }
{
    for byte in bytes {
        push_byte(cells, *byte)?;
    }
    Ok(())
}

/// Appends two bytes, the high one first.
fn push_number(cells: &mut Cells, number: u16) -> Result<(), Memory>
    ensures { AppendsCells cells.old cells.new (fm_bytes (high_first number)) result }
{
    push_bytes(cells, &[(number / 256) as u8, (number % 256) as u8])
}

/// The check value of a field: of its mark's byte and of its bytes.
pub(crate) fn field_check(mark: u8, bytes: &[u8]) -> u16
    ensures { result ≡ check_of mark bytes.now }
{
    let register = crc16(CHECK_START, &[mark]);
    crc16(register, bytes)
}
