ghost use Rattle.std.specs.Prelude.{◌≡◌, ℕ};
ghost use Rattle.ibm_disks.specs.Numbers.{FillMfmTrack};
ghost use Rattle.ibm_fields.specs.Fields.{high_first};
ghost use Rattle.mfm_coding.specs.Coding.{bytes_as_data};
ghost use Rattle.mfm_coding.specs.Writes.{AppendsSymbols};
ghost use Rattle.ibm_mfm.specs.Layout.{field, row_symbols};
ghost use Rattle.ibm_mfm.specs.Sectors.{check_of};

use crate::layout::{CHECK_START, GAP, Row, ZERO, track_gap};
use cell_bits::Cells;
use check_values::crc16;
use flux_base::{Memory, TrackId};
use ibm_disks::TrackNumbers;
use ibm_fields::{DATA_BYTE, ID_BYTE};
use mfm_coding::{Symbol, push_bytes, push_run, push_symbol};

/// Appends a row of a track with these numbers, for this sector with these bytes.
pub(crate) fn push_row(
    cells: &mut Cells,
    row: Row,
    numbers: TrackNumbers,
    track: TrackId,
    sector: u8,
    bytes: &[u8],
) -> Result<(), Memory>
    requires { FillMfmTrack numbers }
    ensures { AppendsSymbols cells.old cells.new (row_symbols numbers track sector bytes.now row) result }
{
    match row {
        Row::Run(count, symbol) => push_run(cells, u16::from(count), symbol),
        Row::HeaderZeros => push_run(cells, u16::from(numbers.lead_in.mfm_zeros()), ZERO),
        Row::Address => {
            let address = [track.cylinder, track.head, sector, numbers.size.code()];
            push_field(cells, ID_BYTE, &address)
        }
        Row::Content => push_field(cells, DATA_BYTE, bytes),
        Row::SectorGap => push_run(cells, u16::from(numbers.sector_gap), GAP),
        Row::TrackGap => push_run(cells, track_gap(numbers), GAP),
    }
}

/// Appends what stands after three marks: a first byte, other bytes, and the check value.
fn push_field(cells: &mut Cells, first: u8, bytes: &[u8]) -> Result<(), Memory>
    ensures { AppendsSymbols cells.old cells.new (field first bytes.now) result }
{
    push_symbol(cells, Symbol::Data(first))?;
    push_bytes(cells, bytes)?;
    push_number(cells, field_check(first, bytes))
}

/// Appends two bytes, the high one first.
fn push_number(cells: &mut Cells, number: u16) -> Result<(), Memory>
    ensures { AppendsSymbols cells.old cells.new (bytes_as_data (high_first number)) result }
{
    push_bytes(cells, &[(number / 256) as u8, (number % 256) as u8])
}

/// The check value of a field after three marks: of the marks' bytes, its first byte and its other bytes.
pub(crate) fn field_check(first: u8, bytes: &[u8]) -> u16
    ensures { result ≡ check_of first bytes.now }
{
    let register = crc16(CHECK_START, &[first]);
    crc16(register, bytes)
}
