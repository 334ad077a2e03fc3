ghost use Rattle.std.specs.Prelude.{ℕ, false, flat_map};
ghost use Rattle.frame_law.specs.Writing.{AppendsCells};
ghost use Rattle.apple_gcr.specs.FourAndFour.{four_and_four};
ghost use Rattle.apple_gcr.specs.Layout.{address_of, row_cells};
ghost use Rattle.apple_nibbles.specs.Nibbles.{bytes_cells};
ghost use Rattle.apple_gcr.specs.SixAndTwo.{data_nibbles};

use crate::four_and_four::halves;
use crate::layout::{Row, VOLUME};
use crate::six_and_two::{VALUES, value_at};
use apple_nibbles::{nibble_of, push_byte, push_mark, push_self_syncs};
use cell_bits::Cells;
use check_values::xor_bytes;
use flux_base::{Memory, TrackId};

/// Appends a row for this sector with these bytes.
pub(crate) fn push_row(
    cells: &mut Cells,
    row: Row,
    track: TrackId,
    sector: u8,
    bytes: &[u8],
) -> Result<(), Memory>
    ensures { AppendsCells cells.old cells.new (row_cells track false sector bytes.now row) result }
{
    match row {
        Row::SelfSyncs(count) => push_self_syncs(cells, count.into()),
        Row::Mark(mark) => push_mark(cells, mark.word()),
        Row::Address => push_address(cells, track, sector),
        Row::Content => push_content(cells, bytes),
    }
}

/// Appends volume, track, sector and their check value.
fn push_address(cells: &mut Cells, track: TrackId, sector: u8) -> Result<(), Memory>
    ensures { AppendsCells cells.old cells.new (flat_map four_and_four (address_of track sector)) result }
{
    let check = xor_bytes(&[VOLUME, track.cylinder, sector]);
    push_fields(cells, &[VOLUME, track.cylinder, sector, check])
}

/// Appends the bytes in 4-and-4.
fn push_fields(cells: &mut Cells, bytes: &[u8]) -> Result<(), Memory>
    ensures { AppendsCells cells.old cells.new (flat_map four_and_four bytes.now) result }
{
    for byte in bytes {
        push_four_and_four(cells, *byte)?;
    }
    Ok(())
}

fn push_four_and_four(cells: &mut Cells, byte: u8) -> Result<(), Memory>
    ensures { AppendsCells cells.old cells.new (four_and_four byte) result }
{
    let (first, second) = halves(byte);
    push_byte(cells, first)?;
    push_byte(cells, second)
}

/// Appends the nibbles of a sector's bytes and their check value.
fn push_content(cells: &mut Cells, bytes: &[u8]) -> Result<(), Memory>
    ensures { AppendsCells cells.old cells.new (bytes_cells (data_nibbles bytes.now)) result }
{
    let mut before = 0;
    for index in 0..VALUES {
        let value = value_at(bytes, index);
        push_byte(cells, nibble_of(value ^ before))?;
        before = value;
    }
    push_byte(cells, nibble_of(before))
}
