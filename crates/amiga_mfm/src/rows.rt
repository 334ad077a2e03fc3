ghost use Rattle.std.specs.Prelude.{◌≡◌, ℕ, ◌<◌, ◌≤◌, length, map};
ghost use Rattle.check_values.specs.Sums.{xor};
ghost use Rattle.mfm_coding.specs.Writes.{AppendsSymbols};
ghost use Rattle.amiga_mfm.specs.Longs.{half_of, halves};
ghost use Rattle.amiga_mfm.specs.Layout.{check_of_data, check_of_header, content_halves, halves_symbols, header_halves};
ghost use Rattle.amiga_mfm.specs.Layout.{info_of, row_symbols};
ghost use Rattle.amiga_mfm.specs.Disks.{IsAmigaTrack};

use crate::half::{Half, half_bytes};
use crate::header::track_number;
use crate::layout::{Disk, FORMAT_BYTE, LABEL, Row, ZERO};
use crate::longs::longs_in;
use cell_bits::Cells;
use check_values::amiga_xor;
use flux_base::{Memory, TrackId};
use mfm_coding::{push_bytes, push_run};

/// Appends a row of the disk's track for this sector with these bytes.
pub(crate) fn push_row(
    cells: &mut Cells,
    row: Row,
    disk: Disk,
    track: TrackId,
    sector: u8,
    bytes: &[u8],
) -> Result<(), Memory>
    requires track { IsAmigaTrack track }
    requires sector { sector < disk.sectors }
    requires bytes { length bytes.now ≤ 512 }
    ensures { AppendsSymbols cells.old cells.new (row_symbols disk track sector bytes.now row) result }
{
    match row {
        Row::Run(count, symbol) => push_run(cells, u16::from(count), symbol),
        Row::Header => push_header(cells, info(disk, track, sector)),
        Row::Content => push_content(cells, longs_in(bytes).as_slice()),
        Row::TrackGap => push_run(cells, disk.track_gap, ZERO),
    }
}

/// Appends this info, the label, and the check value of both.
fn push_header(cells: &mut Cells, info: u32) -> Result<(), Memory>
    ensures { AppendsSymbols cells.old cells.new (halves_symbols (header_halves info)) result }
{
    push_longs(cells, &[info])?;
    push_longs(cells, &LABEL)?;
    push_longs(cells, &[header_check(info)])
}

/// Appends the check value of these longs, and the longs.
fn push_content(cells: &mut Cells, longs: &[u32]) -> Result<(), Memory>
    ensures { AppendsSymbols cells.old cells.new (halves_symbols (content_halves longs.now)) result }
{
    push_longs(cells, &[data_check(longs)])?;
    push_longs(cells, longs)
}

/// Appends longs: their odd halves, and then their even ones.
fn push_longs(cells: &mut Cells, longs: &[u32]) -> Result<(), Memory>
    ensures { AppendsSymbols cells.old cells.new (halves_symbols (halves longs.now)) result }
{
    push_halves(cells, longs, Half::Odd)?;
    push_halves(cells, longs, Half::Even)
}

/// Appends this half of each long.
fn push_halves(cells: &mut Cells, longs: &[u32], half: Half) -> Result<(), Memory>
    ensures { AppendsSymbols cells.old cells.new (halves_symbols (map (half_of half) longs.now)) result }
{
    for long in longs {
        push_bytes(cells, &half_bytes(half.of(*long)))?;
    }
    Ok(())
}

/// The long that names the sector: FF, track, sector, and how many sectors there are from it to the gap.
fn info(disk: Disk, track: TrackId, sector: u8) -> u32
    requires track { IsAmigaTrack track }
    requires sector { sector < disk.sectors }
    ensures { result ≡ info_of disk track sector }
{
    let to_gap = disk.sectors - sector;
    u32::from_be_bytes([FORMAT_BYTE, track_number(track), sector, to_gap])
}

/// The check value of a header with this info and a label of zeros.
fn header_check(info: u32) -> u32
    ensures { result ≡ check_of_header info }
{
    let (odd, even) = (Half::Odd.of(info), Half::Even.of(info));
    amiga_xor(&[odd, even, 0, 0, 0, 0, 0, 0, 0, 0])
}

/// The check value of a sector's longs.
fn data_check(longs: &[u32]) -> u32
    ensures { result ≡ check_of_data longs.now }
{
    halves_xor(longs, Half::Odd) ^ halves_xor(longs, Half::Even)
}

/// The exclusive or of this half of each long.
fn halves_xor(longs: &[u32], half: Half) -> u32
    ensures { result ≡ xor (map (half_of half) longs.now) }
{
    let mut sum = 0;
    for long in longs {
        sum ^= half.of(*long);
    }
    sum
}
