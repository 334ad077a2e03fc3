//! Frames made by hand, and what is read in them.
ghost use Rattle.flux_base.specs.declared.track.TrackId.{TrackId};

use cell_bits::Cells;
use flux_base::{HeaderName, Memory, TrackId};
use frame_law::{
    FoundHeader, Reading, Recording, SectorBuffer, next_found, next_header, next_reading,
};
use std::alloc::Global;
use std::process::Abort;
use std::test::Fail;

/// A header and data, made by hand.
pub trait HandMade {
    /// Appends their cells.
    fn push(&self, cells: &mut Cells) -> Result<(), Memory>;
}

/// Appends so many cells that are all the same.
pub fn push_cells(cells: &mut Cells, count: u16, cell: bool) -> Result<(), Memory> {
    for _ in 0..count {
        cells.push_cell(cell)?;
    }
    Ok(())
}

/// Appends so many cells, ones and zeros by turns, from a one on.
pub fn push_gap(cells: &mut Cells, count: u16) -> Result<(), Memory> {
    for place in 0..count {
        cells.push_cell(place % 2 == 0)?;
    }
    Ok(())
}

/// What a frame is, the frame, and what is read where it begins.
pub type Row<F> = (&'static str, F, Reading);

/// A place, and from it on the first header's place and reading.
pub type Search = (usize, Option<(usize, Reading)>);

/// How many bytes the buffer has after a reading.
fn bytes_read<R: Recording>(recording: &R, reading: Reading) -> usize {
    match reading {
        Reading::Good { .. } => usize::from(recording.sector_size()),
        _ => 0,
    }
}

/// Each frame is read as its row says.
pub fn assert_read<R: Recording, F: HandMade>(
    rt: &impl Abort,
    alloc: Global,
    recording: &R,
    track: TrackId,
    rows: &[Row<F>],
) -> Result<(), Fail>
    requires { R.has_track recording.now track }
{
    let mut cells = Cells::new(alloc);
    let mut buffer = SectorBuffer::new();
    for (name, frame, want) in rows {
        cells.clear();
        frame.push(&mut cells)?;
        let reading = recording.read_at(&cells, 0, track, &mut buffer);
        let length = bytes_read(recording, *want);
        assert_eq!(rt; (reading, buffer.len()), (*want, length), "{name}");
    }
    Ok(())
}

/// What a frame is, the frame, and the one place, from its begin, where data stand by the second rule.
pub type Rewritten<F> = (&'static str, F, Option<usize>);

/// Each frame has its header, and data by the second rule where its row says and nowhere else.
pub fn assert_rewritten<R: Recording, F: HandMade>(
    rt: &impl Abort,
    alloc: Global,
    recording: &R,
    track: TrackId,
    rows: &[Rewritten<F>],
) -> Result<(), Fail>
    requires { R.has_track recording.now track }
{
    let mut cells = Cells::new(alloc);
    let mut buffer = SectorBuffer::new();
    for (name, frame, want) in rows {
        cells.clear();
        frame.push(&mut cells)?;
        let header = next_header(recording, &cells, 0, track);
        assert_eq!(rt; header.map(|found| found.0), Some(0), "{name}");
        let place = recording.next_data(&cells, 0, 0, &mut buffer);
        let length = want.map_or(0, |_| usize::from(recording.sector_size()));
        assert_eq!(rt; (place, buffer.len()), (*want, length), "{name}");
        let more = recording.next_data(
            &cells,
            0,
            want.map_or(0, |at| at.saturating_add(1)),
            &mut buffer,
        );
        assert_eq!(rt; (more, buffer.len()), (None, 0), "{name}");
    }
    Ok(())
}

/// What a frame is, the frame, the name of its header, which is none of the track's sectors', and whether data of the
/// size that the name tells stand after it by the second rule.
pub type Other<F> = (&'static str, F, HeaderName, bool);

/// Each frame has the header of an other, and data as its row says.
pub fn assert_others<R: Recording, F: HandMade>(
    rt: &impl Abort,
    alloc: Global,
    recording: &R,
    track: TrackId,
    rows: &[Other<F>],
) -> Result<(), Fail>
    requires { R.has_track recording.now track }
{
    let mut cells = Cells::new(alloc);
    for (what, frame, name, whole) in rows {
        cells.clear();
        frame.push(&mut cells)?;
        let found = next_found(recording, &cells, 0, track);
        assert_eq!(rt; found, Some((0, FoundHeader::Other(*name))), "{what}");
        let has_data = recording.has_data(&cells, 0, *name);
        assert_eq!(rt; has_data, *whole, "{what}");
    }
    Ok(())
}

/// Each search in the cells finds what it says.
pub fn assert_found<R: Recording>(
    rt: &impl Abort,
    recording: &R,
    track: TrackId,
    cells: &Cells,
    searches: &[Search],
)
    requires { R.has_track recording.now track }
{
    let mut buffer = SectorBuffer::new();
    for (from, want) in searches {
        let found = next_reading(recording, cells, *from, track, &mut buffer);
        let length = match *want {
            Some((_, reading)) => bytes_read(recording, reading),
            None => 0,
        };
        assert_eq!(rt; (found, buffer.len()), (*want, length), "from {from}");
    }
}

/// Appends the cells of others from one place up to another, as far as there are any.
pub fn push_part(cells: &mut Cells, others: &Cells, from: usize, to: usize) -> Result<(), Memory> {
    for place in from..to.min(others.len()) {
        cells.push_cell(others.cell(place))?;
    }
    Ok(())
}

/// The first cells, at most so many.
pub fn front(alloc: Global, cells: &Cells, count: usize) -> Result<Cells, Memory> {
    let mut cut = Cells::new(alloc);
    push_part(&mut cut, cells, 0, count)?;
    Ok(cut)
}

/// Each search in the cells finds what it says where the last cell is cut off.
pub fn assert_found_in_cut<R: Recording>(
    rt: &impl Abort,
    alloc: Global,
    recording: &R,
    track: TrackId,
    cells: &Cells,
    searches: &[Search],
) -> Result<(), Fail>
    requires { R.has_track recording.now track }
{
    let cut = front(alloc, cells, cells.len().saturating_sub(1))?;
    assert_found(rt, recording, track, &cut, searches);
    Ok(())
}
