//! A track whose drive slows down while it is captured, and whose transitions are displaced.
use super::decoding::{IBM_1440, TRACK, Wanted, decode_first};
use super::streams::written;
use cell_bits::Cells;
use flux_base::Memory;
use frame_law::Recording;
use ibm_mfm::IbmMfm;
use sector_images::Format;
use std::alloc::Global;
use std::test::Fail;

/// The nominal cell of the disk, and the shortest and the longest period of the drive, in fine units: nearly seven
/// and nearly nine eighths of it.
const FASTEST: u64 = 21529;

const SLOWEST: u64 = 27679;

/// How far a transition is displaced, in fine units: nearly an eighth of the nominal cell.
const DISPLACEMENT: u64 = 3075;

const FINE_PER_TICK: u64 = 1024;

/// The track as it is read, the later turns too.
const READ: Wanted = Wanted {
    first: b"00.0 01 good 4 0 1 52527\n",
    last: b"\n",
    ..IBM_1440
};

/// A drive that turns over a track. It stands after the last transition.
#[derive(Clone, Copy, Debug)]
struct Drive {
    /// How many cells it passed.
    passed: u64,
    /// Where the last transition would be without displacement, in fine units.
    ideal: u64,
    /// The length of a cell in fine units.
    period: u64,
    /// Whether the last transition came late, or else early.
    late: bool,
}

impl Drive {
    /// Where the end of cell number `cell` lies, in fine units.
    fn end_of(&self, cell: u64) -> u64 {
        let cells = (cell.wrapping_add(1)).wrapping_sub(self.passed);
        self.ideal.wrapping_add(cells.wrapping_mul(self.period))
    }

    /// Passes the transition of cell number `cell`, and gives its time in ticks.
    fn pass(&mut self, cell: u64, slows: bool) -> u64 {
        self.ideal = self.end_of(cell);
        self.passed = cell.wrapping_add(1);
        self.period = self.period_behind(slows);
        self.late = !self.late;
        self.displaced()
    }

    fn period_behind(&self, slows: bool) -> u64 {
        if slows && self.period < SLOWEST {
            return self.period.wrapping_add(1);
        }
        self.period
    }

    /// The last time that is late enough, or the first that is early enough.
    fn displaced(&self) -> u64 {
        if self.late {
            return self.ideal.wrapping_add(DISPLACEMENT) / FINE_PER_TICK;
        }
        self.ideal
            .wrapping_sub(DISPLACEMENT)
            .wrapping_add(FINE_PER_TICK - 1)
            / FINE_PER_TICK
    }
}

/// The transitions and index times of the ring's last quarter, of three turns, and of its first quarter. The drive
/// slows down from the second turn on.
#[derive(Drop)]
struct Capture {
    times: Vec<u64>,
    indexes: Vec<u64>,
}

fn captured(alloc: Global, ring: &Cells) -> Result<Capture, Memory> {
    let mut capture = Capture {
        times: Vec::new(alloc),
        indexes: Vec::new(alloc),
    };
    let size = ring.len() as u64;
    let quarter = size / 4;
    let second_turn = quarter.wrapping_add(size);
    let mut drive = Drive {
        passed: 0,
        ideal: 0,
        period: FASTEST,
        late: false,
    };
    let mut place = size.wrapping_sub(quarter);
    let mut next_index = quarter;
    for cell in 0..size
        .saturating_mul(3)
        .saturating_add(quarter.saturating_mul(2))
    {
        if place >= size {
            place = 0;
        }
        if is_one(ring, place) {
            capture.times.push(drive.pass(cell, cell > second_turn))?;
        }
        if cell == next_index {
            capture.indexes.push(drive.end_of(cell) / FINE_PER_TICK)?;
            next_index = next_index.wrapping_add(size);
        }
        place = place.wrapping_add(1);
    }
    Ok(capture)
}

fn is_one(ring: &Cells, place: u64) -> bool {
    let place = place as usize;
    place < ring.len() && ring.cell(place)
}

// The drive slows down by more than a quarter, and each transition is displaced by nearly an eighth of a cell, by turns
// late and early.
#[test]
fn a_track_with_drift_and_displacement(rt: HostRuntime) -> Result<(), Fail> {
    let alloc = rt.alloc();
    let mut ring = Cells::new(alloc);
    IbmMfm::PC_18.ring(TRACK, &[0xF6; 9216], &mut ring)?;
    let capture = captured(alloc, &ring)?;
    assert_eq!(rt; capture.indexes.len(), 4);
    let stream = written(&rt, alloc, &capture.times, &capture.indexes)?;
    decode_first(alloc, Format::Ibm1440, stream.bytes().to_vec(alloc)?)?.is(&rt, &READ);
    Ok(())
}
