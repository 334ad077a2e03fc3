//! Work for the loop, to be timed from outside. The input has three lines: how many transitions, how often to
//! recover the cells from them, and 0 for a track in MFM or 1 for one without a format.
#![tactic(auto)]

ghost use Rattle.std.specs.Prelude.{◌^◌, ◌≤◌, All, IfOk};

use cell_bits::Cells;
use flux_base::Memory;
use index_turns::TrackFlux;
use phase_loop::{Band, Loop, LoopStart, recover};
use std::alloc::Global;
use std::io;

/// The latest time of a transition that the loop takes, in ticks.
const LATEST: u64 = 1 << 39;

/// Ticks of a cell.
const CELL: u64 = 48;

/// What a track holds.
#[derive(Clone, Copy)]
enum Track {
    Mfm,
    Unformatted,
}

fn main(rt: HostRuntime) -> io::Result<()> {
    let mut wanted = [0usize; 3];
    for (number, line) in wanted.iter_mut().zip(rt.lines(rt.alloc())) {
        *number = line?.parse().unwrap_or(0);
    }
    let [transitions, recoveries, unformatted] = wanted;
    let track = if unformatted == 0 {
        Track::Mfm
    } else {
        Track::Unformatted
    };
    let mut cells = Cells::new(rt.alloc());
    let recovered = recover_often(rt.alloc(), track, transitions, recoveries, &mut cells).is_ok();
    println!(rt; "all recovered: {recovered}, cells: {}", cells.len())
}

/// Makes a track and recovers its cells, again and again.
fn recover_often(
    alloc: Global,
    track: Track,
    transitions: usize,
    recoveries: usize,
    cells: &mut Cells,
) -> Result<(), Memory> {
    let flux = noisy_track(alloc, track, transitions)?;
    let mut bench = Loop::new(alloc)?;
    let start = LoopStart {
        nominal: 49152,
        first: 49152,
        band: Band::about(49152),
    };
    for _ in 0..recoveries {
        recover(&flux, start, &mut bench, cells)?;
    }
    Ok(())
}

/// A track with so many transitions.
fn noisy_track(alloc: Global, track: Track, transitions: usize) -> Result<TrackFlux, Memory>
    ensures { IfOk result (λ flux. All (λ time. time ≤ 2 ^ 39) flux.times) }
{
    let mut flux = TrackFlux::new(alloc);
    let mut noise = 1u32;
    let mut last = 0u64;
    for _number in 0..transitions {
        noise = noise.wrapping_mul(1_664_525).wrapping_add(1_013_904_223);
        let next = (last + interval(track, noise)).min(LATEST);
        flux.push_time(next)?;
        last = next;
    }
    Ok(flux)
}

/// The ticks from a transition to the next, drawn by a random number: in MFM two to four cells with some noise,
/// else any length up to nine cells.
fn interval(track: Track, random: u32) -> u64
    ensures { result ≤ 1000 }
{
    let count = u64::from(random >> 16);
    let noise = u64::from(random >> 24);
    match track {
        Track::Mfm => CELL * (2 + count % 3) + noise % 7,
        Track::Unformatted => CELL * (1 + count % 8) + noise % CELL,
    }
}
