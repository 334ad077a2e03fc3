//! Recovered cells.
ghost use Rattle.std.specs.Prelude.{◌*◌, ◌^◌, ◌≤◌, All, IfOk};
ghost use Rattle.phase_loop.specs.Start.{IsStart};

use cell_bits::Cells;
use flux_base::Memory;
use index_turns::TrackFlux;
use phase_loop::{Band, Loop, LoopStart, recover};
use std::alloc::Global;

/// The latest time that the loop takes.
const LATEST: u64 = 1 << 39;

/// A nominal cell of 48 ticks, which the first period is too.
const EVEN: LoopStart = LoopStart {
    nominal: 49152,
    first: 49152,
    band: Band {
        lowest: 36864,
        highest: 61440,
    },
};

/// A track with these times, as far as they do not fall and are not too late.
fn track(alloc: Global, times: &[u64]) -> Result<TrackFlux, Memory>
    ensures { IfOk result (λ flux. All (λ time. time ≤ 2 ^ 39) flux.times) }
{
    let mut flux = TrackFlux::new(alloc);
    let mut last = 0;
    for time in times {
        let next = last.max(*time).min(LATEST);
        flux.push_time(next)?;
        last = next;
    }
    Ok(flux)
}

/// Whether the cells are a one and then the runs of these counts, and no more.
fn are_runs(cells: &Cells, counts: &[u8]) -> bool {
    let mut ones = 0u64;
    for place in 0..cells.len() {
        ones = ones.wrapping_add(cells.cell(place) as u64);
    }
    let mut place = 0usize;
    for count in counts {
        place = place.saturating_add(*count as usize);
        if place >= cells.len() {
            return false;
        }
        if !cells.cell(place) {
            return false;
        }
    }
    ones == (counts.len() as u64).wrapping_add(1) && cells.len() == place.saturating_add(1)
}

/// Whether the times give these counts.
fn gives(alloc: Global, start: LoopStart, times: &[u64], counts: &[u8]) -> Result<bool, Memory>
    requires { IsStart start }
{
    let flux = track(alloc, times)?;
    let mut bench = Loop::new(alloc)?;
    let mut cells = Cells::new(alloc);
    recover(&flux, start, &mut bench, &mut cells)?;
    Ok(are_runs(&cells, counts))
}

/// The counts that the loop gives step by step.
fn counts_of_steps(alloc: Global, start: LoopStart, times: &[u64]) -> Result<Vec<u8>, Memory>
    requires { IsStart start }
{
    let mut counts = Vec::new(alloc);
    let mut bench = Loop::new(alloc)?;
    if let Some((first, later)) = times.split_first() {
        let mut last = (*first).min(LATEST);
        bench.start(start, last);
        for time in later {
            last = last.max(*time).min(LATEST);
            counts.push(bench.step(last))?;
        }
    }
    Ok(counts)
}

/// Times of one to four cells of 48 ticks, each time up to so many ticks off.
fn noisy_times(alloc: Global, count: usize, noise: u64) -> Result<Vec<u64>, Memory>
    requires { noise ≤ 24 }
{
    let mut times = Vec::new(alloc);
    let mut random = 1u32;
    let mut even = 0u64;
    for _number in 0..count {
        random = random.wrapping_mul(1_664_525).wrapping_add(1_013_904_223);
        even = even.saturating_add(48 * (1 + u64::from(random >> 30)));
        times.push(even.saturating_add(u64::from(random >> 16) % (noise + 1)))?;
    }
    Ok(times)
}

/// So many times, each as far after the one before, the first of them 0.
fn even_times(alloc: Global, count: u64, way: u64) -> Result<Vec<u64>, Memory>
    requires { count * way ≤ 2 ^ 39 }
{
    let mut times = Vec::new(alloc);
    for number in 0..count {
        times.push(number * way)?;
    }
    Ok(times)
}

/// Appends so many times, each as far after the one before.
fn append_even(times: &mut Vec<u64>, count: u64, way: u64) -> Result<(), Memory> {
    for _number in 0..count {
        let last = times.last().copied().unwrap_or(0);
        times.push(last.saturating_add(way))?;
    }
    Ok(())
}

// 1546 ticks are 32.2 cells of 48. The place is then the mean of 32 cells and the time, so that the 68 ticks
// after it are 1.6 cells. 1594 ticks are 33.2 cells: there the loop starts anew, and 68 ticks are 1.4 cells.
#[test]
fn counts_steps(rt: HostRuntime) -> Result<(), Memory> {
    let mut bench = Loop::new(rt.alloc())?;
    bench.start(EVEN, 48);
    assert_eq!(rt; bench.step(1594), 32);
    assert_eq!(rt; bench.step(1662), 2);
    bench.start(EVEN, 48);
    assert_eq!(rt; bench.step(1642), 32);
    assert_eq!(rt; bench.step(1710), 1);
    Ok(())
}

#[test]
fn recovers_few_cells(rt: HostRuntime) -> Result<(), Memory> {
    assert!(rt; gives(rt.alloc(), EVEN, &[48, 1594, 1662], &[32, 2])?);
    assert!(rt; gives(rt.alloc(), EVEN, &[48, 1642, 1710], &[32, 1])?);

    // In fine units the places are 0, then 95346 / 2 = 47673, then 188075 / 2 = 94037 and a half, rounded
    // down: the last time, 167936, lies 1.5 periods after it to the unit, and would not if it were rounded up.
    let start = LoopStart {
        first: 49266,
        ..EVEN
    };
    assert!(rt; gives(rt.alloc(), start, &[0, 45, 89, 164], &[1, 1, 2])?);
    Ok(())
}

// The last of 200 transitions a cell apart, and then all from number 100 on 50 ticks later.
#[test]
fn recovers_a_jump(rt: HostRuntime) -> Result<(), Memory> {
    let mut times = even_times(rt.alloc(), 200, 48)?;
    let mut counts = [1u8; 199];
    assert!(rt; gives(rt.alloc(), EVEN, times.as_slice(), &counts)?);
    for time in times.iter_mut() {
        if *time >= 4800 {
            *time = time.saturating_add(50);
        }
    }
    counts[99] = 2;
    assert!(rt; gives(rt.alloc(), EVEN, times.as_slice(), &counts)?);
    Ok(())
}

// Intervals of 35 ticks lie below the band's end of 36: the place settles one tick ahead of the time, and 54
// ticks more are (2 * 53 + 36) / 72 = 1.97 periods. A period of 35 would make 143 / 70 = 2.04 of them.
#[test]
fn keeps_the_mean_in_the_band(rt: HostRuntime) -> Result<(), Memory> {
    let mut times = even_times(rt.alloc(), 101, 35)?;
    times.push(3554)?;
    assert!(rt; gives(rt.alloc(), EVEN, times.as_slice(), &[1; 101])?);
    Ok(())
}

// Intervals of 50 ticks make a period of 50. 3000 ticks are 60 of them: the loop starts anew. Then the period
// is 48 again for 64 intervals: 48 ticks are one, and 73 ticks (146 + 48) / 96 = 2.02. With the old intervals
// or the old period they would be (146 + 50) / 100 = 1.96.
#[test]
fn forgets_at_a_restart(rt: HostRuntime) -> Result<(), Memory> {
    let mut times = even_times(rt.alloc(), 101, 50)?;
    times.push(8000)?;
    times.push(8048)?;
    times.push(8121)?;
    let mut counts = [1u8; 103];
    counts[100] = 32;
    counts[102] = 2;
    assert!(rt; gives(rt.alloc(), EVEN, times.as_slice(), &counts)?);
    Ok(())
}

// The period falls from 48 ticks to the mean of 64 intervals of 40, after which 70 ticks are (2 * 69.75 + 40) / 80
// = 2.2 periods, and less than one and a half of 48. The place is a quarter of a tick ahead by then.
#[test]
fn follows_a_faster_track(rt: HostRuntime) -> Result<(), Memory> {
    let mut times = even_times(rt.alloc(), 101, 48)?;
    append_even(&mut times, 64, 40)?;
    append_even(&mut times, 1, 70)?;
    append_even(&mut times, 1, 40)?;
    let mut counts = [1u8; 166];
    counts[164] = 2;
    assert!(rt; gives(rt.alloc(), EVEN, times.as_slice(), &counts)?);
    Ok(())
}

// The same the other way: 62 ticks are (2 * 62.25 + 48) / 96 = 1.8 periods of 48, and more than one and a half of 40.
#[test]
fn follows_a_slower_track(rt: HostRuntime) -> Result<(), Memory> {
    let mut times = even_times(rt.alloc(), 101, 40)?;
    append_even(&mut times, 64, 48)?;
    append_even(&mut times, 1, 62)?;
    append_even(&mut times, 1, 48)?;
    assert!(rt; gives(rt.alloc(), EVEN, times.as_slice(), &[1; 166])?);
    Ok(())
}

// A stretch of 512 ends at transition 576, amid the 64 intervals of 40 ticks that make a period of 40. 62 ticks
// are then (2 * 61.75 + 40) / 80 = 2.04 periods; with any of the older intervals but a few they would be less than 2.
#[test]
fn goes_on_behind_a_stretch(rt: HostRuntime) -> Result<(), Memory> {
    let mut times = even_times(rt.alloc(), 541, 48)?;
    append_even(&mut times, 64, 40)?;
    append_even(&mut times, 1, 62)?;
    let mut counts = [1u8; 605];
    counts[604] = 2;
    assert!(rt; gives(rt.alloc(), EVEN, times.as_slice(), &counts)?);

    let just_one = even_times(rt.alloc(), 577, 48)?;
    assert!(rt; gives(rt.alloc(), EVEN, just_one.as_slice(), &[1; 576])?);
    let one_more = even_times(rt.alloc(), 578, 48)?;
    assert!(rt; gives(rt.alloc(), EVEN, one_more.as_slice(), &[1; 577])?);
    Ok(())
}

// 64 pulses half a cell apart pull the mean to the band's lower end of 36 ticks, where intervals of 96 are two and
// three cells by turns. Where the first period is held they are two of 48 each, as before the burst.
#[test]
fn a_held_period_reads_on_behind_a_burst(rt: HostRuntime) -> Result<(), Memory> {
    let mut times = even_times(rt.alloc(), 101, 96)?;
    append_even(&mut times, 64, 24)?;
    append_even(&mut times, 100, 96)?;
    let mut counts = [2u8; 264];
    for count in counts[100..164].iter_mut() {
        *count = 1;
    }
    assert!(rt; gives(rt.alloc(), EVEN.held(), &times, &counts)?);
    assert!(rt; !gives(rt.alloc(), EVEN, &times, &counts)?);
    Ok(())
}

// Four cells at a time, each transition six ticks early and the last one six ticks late, where a period of 42240 is
// held, 55 64ths of the nominal cell. At a local period of 43264, a 48th of the nominal cell more, the last four are
// four still; at 43520, a 38th more, they are counted as five. The times are the ideal ones from tick 20 on, 4 * 43264
// / 1024 = 169 ticks or 170 apart.
#[test]
fn a_held_period_bears_a_steady_speed(rt: HostRuntime) -> Result<(), Memory> {
    let slow = LoopStart {
        first: 42240,
        ..EVEN
    };
    let steady = [14u64, 183, 352, 521, 690, 871];
    assert!(rt; gives(rt.alloc(), slow.held(), &steady, &[4; 5])?);
    let faster = [14u64, 184, 354, 524, 694, 876];
    assert!(rt; gives(rt.alloc(), slow.held(), &faster, &[4, 4, 4, 4, 5])?);
    Ok(())
}

// The more noise, the more guesses are wrong: with 24 ticks an interval is up to half a cell off.
#[test]
fn a_stretch_is_steps(rt: HostRuntime) -> Result<(), Memory> {
    for noise in [0u64, 6, 18, 24] {
        let times = noisy_times(rt.alloc(), 3000, noise)?;
        let counts = counts_of_steps(rt.alloc(), EVEN, &times)?;
        assert!(rt; gives(rt.alloc(), EVEN, &times, &counts)?, "{noise}");
    }
    Ok(())
}

// 1024 * 4805468 / 100000 = 49207.99; the band of 49208 goes from 36906 to 61510.
#[test]
fn starts_at_a_turns_mean(rt: HostRuntime) {
    for (turn, first) in [(4805468, 49207), (3603000, 36906), (6008000, 61510)] {
        assert_eq!(rt; LoopStart::for_turn(49208, turn, 100000).first, first);
    }
}
