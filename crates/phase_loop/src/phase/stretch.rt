//! The loop's hot path: stretches of transitions that lie close to one another.
ghost use Rattle.std.specs.Prelude.{◌≡◌, ℕ, ◌+◌, ◌-◌, ◌*◌, ◌/◌, ◌^◌, ◌<◌, ◌≤◌, max, length, take, drop, slice_index};
ghost use Rattle.std.specs.Prelude.{All, IfOk, IfSome, IsOk, OnErr, IsTrue, ◌↔◌};
ghost use Rattle.std.specs.List.Sorted.{IsNonDecreasing};
ghost use Rattle.cell_bits.specs.State.{room};
ghost use Rattle.cell_bits.specs.Run.{IsRun};
ghost use Rattle.circular_buffer.specs.Buffer.{buffer};
ghost use Rattle.phase_loop.specs.inside.Window.{IsShort, IsWindow, fine_total};
ghost use Rattle.phase_loop.specs.inside.Certain.{AreTicks};
ghost use Rattle.phase_loop.specs.inside.Stretch.{intervals_with, counts_of, stand_next, AreBetween, AreGuessed};
ghost use Rattle.phase_loop.specs.inside.Stretch.{Carries, IsStretch, TakesRuns};

use super::Loop;
use super::certain::put_ticks;
use super::guess::Guess;
use crate::start::{Band, FINE_PER_TICK};
use crate::window::{INTERVALS, Interval, STRETCH, Totals};
use cell_bits::Cells;
use flux_base::Memory;

/// A stretch of fewer transitions is short: what is done before and after it takes longer than it saves.
const SHORT_STRETCH: usize = 128;

/// How many transitions no stretch is tried after a short one.
const PAUSE: usize = 256;

/// A stretch of fewer transitions ended at once, as on a track without a format.
const NO_STRETCH: usize = 16;

/// How many transitions no stretch is tried after one that ended at once.
const LONG_PAUSE: usize = 1024;

/// What a step of a loop with a full window changes, without the intervals: few enough numbers to stay in the
/// processor's registers.
#[derive(Clone, Copy, Debug, PartialEq, Eq)]
pub struct Stand {
    /// The place where the loop expects the clock.
    pub place: u64,
    /// The length of a cell.
    pub period: u64,
    /// The length of the window in cells.
    pub count: u64,
}

impl Loop {
    /// Takes the next of a track's transitions and appends their cells, if the window is full and the last stretch was
    /// not a short one just now: as many as a stretch has, up to the first with more than 32 cells. `last` is the number
    /// of the transition at which the loop stands, and the answer that of the one at which it stands then.
    pub(crate) fn follow(
        &mut self,
        times: &[u64],
        last: usize,
        cells: &mut Cells,
    ) -> Result<usize, Memory>
        requires rising { IsNonDecreasing times.now }
        requires within { All (λ time. time ≤ 2 ^ 39) times.now }
        requires last { last < length times.now }
        requires here { self.old.fine ≡ 1024 * slice_index times.now last }
        requires window { length self.old.recent ≡ 64 → AreBetween times.now last self.old.recent }
        requires short { length cells.old.cells ≤ 32 * last + 1 }
        ensures forward { IfOk result (λ next. last ≤ next) }
        ensures inside { IfOk result (λ next. next < length times.now) }
        ensures carries { IfOk result (λ next. Carries times.now last next self.old self.new cells.old cells.new) }
        ensures kept { OnErr result (self.new ≡ self.old) }
        ensures room { room cells.old ≤ room cells.new }
        ensures succeeds { 32 * length times.now ≤ room cells.old → IsOk result }
    {
        if last < self.next_stretch || !self.window.is_full() {
            return Ok(last);
        }
        self.follow_stretch(times, last, cells)
    }

    /// What `follow` does where it tries a stretch. A call, so that a transition with no stretch does
    /// not wait for the row of counts.
    #[inline(never)]
    fn follow_stretch(
        &mut self,
        times: &[u64],
        last: usize,
        cells: &mut Cells,
    ) -> Result<usize, Memory>
        requires rising { IsNonDecreasing times.now }
        requires within { All (λ time. time ≤ 2 ^ 39) times.now }
        requires last { last < length times.now }
        requires here { self.old.fine ≡ 1024 * slice_index times.now last }
        requires full { length self.old.recent ≡ 64 }
        requires window { AreBetween times.now last self.old.recent }
        requires short { length cells.old.cells ≤ 32 * last + 1 }
        ensures forward { IfOk result (λ next. last ≤ next) }
        ensures inside { IfOk result (λ next. next < length times.now) }
        ensures carries { IfOk result (λ next. Carries times.now last next self.old self.new cells.old cells.new) }
        ensures kept { OnErr result (self.new ≡ self.old) }
        ensures room { room cells.old ≤ room cells.new }
        ensures succeeds { 32 * length times.now ≤ room cells.old → IsOk result }
    {
        let mut counts = [0; INTERVALS + STRETCH];
        self.window.put_counts(&mut counts);
        let (stand, next, certain) = self.stretch(times, last, &mut counts, cells)?;
        let taken = next - last;
        let recent = intervals_to(times, next, &counts[taken..taken + INTERVALS]);
        let fine = FINE_PER_TICK * times[next];
        let totals = Totals {
            fine: fine - FINE_PER_TICK * times[next - INTERVALS],
            count: stand.count,
        };
        self.window.replace(&recent, totals);
        self.fine = fine;
        self.place = stand.place;
        self.period = stand.period;
        self.next_stretch = next_stretch_behind(next, taken);
        self.doubt = self.doubt.after(last, next, certain);
        Ok(next)
    }

    /// The stretch of `follow_stretch`, and whether it was certain. The first of `counts` are those of the window, and
    /// the stretch puts its own after them.
    fn stretch(
        &self,
        times: &[u64],
        last: usize,
        counts: &mut [u8; INTERVALS + STRETCH],
        cells: &mut Cells,
    ) -> Result<(Stand, usize, bool), Memory>
        requires rising { IsNonDecreasing times.now }
        requires within { All (λ time. time ≤ 2 ^ 39) times.now }
        requires last { last < length times.now }
        requires here { self.now.fine ≡ 1024 * slice_index times.now last }
        requires full { length self.now.recent ≡ 64 }
        requires window { AreBetween times.now last self.now.recent }
        requires counts { take 64 counts.old ≡ counts_of self.now.recent }
        requires short { length cells.old.cells ≤ 32 * last + 1 }
        ensures most { IfOk result (λ r. r.1 ≤ last + 2048) }
        ensures stretch { IfOk result
            (λ r.
            IsStretch times.now last r.1 self.now r.0 (drop (r.1 - last) (take (64 + (r.1 - last)) counts.new))
            cells.old cells.new) }
        ensures room { room cells.old ≤ room cells.new }
        ensures succeeds { 32 * length times.now ≤ room cells.old → IsOk result }
    {
        let most = self.doubt.longest_stretch(last).min(times.len() - 1 - last);
        let mut ticks = [0; INTERVALS + STRETCH];
        put_ticks(times, last - INTERVALS, INTERVALS + most, &mut ticks);
        Guess::by(self.period).put_counts(
            &ticks[INTERVALS..INTERVALS + most],
            &mut counts[INTERVALS..INTERVALS + most],
        );
        let (stand, taken, certain) = self.take_counts(times, last, most, &mut ticks, counts);
        cells.push_runs(&counts[INTERVALS..INTERVALS + taken])?;
        Ok((stand, last + taken, certain))
    }

    /// Takes the transitions of a stretch, whose counts are guessed: all of them where they are certain,
    /// and else one after another. The answer is the stand at the last that it takes, how many they are,
    /// and whether they were certain.
    fn take_counts(
        &self,
        times: &[u64],
        last: usize,
        most: usize,
        ticks: &mut [u32; INTERVALS + STRETCH],
        counts: &mut [u8; INTERVALS + STRETCH],
    ) -> (Stand, usize, bool)
        requires rising { IsNonDecreasing times.now }
        requires within { All (λ time. time ≤ 2 ^ 39) times.now }
        requires inside { last + most < length times.now }
        requires most { most ≤ 2048 }
        requires here { self.now.fine ≡ 1024 * slice_index times.now last }
        requires full { length self.now.recent ≡ 64 }
        requires window { AreBetween times.now last self.now.recent }
        requires counts { take 64 counts.old ≡ counts_of self.now.recent }
        requires ticks { AreTicks times.now (last - 64) (64 + most) ticks.old }
        requires guesses { AreGuessed most counts.old }
        ensures most { result.1 ≤ most }
        ensures guesses { AreGuessed most counts.new }
        ensures stretch { TakesRuns times.now last result.1 self.now result.0 counts.new }
    {
        if !self.doubt.lasts(last) {
            if let Some(stand) = self.take_certain(times, last, most, ticks, counts) {
                return (stand, most, true);
            }
        }
        let (stand, taken) = self.take_guesses(times, last, most, counts);
        (stand, taken, false)
    }

    /// Takes the transitions of a stretch one after another, and puts right a count that is guessed wrong.
    fn take_guesses(
        &self,
        times: &[u64],
        last: usize,
        most: usize,
        counts: &mut [u8; INTERVALS + STRETCH],
    ) -> (Stand, usize)
        requires rising { IsNonDecreasing times.now }
        requires within { All (λ time. time ≤ 2 ^ 39) times.now }
        requires inside { last + most < length times.now }
        requires most { most ≤ 2048 }
        requires here { self.now.fine ≡ 1024 * slice_index times.now last }
        requires full { length self.now.recent ≡ 64 }
        requires window { AreBetween times.now last self.now.recent }
        requires counts { take 64 counts.old ≡ counts_of self.now.recent }
        requires guesses { AreGuessed most counts.old }
        ensures most { result.1 ≤ most }
        ensures guesses { AreGuessed most counts.new }
        ensures stretch { TakesRuns times.now last result.1 self.now result.0 counts.new }
    {
        let band = self.start.band;
        let mut stand = self.stand();
        for taken in 0..most {
            let number = last + taken + 1;
            let fine = FINE_PER_TICK * times[number];
            let guess = counts[INTERVALS + taken];
            let Some((count, ahead)) = stand.near(fine, guess) else {
                return (stand, taken);
            };
            let ticks = times[number] - times[number - INTERVALS];
            let total = stand.count - u64::from(counts[taken]) + count;
            counts[INTERVALS + taken] = count as u8;
            let mean = self.window.mean_of(ticks, total);
            stand = Stand::behind(band, ahead, fine, total, mean);
        }
        (stand, most)
    }

    pub(super) fn stand(&self) -> Stand
        ensures place { (result.place ≡ self.now.place) × (result.period ≡ self.now.period) }
        ensures window { IsWindow (buffer self.now.recent 64) (fine_total self.now.recent) result.count }
        ensures bounds { (result.place ≤ self.now.fine + 163840) × (12288 ≤ result.period) × (result.period ≤ 163840) }
    {
        Stand {
            place: self.place,
            period: self.period,
            count: self.window.cells(),
        }
    }
}

/// From which transition on a stretch is tried again, where the last one took so many and ended at this one. A
/// short one is a sign of noise.
fn next_stretch_behind(last: usize, taken: usize) -> usize {
    let pause = match taken {
        0..NO_STRETCH => LONG_PAUSE,
        NO_STRETCH..SHORT_STRETCH => PAUSE,
        _ => 0,
    };
    last.saturating_add(pause)
}

/// The 64 intervals up to a transition, by their counts.
fn intervals_to(times: &[u64], last: usize, counts: &[u8]) -> [Interval; INTERVALS]
    requires enough { 64 ≤ last }
    requires last { last < length times.now }
    requires rising { IsNonDecreasing times.now }
    requires within { All (λ time. time ≤ 2 ^ 39) times.now }
    requires counts { length counts.now ≡ 64 }
    requires short { All IsShort (intervals_with times.now (last - 64) counts.now) }
    ensures { result ≡ intervals_with times.now (last - 64) counts.now }
{
    let first = last - INTERVALS;
    let mut intervals = [Interval { fine: 0, count: 0 }; INTERVALS];
    for place in 0..INTERVALS {
        let begin = FINE_PER_TICK * times[first + place];
        let end = FINE_PER_TICK * times[first + place + 1];
        intervals[place] = Interval {
            fine: (end - begin) as u32,
            count: u32::from(counts[place]),
        };
    }
    intervals
}

impl Stand {
    /// The count of cells to a time, if it is no more than 32, and the place to which it leads: the guess, where
    /// that is right.
    fn near(self, fine: u64, guess: u8) -> Option<(u64, u64)>
        requires fine { fine ≤ 2 ^ 49 }
        requires place { self.place ≤ 2 ^ 50 }
        requires shortest { 1 ≤ self.period }
        requires longest { self.period ≤ 163840 }
        requires guess { IsRun guess }
        ensures count { IfSome result (λ r. r.0 ≡ max 1 ((2 * (fine - self.place) + self.period) / (2 * self.period))) }
        ensures ahead { IfSome result (λ r. r.1 ≡ self.place + r.0 * self.period) }
        ensures near { IfSome result (λ r. 2 * (fine - self.place) < 65 * self.period) }
        ensures few { IfSome result (λ r. r.0 ≤ 32) }
    {
        let count = u64::from(guess);
        let ahead = self.place + count * self.period;
        if is_nearest(ahead, fine, self.period) {
            return Some((count, ahead));
        }
        let count = count_of_run(fine.saturating_sub(self.place), self.period)?;
        Some((count, self.place + count * self.period))
    }

    /// The stand at the next transition, where the cells to it put it at the place ahead, and the window gets this
    /// total of cells and this mean.
    pub(super) fn behind(band: Band, ahead: u64, fine: u64, total: u64, mean: u64) -> Stand
        requires fine { fine ≤ 2 ^ 49 }
        requires ahead { ahead ≤ 2 ^ 51 }
        ensures { (stand : Stand) (count : ℕ) → ahead ≡ stand.place + count * stand.period
            → result ≡ stand_next band stand fine count total mean }
    {
        Stand {
            place: (ahead + fine) / 2,
            period: band.keep(mean),
            count: total,
        }
    }
}

/// How many periods lie in a way, to the nearest, and at least one, where they are at most 32.
fn count_of_run(way: u64, period: u64) -> Option<u64>
    requires way { way ≤ 2 ^ 50 }
    requires shortest { 1 ≤ period }
    requires longest { period ≤ 163840 }
    ensures count { IfSome result (λ count. count ≡ max 1 ((2 * way + period) / (2 * period))) }
    ensures near { IfSome result (λ count. 2 * way < 65 * period) }
    ensures few { IfSome result (λ count. count ≤ 32) }
{
    if 2 * way >= 65 * period {
        return None;
    }
    let count = (2 * way + period) as u32 / (2 * period) as u32;
    Some(u64::from(count.max(1)))
}

/// Whether a time is no further from a place to which a count of cells leads than half a period, so that no other count
/// is as near.
fn is_nearest(ahead: u64, fine: u64, period: u64) -> bool
    requires ahead { ahead ≤ 2 ^ 51 }
    requires fine { fine ≤ 2 ^ 49 }
    requires period { period ≤ 163840 }
    ensures { IsTrue result ↔ (2 * ahead ≤ 2 * fine + period) × (2 * fine < 2 * ahead + period) }
{
    // Where the place is too far ahead, the difference wraps round, far above twice the period.
    (2 * fine + period).wrapping_sub(2 * ahead) < 2 * period
}
