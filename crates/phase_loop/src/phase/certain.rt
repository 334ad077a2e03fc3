//! Stretches whose counts are certain before any place is followed.
//!
//! With each transition the distance from the loop's place to the transition's time is halved, and the interval to the
//! next one is added. Where each interval is nearly a whole number of cells of one period, and the mean cell of each 64
//! of them nearly that period, the place is never far from the times, and each count is the nearest whole number. And
//! what the place was at first is soon forgotten: followed from both ends of where it may lie, it is one after some
//! transitions, and this is the place.
ghost use Rattle.std.specs.Prelude.{◌≡◌, ℕ, ◌+◌, ◌-◌, ◌*◌, ◌^◌, ◌<◌, ◌≤◌, length, take, slice_index, IfSome};
ghost use Rattle.std.specs.List.Sorted.{IsNonDecreasing};
ghost use Rattle.std.specs.List.{All};
ghost use Rattle.phase_loop.specs.inside.Stretch.{counts_of, AreBetween, AreGuessed, TakesRuns};
ghost use Rattle.phase_loop.specs.inside.Certain.{AreCertain, AreSums, IsAbout, IsCertain, IsDrift, IsEarliest, IsIn};
ghost use Rattle.phase_loop.specs.inside.Certain.{IsReach, IsRemainder, AreTicks, cells_in, low_difference, stand_at};

use super::stretch::Stand;
use super::{LONGEST, Loop};
use crate::start::{Band, FINE_PER_TICK};
use crate::window::{INTERVALS, STRETCH};
use cell_bits::longest_run;

/// The intervals of the window and those of a stretch.
const SPAN: usize = INTERVALS + STRETCH;

/// The sums of none, of the first, and so on.
const SUMS: usize = SPAN + 1;

/// A stretch with fewer transitions is followed from one to the next.
const LEAST: usize = 128;

/// How many of the last transitions of a stretch are followed from both ends.
const SETTLING: usize = 32;

/// What an interval of just so many cells as are counted has as its remainder, in periods.
const WHOLE: u32 = LONGEST as u32;

/// The same of the intervals of a window together.
const WHOLE_WINDOW: u32 = INTERVALS as u32 * WHOLE;

/// The intervals of a window and a stretch take fewer ticks, so that all numbers fit.
const MOST_TICKS: u64 = 1 << 21;

/// The least and the greatest of some numbers.
#[derive(Clone, Copy, Debug, PartialEq, Eq)]
pub struct Extent {
    pub least: u32,
    pub most: u32,
}

impl Loop {
    /// The stand after a stretch, where its guesses are certain. None says only that they are not certain. The ticks of
    /// the intervals, those of the window first, are used up.
    pub(super) fn take_certain(
        &self,
        times: &[u64],
        last: usize,
        most: usize,
        ticks: &mut [u32; SPAN],
        counts: &[u8; SPAN],
    ) -> Option<Stand>
        requires rising { IsNonDecreasing times.now }
        requires within { All (λ time. time ≤ 2 ^ 39) times.now }
        requires inside { last + most < length times.now }
        requires most { most ≤ 2048 }
        requires here { self.now.fine ≡ 1024 * slice_index times.now last }
        requires full { length self.now.recent ≡ 64 }
        requires window { AreBetween times.now last self.now.recent }
        requires counts { take 64 counts.now ≡ counts_of self.now.recent }
        requires ticks { AreTicks times.now (last - 64) (64 + most) ticks.old }
        requires guesses { AreGuessed most counts.now }
        ensures stretch { IfSome result (λ stand. TakesRuns times.now last most self.now stand counts.now) }
    {
        if most < LEAST {
            return None;
        }
        let reach = self.reach(times, last, most, ticks, counts)?;
        self.settle(times, last, most, counts, reach)
    }

    /// How far the place is from the times at most, where the guesses are certain.
    fn reach(
        &self,
        times: &[u64],
        last: usize,
        most: usize,
        ticks: &mut [u32; SPAN],
        counts: &[u8; SPAN],
    ) -> Option<u64>
        requires rising { IsNonDecreasing times.now }
        requires within { All (λ time. time ≤ 2 ^ 39) times.now }
        requires inside { last + most < length times.now }
        requires most { most ≤ 2048 }
        requires here { self.now.fine ≡ 1024 * slice_index times.now last }
        requires full { length self.now.recent ≡ 64 }
        requires window { AreBetween times.now last self.now.recent }
        requires counts { take 64 counts.now ≡ counts_of self.now.recent }
        requires ticks { AreTicks times.now (last - 64) (64 + most) ticks.old }
        requires guesses { AreGuessed most counts.now }
        ensures certain { IfSome result (λ reach. AreCertain times.now last most self.now counts.now reach) }
        ensures near { IfSome result (λ reach. reach ≤ 163840) }
    {
        let first = last - INTERVALS;
        if times[last + most] - times[first] >= MOST_TICKS {
            return None;
        }
        let stand = self.stand();
        let period = stand.period as u32;
        let span = INTERVALS + most;
        let extent = make_remainders(ticks, counts, period, span);
        let off = extent.spread(WHOLE * period);
        if off > period / 4 {
            return None;
        }
        let fine = FINE_PER_TICK * times[last];
        let longest = longest_run(&counts[INTERVALS..span]);
        let drift = self.drift(stand, fine, off, longest, ticks, most);
        self.reach_by(stand, fine, off, longest, drift)
    }

    /// How far the mean cell of each window of a stretch is at most from the period of its begin, by the remainders of
    /// the intervals. No mean is further off than the intervals are. Where that is near enough no sums are looked at.
    fn drift(
        &self,
        stand: Stand,
        fine: u64,
        off: u32,
        longest: u8,
        remainders: &[u32; SPAN],
        most: usize,
    ) -> u32
        requires fine { fine ≤ 2 ^ 49 }
        requires place { stand.place ≤ 2 ^ 50 }
        requires period { stand.period ≤ 163840 }
        requires off { 4 * off ≤ stand.period }
        requires most { most ≤ 2048 }
        requires near { (place : ℕ) → place < 64 + most
            → IsAbout (slice_index remainders.now place) (32 * stand.period) off }
        ensures { IsDrift remainders.now most stand.period result }
    {
        if self.reach_by(stand, fine, off, longest, off).is_some() {
            return off;
        }
        drift_by_sums(remainders, most, stand.period as u32)
    }

    /// How far the place is from the times at most, where each interval has so many cells at most and is off by so much,
    /// and each mean by so much, if no count but the nearest can then be the rule's.
    fn reach_by(&self, stand: Stand, fine: u64, off: u32, longest: u8, drift: u32) -> Option<u64>
        requires fine { fine ≤ 2 ^ 49 }
        requires place { stand.place ≤ 2 ^ 50 }
        ensures reach { IfSome result (IsReach self.now.band stand.period stand.place fine off longest drift) }
    {
        let lowest = u64::from(self.start.band.lowest);
        let highest = u64::from(self.start.band.highest);
        if stand.period < lowest || highest < stand.period {
            return None;
        }
        // A period in the band is no further off than the ends of the band.
        let most = (stand.period - lowest).max(highest - stand.period);
        let drift = u64::from(drift).min(most);
        let reach = (u64::from(off) + u64::from(longest) * drift + 1).max(fine.abs_diff(
            stand.place,
        ));
        if 4 * reach + drift > stand.period {
            return None;
        }
        Some(reach)
    }

    /// The stand after a stretch whose counts are certain, if all places that it may have before its
    /// last transitions come to one.
    fn settle(
        &self,
        times: &[u64],
        last: usize,
        most: usize,
        counts: &[u8; SPAN],
        reach: u64,
    ) -> Option<Stand>
        requires rising { IsNonDecreasing times.now }
        requires within { All (λ time. time ≤ 2 ^ 39) times.now }
        requires inside { last + most < length times.now }
        requires least { 128 ≤ most }
        requires most { most ≤ 2048 }
        requires guesses { AreGuessed most counts.now }
        requires certain { AreCertain times.now last most self.now counts.now reach }
        requires near { reach ≤ 163840 }
        ensures stretch { IfSome result (λ stand. TakesRuns times.now last most self.now stand counts.now) }
    {
        let band = self.start.band;
        let begin = most - SETTLING;
        let mut early = self.earliest(times, last, begin, counts, reach);
        let mut late = Stand {
            place: early.place + 2 * reach,
            period: early.period,
            count: early.count,
        };
        for taken in begin..most {
            let number = last + taken + 1;
            let fine = FINE_PER_TICK * times[number];
            let count = u64::from(counts[INTERVALS + taken]);
            let length = count * early.period;
            let total = early.count - u64::from(counts[taken]) + count;
            let ticks = times[number] - times[number - INTERVALS];
            let mean = self.window.mean_of(ticks, total);
            early = Stand::behind(band, early.place + length, fine, total, mean);
            late = Stand::behind(band, late.place + length, fine, total, mean);
        }
        if early.place < late.place {
            return None;
        }
        Some(early)
    }

    /// The stand with the earliest place that it may have after so many transitions of a
    /// stretch whose counts are certain.
    fn earliest(
        &self,
        times: &[u64],
        last: usize,
        taken: usize,
        counts: &[u8; SPAN],
        reach: u64,
    ) -> Stand
        requires rising { IsNonDecreasing times.now }
        requires within { All (λ time. time ≤ 2 ^ 39) times.now }
        requires inside { last + taken < length times.now }
        requires some { 1 ≤ taken }
        requires most { taken ≤ 2048 }
        requires certain { IsCertain times.now last taken self.now counts.now reach }
        requires near { reach ≤ 163840 }
        ensures { IsEarliest (stand_at times.now last self.now counts.now taken) reach result }
    {
        let number = last + taken;
        let ticks = times[number] - times[number - INTERVALS];
        let count = cells_of(&counts[taken..taken + INTERVALS]);
        let mean = self.window.mean_of(ticks, count);
        Stand {
            place: (FINE_PER_TICK * times[number]).saturating_sub(reach),
            period: self.start.band.keep(mean),
            count,
        }
    }
}

impl Extent {
    /// How far the numbers are from this one at most.
    fn spread(self, middle: u32) -> u32
        ensures { (n : ℕ) → IsIn self n → (n ≤ middle + result) × (middle ≤ n + result) }
    {
        middle
            .saturating_sub(self.least)
            .max(self.most.saturating_sub(middle))
    }

    /// With one number more.
    fn with(self, number: u32) -> Extent
        ensures more { IsIn result number }
        ensures kept { (n : ℕ) → IsIn self n → IsIn result n }
    {
        Extent {
            least: self.least.min(number),
            most: self.most.max(number),
        }
    }
}

/// The extent of no numbers.
const NONE: Extent = Extent {
    least: u32::MAX,
    most: 0,
};

/// Puts the lengths in ticks of so many intervals, from a transition on. Of one of 2^32 ticks
/// or more it is the low 32 bits.
pub(super) fn put_ticks(times: &[u64], first: usize, many: usize, ticks: &mut [u32; SPAN])
    requires rising { IsNonDecreasing times.now }
    requires inside { first + many < length times.now }
    requires many { many ≤ 2112 }
    ensures { AreTicks times.now first many ticks.new }
{
    for place in 0..many {
        let length = times[first + place + 1] - times[first + place];
        ticks[place] = (length % (1 << 32)) as u32;
    }
}

/// Makes the lengths of so many intervals, in ticks, their remainders, and gives the extent of these.
fn make_remainders(ticks: &mut [u32; SPAN], counts: &[u8; SPAN], period: u32, many: usize) -> Extent
    requires many { many ≤ 2112 }
    requires ticks { (place : ℕ) → place < many → slice_index ticks.old place < 2 ^ 21 }
    requires counts { (place : ℕ) → place < many → slice_index counts.now place ≤ 32 }
    requires period { period ≤ 163840 }
    ensures remainders { (place : ℕ) → place < many
        → IsRemainder (slice_index ticks.old place) (slice_index counts.now place) period
        (slice_index ticks.new place) }
    ensures extent { (place : ℕ) → place < many → IsIn result (slice_index ticks.new place) }
{
    let mut extent = NONE;
    for place in 0..many {
        let cells = WHOLE - u32::from(counts[place]);
        let remainder = 1024 * ticks[place] + cells * period;
        ticks[place] = remainder;
        extent = extent.with(remainder);
    }
    extent
}

/// How far the mean cell of each window of a stretch is from the period at most, by the sums of the remainders.
fn drift_by_sums(remainders: &[u32; SPAN], most: usize, period: u32) -> u32
    requires most { most ≤ 2048 }
    requires period { period ≤ 163840 }
    requires small { (place : ℕ) → place < 64 + most → slice_index remainders.now place ≤ 5406720 }
    ensures { IsDrift remainders.now most period result }
{
    let mut sums = [0; SUMS];
    put_sums(remainders, INTERVALS + most, &mut sums);
    let windows = windows_extent(&sums, most);
    windows.spread(WHOLE_WINDOW * period) / 64 + 1
}

/// Puts the sums of the first so many numbers, the sum of none first, of each the low 32 bits.
fn put_sums(numbers: &[u32; SPAN], many: usize, sums: &mut [u32; SUMS])
    requires many { many ≤ 2112 }
    requires none { slice_index sums.old 0 ≡ 0 }
    ensures { AreSums numbers.now sums.new many }
{
    let mut sum: u32 = 0;
    for place in 0..many {
        sum = sum.wrapping_add(numbers[place]);
        sums[place + 1] = sum;
    }
}

/// The extent of the sums of 64 numbers in a row, from each of the first places up to this one on.
fn windows_extent(sums: &[u32; SUMS], most: usize) -> Extent
    requires most { most ≤ 2048 }
    ensures { (place : ℕ) → place ≤ most
        → IsIn result (low_difference (slice_index sums.now (place + 64)) (slice_index sums.now place)) }
{
    let mut extent = NONE;
    for place in 0..most + 1 {
        extent = extent.with(sums[place + INTERVALS].wrapping_sub(sums[place]));
    }
    extent
}

/// How many cells the intervals of a window have together.
fn cells_of(counts: &[u8]) -> u64
    requires { length counts.now ≡ 64 }
    ensures { result ≡ cells_in counts.now }
{
    let mut cells = 0;
    for place in 0..INTERVALS {
        cells += u64::from(counts[place]);
    }
    cells
}
