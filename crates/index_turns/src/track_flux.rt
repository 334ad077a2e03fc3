ghost use Rattle.std.specs.Prelude.{◌≡◌, ℕ, ◌+◌, ◌*◌, ◌-◌, ◌^◌, ◌<◌, ◌≤◌, [], ◌∷◌, ◌++◌, length, take, All, IfOk, OnOk};
ghost use Rattle.std.specs.Prelude.{OnErr, IsOk, vec_len};
ghost use Rattle.std.specs.List.{sum};
ghost use Rattle.std.specs.List.Sorted.{IsNonDecreasing, IsStrictlyIncreasing};
ghost use Rattle.std.specs.Vec.{vec_capacity};
ghost use Rattle.index_turns.specs.Track.{KeepsRoom, room_of_times, times_after, turn_at, turn_length};

use flux_base::Memory;
use std::alloc::Global;
use std::marker::Model;
use std::mem;

/// What was captured of one track: the times of the transitions, which never fall from one to the next,
/// and the index times, which rise strictly. All are in ticks.
///
/// Contracts see besides how many more of each fit without taking memory.
#[derive(Drop)]
pub struct TrackFlux {
    times: Vec<u64>,
    indexes: Vec<u64>,
}

impl Model for TrackFlux {
    ghost use Rattle.std.specs.Prelude.{◌-◌, vec_len};
    ghost use Rattle.std.specs.Vec.{vec_capacity};
    ghost use Rattle.std.specs.List.Sorted.{IsNonDecreasing, IsStrictlyIncreasing};
    ghost use Rattle.index_turns.specs.Track.{TrackState};

    ghost Value = { TrackState };

    ghost view = { λ t. record {
      times = t.times.items;
      indexes = t.indexes.items;
      spare_times = vec_capacity t.times - vec_len t.times;
      spare_indexes = vec_capacity t.indexes - vec_len t.indexes;
    } };

    ghost invariant = { λ t. IsNonDecreasing t.times.items × IsStrictlyIncreasing t.indexes.items };
}

impl TrackFlux {
    /// A track without transitions and without turns.
    pub fn new(alloc: Global) -> TrackFlux
        ensures times { result.times ≡ [] }
        ensures indexes { result.indexes ≡ [] }
    {
        TrackFlux {
            times: Vec::new(alloc),
            indexes: Vec::new(alloc),
        }
    }

    /// Makes room for so many more times and index times.
    pub fn reserve(&mut self, times: usize, indexes: usize) -> Result<(), Memory>
        ensures times { self.new.times ≡ self.old.times }
        ensures indexes { self.new.indexes ≡ self.old.indexes }
        ensures room { KeepsRoom self.old self.new }
        ensures spare_times { OnOk result (times ≤ self.new.spare_times) }
        ensures spare_indexes { OnOk result (indexes ≤ self.new.spare_indexes) }
    {
        self.times.try_reserve(times)?;
        self.indexes.try_reserve(indexes)?;
        Ok(())
    }

    /// Makes room for so many more times.
    pub fn reserve_times(&mut self, count: usize) -> Result<(), Memory>
        ensures times { self.new.times ≡ self.old.times }
        ensures indexes { self.new.indexes ≡ self.old.indexes }
        ensures room { KeepsRoom self.old self.new }
        ensures spare { OnOk result (count ≤ self.new.spare_times) }
        ensures spare_indexes { self.new.spare_indexes ≡ self.old.spare_indexes }
        ensures succeeds { count ≤ self.old.spare_times → IsOk result }
        ensures err { OnErr result (self.new ≡ self.old) }
    {
        self.times.try_reserve(count)?;
        Ok(())
    }

    /// Appends the time of a transition, in ticks.
    pub fn push_time(&mut self, time: u64) -> Result<(), Memory>
        requires { All (λ earlier. earlier ≤ time) self.old.times }
        ensures times { OnOk result (self.new.times ≡ self.old.times ++ time ∷ []) }
        ensures indexes { self.new.indexes ≡ self.old.indexes }
        ensures room { KeepsRoom self.old self.new }
        ensures spare { OnOk result (self.old.spare_times ≤ self.new.spare_times + 1) }
        ensures spare_indexes { self.new.spare_indexes ≡ self.old.spare_indexes }
        ensures succeeds { 0 < self.old.spare_times → IsOk result }
        ensures err { OnErr result (self.new ≡ self.old) }
    {
        self.times.try_reserve(1)?;
        self.push_reserved(time);
        Ok(())
    }

    /// Appends the time of a transition, in ticks, for which there is room.
    #[inline(always)]
    pub fn push_reserved(&mut self, time: u64)
        requires order { All (λ earlier. earlier ≤ time) self.old.times }
        requires room { 0 < self.old.spare_times }
        ensures times { self.new.times ≡ self.old.times ++ time ∷ [] }
        ensures indexes { self.new.indexes ≡ self.old.indexes }
        ensures room { KeepsRoom self.old self.new }
        ensures spare_times { self.new.spare_times + 1 ≡ self.old.spare_times }
        ensures spare_indexes { self.new.spare_indexes ≡ self.old.spare_indexes }
    {
        self.times.push_reserved(time);
    }

    /// Appends the times of transitions that follow one another at these intervals, in ticks, the first of them so
    /// long after `start`. Gives the time of the last, or `start` where there is none.
    pub fn push_run(&mut self, start: u64, intervals: &[u8]) -> Result<u64, Memory>
        requires order { All (λ earlier. earlier ≤ start) self.old.times }
        requires within { start + 255 * length intervals.now < 2 ^ 64 }
        ensures times { OnOk result (self.new.times ≡ self.old.times ++ times_after start intervals.now) }
        ensures end { IfOk result (λ end. end ≡ start + sum intervals.now) }
        ensures indexes { self.new.indexes ≡ self.old.indexes }
        ensures room { KeepsRoom self.old self.new }
        ensures spare_indexes { self.new.spare_indexes ≡ self.old.spare_indexes }
        ensures succeeds { length intervals.now ≤ self.old.spare_times → IsOk result }
        ensures err { OnErr result (self.new ≡ self.old) }
    {
        self.times.try_reserve(intervals.len())?;
        Ok(self.push_run_reserved(start, intervals))
    }

    /// Appends the times of a run, as `push_run` does, for which there is room.
    #[inline(always)]
    pub fn push_run_reserved(&mut self, start: u64, intervals: &[u8]) -> u64
        requires order { All (λ earlier. earlier ≤ start) self.old.times }
        requires within { start + 255 * length intervals.now < 2 ^ 64 }
        requires room { length intervals.now ≤ self.old.spare_times }
        ensures times { self.new.times ≡ self.old.times ++ times_after start intervals.now }
        ensures end { result ≡ start + sum intervals.now }
        ensures indexes { self.new.indexes ≡ self.old.indexes }
        ensures room { KeepsRoom self.old self.new }
        ensures spare_times { self.new.spare_times + length intervals.now ≡ self.old.spare_times }
        ensures spare_indexes { self.new.spare_indexes ≡ self.old.spare_indexes }
    {
        let nothing = Vec::new(*self.times.allocator());
        let times = mem::replace(&mut self.times, nothing);
        let (times, end) = append_run(times, start, intervals);
        self.times = times;
        end
    }

    /// Appends the times of the first `count` transitions of a run, as `push_run_reserved` does. There is room for those
    /// of `row` of them: as many are put down, and those behind the first are taken back. Where `row` is known
    /// beforehand that takes less than a loop whose end is not.
    #[inline(always)]
    pub fn push_front_reserved(
        &mut self,
        start: u64,
        intervals: &[u8],
        row: usize,
        count: usize,
    ) -> u64
        requires order { All (λ earlier. earlier ≤ start) self.old.times }
        requires within { start + 255 * row < 2 ^ 64 }
        requires row { row ≤ length intervals.now }
        requires room { row ≤ self.old.spare_times }
        requires some { 1 ≤ count }
        requires few { count ≤ row }
        ensures times { self.new.times ≡ self.old.times ++ times_after start (take count intervals.now) }
        ensures end { result ≡ start + sum (take count intervals.now) }
        ensures indexes { self.new.indexes ≡ self.old.indexes }
        ensures room { KeepsRoom self.old self.new }
        ensures spare_times { self.new.spare_times + count ≡ self.old.spare_times }
        ensures spare_indexes { self.new.spare_indexes ≡ self.old.spare_indexes }
    {
        let nothing = Vec::new(*self.times.allocator());
        let times = mem::replace(&mut self.times, nothing);
        let (times, end) = append_front(times, start, intervals, row, count);
        self.times = times;
        end
    }

    /// Takes all out, the room too, and leaves a track without transitions and without turns.
    pub fn take(&mut self) -> TrackFlux
        ensures value { result ≡ self.old }
        ensures times { self.new.times ≡ [] }
        ensures indexes { self.new.indexes ≡ [] }
    {
        let empty = TrackFlux::new(*self.times.allocator());
        mem::replace(self, empty)
    }

    /// Appends an index time, in ticks.
    pub fn push_index(&mut self, time: u64) -> Result<(), Memory>
        requires { All (λ earlier. earlier < time) self.old.indexes }
        ensures indexes { OnOk result (self.new.indexes ≡ self.old.indexes ++ time ∷ []) }
        ensures times { self.new.times ≡ self.old.times }
        ensures room { KeepsRoom self.old self.new }
        ensures spare { OnOk result (self.old.spare_indexes ≤ self.new.spare_indexes + 1) }
        ensures spare_times { self.new.spare_times ≡ self.old.spare_times }
        ensures succeeds { 0 < self.old.spare_indexes → IsOk result }
        ensures err { OnErr result (self.new ≡ self.old) }
    {
        self.indexes.try_reserve(1)?;
        self.indexes.push_reserved(time);
        Ok(())
    }

    /// Forgets all times behind the first so many, and keeps their room.
    pub fn keep_times(&mut self, count: usize)
        ensures times { self.new.times ≡ take count self.old.times }
        ensures indexes { self.new.indexes ≡ self.old.indexes }
        ensures room { room_of_times self.new ≡ room_of_times self.old }
        ensures spare_indexes { self.new.spare_indexes ≡ self.old.spare_indexes }
    {
        self.times.truncate(count);
    }

    /// Forgets all times and index times, and keeps their room.
    pub fn clear(&mut self)
        ensures times { self.new.times ≡ [] }
        ensures indexes { self.new.indexes ≡ [] }
        ensures spare_times { self.new.spare_times ≡ self.old.spare_times + length self.old.times }
        ensures spare_indexes { self.new.spare_indexes ≡ self.old.spare_indexes + length self.old.indexes }
    {
        self.times.clear();
        self.indexes.clear();
    }

    /// The times of the transitions, in ticks.
    pub fn times(&self) -> &[u64]
        ensures value { result.now ≡ self.now.times }
        ensures order { IsNonDecreasing self.now.times }
    {
        self.times.as_slice()
    }

    /// The index times, in ticks.
    pub fn indexes(&self) -> &[u64]
        ensures value { result.now ≡ self.now.indexes }
        ensures order { IsStrictlyIncreasing self.now.indexes }
    {
        self.indexes.as_slice()
    }

    /// The turn in which a time lies: the number of index times at or before it. Turn 0 is the part before
    /// the first index.
    pub fn turn_of(&self, time: u64) -> u32
        requires { length self.now.indexes < 2 ^ 32 }
        ensures { result ≡ turn_at self.now.indexes time }
    {
        self.indexes
            .as_slice()
            .partition_point(|index| *index <= time) as u32
    }

    /// The length of a turn in ticks. Turn 1 lies between the first two index times.
    pub fn turn_ticks(&self, turn: u32) -> u64
        requires first { 0 < turn }
        requires last { turn < length self.now.indexes }
        ensures { result ≡ turn_length self.now.indexes turn }
    {
        let turn = turn as usize;
        self.indexes[turn] - self.indexes[turn - 1]
    }

    /// The length of the first turn in ticks.
    pub fn first_turn_ticks(&self) -> u64
        requires { 1 < length self.now.indexes }
        ensures { result ≡ turn_length self.now.indexes 1 }
    {
        self.turn_ticks(1)
    }
}

/// Appends the times of a run of transitions to a list that has room for them, and gives the last of them. The list
/// is handed over by value, so that its place and its length stay in registers.
#[inline(always)]
fn append_run(mut times: Vec<u64>, start: u64, intervals: &[u8]) -> (Vec<u64>, u64)
    requires room { vec_len times + length intervals.now ≤ vec_capacity times }
    requires within { start + 255 * length intervals.now < 2 ^ 64 }
    ensures items { result.0.items ≡ times.items ++ times_after start intervals.now }
    ensures len { vec_len result.0 ≡ vec_len times + length intervals.now }
    ensures capacity { vec_capacity result.0 ≡ vec_capacity times }
    ensures end { result.1 ≡ start + sum intervals.now }
{
    let mut time = start;
    for interval in intervals {
        time += u64::from(*interval);
        times.push_reserved(time);
    }
    (times, time)
}

/// Appends the times of the first `count` transitions of a run to a list that has room for those of `row` of them, and
/// gives the last of the first.
#[inline(always)]
fn append_front(
    times: Vec<u64>,
    start: u64,
    intervals: &[u8],
    row: usize,
    count: usize,
) -> (Vec<u64>, u64)
    requires row { row ≤ length intervals.now }
    requires room { vec_len times + row ≤ vec_capacity times }
    requires within { start + 255 * row < 2 ^ 64 }
    requires some { 1 ≤ count }
    requires few { count ≤ row }
    ensures items { result.0.items ≡ times.items ++ times_after start (take count intervals.now) }
    ensures len { vec_len result.0 ≡ vec_len times + count }
    ensures capacity { vec_capacity result.0 ≡ vec_capacity times }
    ensures end { result.1 ≡ start + sum (take count intervals.now) }
{
    let len = times.len() + count;
    let (mut front, _) = append_run(times, start, &intervals[..row]);
    front.truncate(len);
    let end = front[len - 1];
    (front, end)
}
