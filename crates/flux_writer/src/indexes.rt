ghost use Rattle.std.specs.Prelude.{◌≡◌, ◌<◌, [], ◌∷◌, Some, IfSome, IfNone, map, drop, length, slice_get};
ghost use Rattle.flux_writer.specs.inside.Writing.{ticks_of, AreCounted, count_before, first_or_never};

use std::marker::Model;

/// What index times are given in.
#[derive(Clone, Copy, Drop)]
pub(crate) enum IndexUnit {
    Ticks,
    /// Cells, of which each takes `nominal` fine units of 1/1024 tick: the time is that of the cell's end.
    Cells { nominal: u32 },
}

/// A time that lies before none.
const NEVER: u64 = u64::MAX;

/// The index times that are not written yet, in ticks.
#[derive(Drop)]
pub(crate) struct IndexTimes<'a> {
    places: &'a [u64],
    unit: IndexUnit,
    /// The time of the first of the places, worked out once, since each transition is compared with it; `NEVER`
    /// where there is none.
    next: u64,
}

impl<'a> Model for IndexTimes<'a> {
    ghost use Rattle.std.specs.Prelude.{◌≡◌, ℕ, List, map};
    ghost use Rattle.flux_writer.specs.inside.Writing.{ticks_of, AreCounted, first_or_never};

    ghost Value = { List ℕ };

    ghost view = { λ t. map (ticks_of t.unit) t.places.now };

    ghost invariant = { λ t.
        AreCounted t.unit t.places.now × (t.next ≡ first_or_never (map (ticks_of t.unit) t.places.now)) };
}

impl<'a> IndexTimes<'a> {
    /// All of these.
    pub(crate) fn new(places: &'a [u64], unit: IndexUnit) -> Self
        requires { AreCounted unit places.now }
        ensures { result ≡ map (ticks_of unit) places.now }
    {
        IndexTimes {
            places,
            unit,
            next: first_time(unit, places),
        }
    }

    /// The next index time.
    pub(crate) fn next(&self) -> Option<u64>
        ensures { result ≡ slice_get self.now 0 }
    {
        Some(ticks(self.unit, *self.places.first()?))
    }

    /// The next index time, if it lies before `end`.
    #[inline]
    pub(crate) fn next_before(&self, end: u64) -> Option<u64>
        ensures some { IfSome result (λ time. (slice_get self.now 0 ≡ Some time) × (time < end)) }
        ensures none { IfNone result (count_before end self.now ≡ 0) }
    {
        if self.next < end {
            Some(self.next)
        } else {
            None
        }
    }

    /// Passes over the next index time.
    pub(crate) fn pass(&mut self)
        requires { 0 < length self.old }
        ensures { self.new ≡ drop 1 self.old }
    {
        self.places = &self.places[1..];
        self.next = first_time(self.unit, self.places);
    }
}

/// The time of the first of some indexes, in ticks, or `NEVER`.
fn first_time(unit: IndexUnit, places: &[u64]) -> u64
    requires { AreCounted unit places.now }
    ensures { result ≡ first_or_never (map (ticks_of unit) places.now) }
{
    match places.first() {
        Some(place) => ticks(unit, *place),
        None => NEVER,
    }
}

/// The time of an index, in ticks.
fn ticks(unit: IndexUnit, place: u64) -> u64
    requires { AreCounted unit (place ∷ []) }
    ensures { result ≡ ticks_of unit place }
{
    match unit {
        IndexUnit::Ticks => place,
        IndexUnit::Cells { nominal } => (place + 1) * nominal as u64 / 1024,
    }
}
