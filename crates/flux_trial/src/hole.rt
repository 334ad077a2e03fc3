ghost use Rattle.std.specs.Prelude.{◌≡◌, ◌<◌, ◌≤◌};
ghost use Rattle.flux_trial.specs.inside.Heads.{FitsRing, IsHole, in_hole};

/// The cells of a ring in which no transition is seen.
#[derive(Clone, Copy, Drop)]
pub(crate) struct Hole {
    /// The first cell.
    pub begin: usize,
    /// How many cells there are.
    pub count: usize,
    /// How many cells the ring has.
    pub ring: usize,
}

impl Hole {
    /// The hole that a trial's number gives a ring of so many cells.
    pub(crate) fn of(seed: u32, ring: usize) -> Hole
        requires { 1000 ≤ ring }
        ensures is { IsHole seed ring result }
        ensures fits { FitsRing result }
    {
        let seed = seed as usize;
        Hole {
            begin: 16 * (seed / 1_000_000) % ring,
            count: seed / 1000 % 1000,
            ring,
        }
    }

    /// Whether a cell of the ring lies in the hole.
    #[inline]
    pub(crate) fn contains(&self, cell: usize) -> bool
        requires fits { FitsRing self.now }
        requires cell { cell < self.now.ring }
        requires small { self.now.ring < 16777216 }
        ensures { result ≡ in_hole self.now cell }
    {
        let offset = if cell < self.begin {
            cell + self.ring - self.begin
        } else {
            cell - self.begin
        };
        offset < self.count
    }
}
