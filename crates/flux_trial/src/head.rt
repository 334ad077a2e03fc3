ghost use Rattle.std.specs.Prelude.{◌≡◌, ◌<◌, ◌≤◌, ◌+◌, ◌-◌, ◌*◌, ◌/◌, ◌%◌};
ghost use Rattle.flux_trial.specs.Drive.{displaced, drifted};
ghost use Rattle.flux_trial.specs.inside.Heads.{IsSound, next_chance, passed, reach, started, time_at, MOST_CELLS};

/// A drive that turns over a track, after one of the track's transitions. Periods, ways and places are
/// in fine units of 1/1024 tick.
#[derive(Clone, Copy, Drop)]
pub(crate) struct Head {
    /// The local period at the first transition.
    pub base: u32,
    /// How far the local periods may come from it.
    pub most_drift: u32,
    /// How far a transition may be from its ideal place.
    pub most_way: u32,
    /// The number of chance that displaces the transition.
    pub chance: u32,
    /// The local period at the transition.
    pub period: u32,
    /// The number of the transition's cell.
    pub cell: u64,
    /// The transition's ideal place.
    pub ideal: u64,
}

impl Head {
    /// After the first transition, at the end of the cell with this number.
    pub(crate) fn start(nominal: u32, seed: u32, track: u32, cell: u64) -> Head
        requires least { 16384 ≤ nominal }
        requires most { nominal ≤ 131072 }
        requires few { cell < MOST_CELLS }
        ensures value { result ≡ started (record { seed = seed; track = track; nominal = nominal }) cell }
        ensures sound { IsSound result }
    {
        let step = nominal / 128;
        let speed = ((u64::from(seed) + u64::from(track)) % 17) as u32;
        let base = nominal - 8 * step + speed * step;
        let first = (u64::from(seed) + 7919 * u64::from(track)) % 0x8000_0000;
        Head {
            base,
            most_drift: nominal / 256,
            most_way: nominal / 8 - 1024,
            chance: next_chance(first as u32),
            period: base,
            cell,
            ideal: (cell + 1) * u64::from(base),
        }
    }

    /// The next transition passes, at the end of the cell with this number.
    #[inline]
    pub(crate) fn pass(&mut self, cell: u64)
        requires sound { IsSound self.old }
        requires later { self.old.cell < cell }
        requires few { cell < MOST_CELLS }
        ensures value { self.new ≡ passed self.old cell }
        ensures sound { IsSound self.new }
    {
        self.ideal += (cell - self.cell) * u64::from(self.period);
        self.period = drifted(self.base, self.most_drift, self.period, self.chance);
        self.chance = next_chance(self.chance);
        self.cell = cell;
    }

    /// The time of the transition in ticks.
    #[inline]
    pub(crate) fn time(&self) -> u64
        requires { IsSound self.now }
        ensures value { result ≡ time_at self.now }
        ensures late { self.now.ideal ≤ 1024 * result + self.now.most_way + 1023 }
        ensures early { 1024 * result ≤ self.now.ideal + self.now.most_way }
    {
        let way = self.chance / 16 % (2 * self.most_way + 1);
        (self.ideal + u64::from(way) - u64::from(self.most_way)) / 1024
    }

    /// The time of an index cell in ticks, which is not before the transition's cell.
    pub(crate) fn index_time(&self, cell: u64) -> u64
        requires sound { IsSound self.now }
        requires later { self.now.cell ≤ cell }
        requires few { cell < MOST_CELLS }
        ensures { result ≡ reach self.now cell / 1024 }
    {
        (self.ideal + (cell - self.cell) * u64::from(self.period)) / 1024
    }
}

/// The next number of chance.
#[inline]
fn next_chance(chance: u32) -> u32
    requires { chance < 2147483648 }
    ensures value { result ≡ next_chance chance }
    ensures bound { result < 2147483648 }
{
    ((1_103_515_245 * u64::from(chance) + 12345) % 0x8000_0000) as u32
}

/// The period after one more step of chance.
#[inline]
fn drifted(base: u32, most: u32, period: u32, chance: u32) -> u32
    requires order { most < base }
    requires low { base ≤ period + most }
    requires high { period ≤ base + most }
    requires longest { base + most ≤ 147456 }
    ensures value { result ≡ drifted base most period chance }
    ensures low { base ≤ result + most }
    ensures high { result ≤ base + most }
{
    let next = period + chance / 0x10_0000 % 3 - 1;
    if base - most <= next && next <= base + most {
        next
    } else {
        period
    }
}
