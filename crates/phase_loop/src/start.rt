ghost use Rattle.std.specs.Prelude.{◌≡◌, ◌^◌, ◌<◌, ◌≤◌, min, max};
ghost use Rattle.phase_loop.specs.Start.{IsNominal};

/// Fine units in a tick.
pub(crate) const FINE_PER_TICK: u64 = 1024;

/// The shortest and the longest period that the loop takes a mean for, in fine units, of which 1024 make a tick.
#[derive(Clone, Copy, Debug, PartialEq, Eq)]
pub struct Band {
    /// The shortest, at most the longest.
    pub lowest: u32,
    /// The longest.
    pub highest: u32,
}

/// Where the loop starts. All lengths are in fine units, of which 1024 make a tick.
#[derive(Clone, Copy, Debug, PartialEq, Eq)]
pub struct LoopStart {
    /// The nominal cell, 16384 to 131072.
    pub nominal: u32,
    /// The first period, in the band.
    pub first: u32,
    /// The band of the periods, within three to five quarters of the nominal cell, both rounded down.
    pub band: Band,
}

impl Band {
    ghost use Rattle.phase_loop.specs.Start.{band_of, in_band};

    /// The whole band about a nominal cell: from three to five quarters of it, both rounded down.
    pub fn about(nominal: u32) -> Band
        requires { IsNominal nominal }
        ensures { result ≡ band_of nominal }
    {
        Band {
            lowest: 3 * nominal / 4,
            highest: 5 * nominal / 4,
        }
    }

    /// The period, or the band's end that is nearer to it.
    pub(crate) fn keep(self, period: u64) -> u64
        ensures { result ≡ in_band self period }
    {
        let lowest = u64::from(self.lowest);
        let highest = u64::from(self.highest);
        // By no branch: a loop by a wrong clock is at its band's end as often as within.
        period.min(highest).max(lowest)
    }
}

impl LoopStart {
    ghost use Rattle.phase_loop.specs.Start.{IsStart, held, start_for};

    /// The start for a track whose first turn takes `turn_ticks` ticks and holds `ring_cells` cells: the first
    /// period is the mean of that turn, kept in the whole band, through which later ones may follow the drive's speed.
    pub fn for_turn(nominal: u32, turn_ticks: u64, ring_cells: u32) -> LoopStart
        requires nominal { IsNominal nominal }
        requires turn { turn_ticks < 2 ^ 40 }
        requires cells { 1 ≤ ring_cells }
        ensures start { result ≡ start_for nominal turn_ticks ring_cells }
        ensures bounds { IsStart result }
    {
        let mean = FINE_PER_TICK * turn_ticks / u64::from(ring_cells);
        let band = Band::about(nominal);
        LoopStart {
            nominal,
            first: band.keep(mean) as u32,
            band,
        }
    }

    /// The same start with its first period held: the band has it as both its ends, so that
    /// each period is the first one.
    pub fn held(self) -> LoopStart
        requires { IsStart self }
        ensures start { result ≡ held self }
        ensures bounds { IsStart result }
    {
        LoopStart {
            nominal: self.nominal,
            first: self.first,
            band: Band {
                lowest: self.first,
                highest: self.first,
            },
        }
    }
}
