//! How many files of a dump there are.

ghost use Rattle.std.specs.Prelude.{◌≡◌, ◌<◌, ◌++◌, ◌∷◌, [], List, IfSome};
ghost use Rattle.dump_turns.specs.Lines.{totals_of};
ghost use Rattle.dump_turns.specs.Spreads.{IsBoundedSpread};
ghost use Rattle.dump_turns.specs.declared.found.Found.{Found};
ghost use Rattle.dump_turns.specs.inside.Told.{AreBelow, IsBoundedFound};

use crate::found::Found;
use crate::spread::Spread;
use sector_report::Passed;

/// How many files of a dump there are, and how many of each kind.
#[derive(Clone, Copy, Debug, PartialEq, Eq)]
pub struct TurnTotals {
    /// All that are there, those among them that are refused or fail.
    pub files: u32,
    pub refused: u32,
    /// Tracks without a file, up to the greatest cylinder and the greatest head that have one.
    pub missing: u32,
    /// Those whose mean revolution is more than 5 in 1000 from the median of all.
    pub uneven: u32,
    pub failed: u32,
}

impl TurnTotals {
    /// Counts one file more.
    pub(crate) fn note(&mut self, found: &Found, spread: &Option<Spread>)
        requires bounded { IsBoundedFound found.now }
        requires spread { IfSome spread.now IsBoundedSpread }
        requires few { AreBelow 4294967295 self.old }
        ensures { (before : List Found) → self.old ≡ totals_of before spread.now
            → self.new ≡ totals_of (before ++ found.now ∷ []) spread.now }
    {
        match found {
            Found::PassedOver(Passed::Absent) => self.missing += 1,
            Found::PassedOver(Passed::Failed) => {
                self.files += 1;
                self.failed += 1;
            }
            Found::PassedOver(Passed::Refused { .. } | Passed::RefusedScp(_)) => {
                self.files += 1;
                self.refused += 1;
            }
            Found::Read(_) => {
                self.files += 1;
                if found.uneven_mean(spread).is_some() {
                    self.uneven += 1;
                }
            }
        }
    }
}
