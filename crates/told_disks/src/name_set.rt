ghost use Rattle.std.specs.Prelude.{◌≡◌, ◌&&◌, ◌||◌, ◌<◌, ℕ, Bool, List, false, length, nat_eq};
ghost use Rattle.ibm_disks.specs.Numbers.{code_of};
ghost use Rattle.ibm_disks.specs.declared.sector_size.SectorSize.{SectorSize as Size};
ghost use Rattle.told_disks.specs.Names.{has};

use ibm_disks::SectorSize;
use std::marker::Model;

/// A set of sector numbers for each size of a sector: those of the names of a track that have whole data.
#[derive(Clone, Copy)]
pub struct NameSet {
    /// By the code of the size and then by the number.
    bits: [bool; 1024],
}

impl Model for NameSet {
    ghost use Rattle.std.specs.Prelude.{◌≡◌, Bool, List, length};

    ghost Value = { List Bool };

    ghost view = { λ set. set.bits };

    ghost inverse = { λ bits. record { bits = bits } };

    ghost invariant = { λ set. length set.bits ≡ 1024 };
}

impl NameSet {
    /// Without a number.
    pub fn empty() -> NameSet
        ensures has { (size : Size) (number : ℕ) → has result size number ≡ false }
        ensures full { length result ≡ 1024 }
    {
        NameSet {
            bits: [false; 1024],
        }
    }

    /// Adds a number of a size.
    pub fn insert(&mut self, size: SectorSize, number: u8)
        ensures has { (other : Size) (n : ℕ)
            → has self.new other n ≡ ((nat_eq (code_of other) (code_of size) && nat_eq n number) || has self.old other n) }
        ensures full { length self.new ≡ length self.old }
    {
        self.bits[256 * usize::from(size.code()) + usize::from(number)] = true;
    }

    /// Whether it has a number of a size.
    pub fn has(&self, size: SectorSize, number: u8) -> bool
        ensures { result ≡ has self.now size number }
    {
        self.bits[256 * usize::from(size.code()) + usize::from(number)]
    }
}
