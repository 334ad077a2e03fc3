ghost use Rattle.std.specs.Prelude.{◌≡◌};
ghost use Rattle.name_book.specs.Names.{is_before};

/// The sector that a header names: IBM's cylinder, head, number and code of the size.
#[derive(Clone, Copy, Debug, PartialEq, Eq)]
pub struct SectorName {
    pub cylinder: u8,
    pub head: u8,
    pub number: u8,
    pub code: u8,
}

/// A header that names a sector. Times are in ticks from the begin of its dump's stream.
#[derive(Clone, Copy, Debug, PartialEq, Eq)]
pub struct NamedHeader {
    pub name: SectorName,
    /// The number of the dump that has it.
    pub dump: u8,
    /// Of the last transition at or before it.
    pub time: u64,
    /// The ticks from the last index moment at or before it, if there is one.
    pub since: Option<u64>,
    /// Whether a data sync stands behind it, before the next header.
    pub opens: bool,
}

/// Where a sector lies on its track.
#[derive(Clone, Copy, Debug, PartialEq, Eq)]
pub enum SectorPlace {
    /// So many ticks behind an index moment.
    Behind(u64),
    /// Before the first index moment, at this time.
    Early(u64),
}

impl SectorPlace {
    /// Whether it lies before another one: those before the first index moment lie last.
    pub fn is_before(self, other: SectorPlace) -> bool
        ensures { result ≡ is_before self other }
    {
        match self {
            SectorPlace::Behind(ticks) => match other {
                SectorPlace::Behind(others) => ticks < others,
                SectorPlace::Early(_) => true,
            },
            SectorPlace::Early(time) => match other {
                SectorPlace::Behind(_) => false,
                SectorPlace::Early(others) => time < others,
            },
        }
    }
}

/// Of which kind a name is.
#[derive(Clone, Copy, Debug, PartialEq, Eq)]
pub enum NameKind {
    /// Whole data stand behind a header of it.
    Whole,
    /// A data sync stands behind one of them, but no whole data.
    Bad,
    /// None does.
    Bare,
}
