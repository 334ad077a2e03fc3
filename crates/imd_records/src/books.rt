ghost use Rattle.std.specs.Prelude.{◌≡◌, [], IfOk};
ghost use Rattle.imd_records.specs.Choices.{names_by};
ghost use Rattle.imd_records.specs.declared.mode.Mode.{Mode as OfMode};
ghost use Rattle.name_book.specs.Book.{NamesStandFor};

use crate::mode::Mode;
use flux_base::Memory;
use name_book::NameBook;
use std::alloc::Global;

/// The names of a track by each mode.
#[derive(Drop)]
pub struct TrackBooks {
    pub mfm250: NameBook,
    pub mfm500: NameBook,
    pub fm250: NameBook,
    pub fm500: NameBook,
}

impl TrackBooks {
    /// Without names.
    pub fn new(alloc: Global) -> Result<TrackBooks, Memory>
        ensures { IfOk result (λ books. (mode : OfMode) → NamesStandFor (names_by books mode) [] []) }
    {
        Ok(TrackBooks {
            mfm250: NameBook::new(alloc)?,
            mfm500: NameBook::new(alloc)?,
            fm250: NameBook::new(alloc)?,
            fm500: NameBook::new(alloc)?,
        })
    }

    /// Forgets all names.
    pub fn clear(&mut self)
        ensures { (mode : OfMode) → NamesStandFor (names_by self.new mode) [] [] }
    {
        self.mfm250.clear();
        self.mfm500.clear();
        self.fm250.clear();
        self.fm500.clear();
    }

    /// Those of a mode.
    pub fn book(&self, mode: Mode) -> &NameBook
        ensures { result.now ≡ names_by self.now mode }
    {
        match mode {
            Mode::Mfm250 => &self.mfm250,
            Mode::Mfm500 => &self.mfm500,
            Mode::Fm250 => &self.fm250,
            Mode::Fm500 => &self.fm500,
        }
    }
}
