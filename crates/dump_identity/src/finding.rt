//! What reading a dump as a disk comes to.

ghost use Rattle.std.specs.Prelude.{◌≡◌};
ghost use Rattle.dump_identity.specs.Findings.{beats, bytes_in, good_in, has_files, has_good, is_complete};
ghost use Rattle.dump_identity.specs.Findings.{sectors_in, whole_in};

use crate::candidate::Candidate;
use disk_recordings::sectors_of;
use dump_reading::DumpTotals;
use sector_images::{track_id, tracks_keep_bounds};

/// What reading a dump as a candidate's disk comes to, by the clock that follows the drive alone.
#[derive(Clone, Copy, Debug, PartialEq, Eq)]
pub struct Finding {
    pub candidate: Candidate,
    /// In numbers. None where the dump has the file of none of the disk's tracks.
    pub totals: Option<DumpTotals>,
}

impl Finding {
    /// Whether the dump has the file of one of the disk's tracks.
    pub fn has_files(&self) -> bool
        ensures { result ≡ has_files self.now }
    {
        self.totals.is_some()
    }

    /// Whether a sector is good.
    pub fn has_good(&self) -> bool
        ensures { result ≡ has_good self.now }
    {
        self.good() > 0
    }

    /// Whether the disk explains the dump better than another: its good sectors have more bytes; or as many, and fewer
    /// other names have data; or that too, and it has fewer sectors.
    pub fn beats(&self, other: &Finding) -> bool
        ensures { result ≡ beats self.now other.now }
    {
        if self.bytes() != other.bytes() {
            return self.bytes() > other.bytes();
        }
        if self.whole() != other.whole() {
            return self.whole() < other.whole();
        }
        self.sectors() < other.sectors()
    }

    /// Whether it explains all of it: every sector is good, and no other name has data.
    pub fn is_complete(&self) -> bool
        ensures { result ≡ is_complete self.now }
    {
        match &self.totals {
            Some(totals) => totals.is_complete(),
            None => false,
        }
    }

    /// How many sectors are good.
    fn good(&self) -> u32
        ensures { result ≡ good_in self.now.totals }
    {
        match &self.totals {
            Some(totals) => totals.sectors.good,
            None => 0,
        }
    }

    /// How many bytes the good sectors have.
    fn bytes(&self) -> u64
        ensures { result ≡ bytes_in self.now }
    {
        tracks_keep_bounds();
        let format = self.candidate.format;
        let sectors = sectors_of(format, track_id(format, 0));
        u64::from(self.good()) * u64::from(sectors.size)
    }

    /// How many sectors the disk has.
    fn sectors(&self) -> u32
        ensures { result ≡ sectors_in self.now.totals }
    {
        match &self.totals {
            Some(totals) => totals.sectors.sectors,
            None => 0,
        }
    }

    /// How many other names have whole data.
    fn whole(&self) -> u32
        ensures { result ≡ whole_in self.now.totals }
    {
        match &self.totals {
            Some(totals) => totals.whole,
            None => 0,
        }
    }
}
