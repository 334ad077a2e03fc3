ghost use Rattle.std.specs.Prelude.{◌≡◌, ◌≤◌, IfNone, IfSome, length};
ghost use Rattle.ibm_disks.specs.Disks.{AllHaveDisks, HasTrack, IsDiskOf, IsWordOfDisk, PrintedWordsNameDisks};
ghost use Rattle.ibm_disks.specs.Disks.{WordsNameDisks, WritesDisk, are_few, cylinders_of, disk_label, disk_word};
ghost use Rattle.ibm_disks.specs.Disks.{fill_at, heads_of, is_disk, rate_of, sound, track_of_disk};
ghost use Rattle.ibm_disks.specs.Named.{same_disk};
ghost use Rattle.ibm_disks.specs.GapPlans.{FillsTrackOf, density_of};

use crate::named::{disk_named, named_as};
use crate::rate::{Density, Rate};
use crate::sector_size::SectorSize;
use crate::text::{DiskWord, disk_word, name_word};
use crate::track_numbers::TrackNumbers;
use crate::word::DiskNumbers;

/// The most cylinders of a disk.
const MOST_CYLINDERS: u8 = 99;

/// The most heads of a cylinder.
const MOST_HEADS: u8 = 2;

/// A disk by its numbers, of which there is such a track.
#[derive(Clone, Copy, Debug, PartialEq, Eq)]
pub struct IbmDisk {
    pub(crate) cylinders: u8,
    pub(crate) heads: u8,
    pub(crate) rate: Rate,
    pub(crate) track: TrackNumbers,
}

impl IbmDisk {
    /// The PC's disk of 720 KB.
    const PC_720: IbmDisk = IbmDisk {
        cylinders: 80,
        heads: 2,
        rate: Rate::Double,
        track: TrackNumbers::PC_9,
    };

    /// The disk that a word names, by a name of its own or by its numbers, if there is one.
    pub fn of_word(word: &[u8]) -> Option<IbmDisk>
        ensures some { IfSome result (IsWordOfDisk word.now) }
        ensures none { IfNone result ((disk : IbmDisk) → ¬ IsWordOfDisk word.now disk) }
    {
        match disk_named(word) {
            Some(disk) => Some(disk),
            None => IbmDisk::written(word),
        }
    }

    /// The disk whose numbers a word writes, if there is one.
    fn written(word: &[u8]) -> Option<IbmDisk>
        ensures some { IfSome result (WritesDisk word.now) }
        ensures none { IfNone result ((disk : IbmDisk) → ¬ WritesDisk word.now disk) }
    {
        match DiskNumbers::of_word(word) {
            Some(numbers) => IbmDisk::of_numbers(numbers),
            None => None,
        }
    }

    /// The disk of these numbers: 1 to 99 cylinders, one head or two, and a track of so many sectors.
    /// None where there is no such disk.
    pub fn of_numbers(numbers: DiskNumbers) -> Option<IbmDisk>
        ensures some { IfSome result (IsDiskOf numbers) }
        ensures none { IfNone result ((disk : IbmDisk) → ¬ IsDiskOf numbers disk) }
    {
        let Ok(cylinders) = u8::try_from(numbers.cylinders) else {
            return None;
        };
        let Ok(heads) = u8::try_from(numbers.heads) else {
            return None;
        };
        if !are_few(cylinders, heads) {
            return None;
        }
        let Some(track) = track_of(numbers) else {
            return None;
        };
        Some(IbmDisk {
            cylinders,
            heads,
            rate: numbers.rate,
            track,
        })
    }

    /// How many cylinders it has.
    pub fn cylinders(self) -> u8
        ensures { result ≡ cylinders_of self }
    {
        self.sound().cylinders
    }

    /// How many heads each cylinder has.
    pub fn heads(self) -> u8
        ensures { result ≡ heads_of self }
    {
        self.sound().heads
    }

    /// How fast its drive turns and writes.
    pub fn rate(self) -> Rate
        ensures { result ≡ rate_of self }
    {
        self.sound().rate
    }

    /// The numbers of each of its tracks.
    pub fn track(self) -> TrackNumbers
        ensures { result ≡ track_of_disk self }
    {
        self.sound().track
    }

    /// Its name, where it has one, and else the word that writes its numbers, where one does.
    #[tactic(auto, unfolding(crate::specs::Disks::disk_word))]
    pub fn word(self) -> DiskWord
        ensures { result.bytes ≡ disk_word self }
    {
        match named_as(self.sound()) {
            Some(named) => name_word(named.word),
            None => disk_word(self.rate(), self.cylinders(), self.heads(), self.track()),
        }
    }

    /// What people call it, its cylinders, its heads where there are two, and the sectors of
    /// a track, where it has a name.
    #[tactic(auto, unfolding(crate::specs::Disks::disk_label))]
    pub fn label(self) -> &'static str
        ensures text { result.now ≡ disk_label self }
        ensures short { length result.now ≤ 100 }
    {
        match named_as(self.sound()) {
            Some(named) => named.label,
            None => "a disk by its numbers",
        }
    }

    /// Whether these are its numbers.
    pub(crate) fn is(self, other: IbmDisk) -> bool
        ensures { result ≡ same_disk self other }
    {
        let cylinders = self.cylinders == other.cylinders;
        let heads = self.heads == other.heads;
        let rate = self.rate.track_bytes() == other.rate.track_bytes();
        cylinders && heads && rate && self.track.is(other.track)
    }

    /// The disk that the value means: itself, wherever one was made.
    #[tactic(auto, unfolding(crate::specs::Disks::sound))]
    fn sound(self) -> IbmDisk
        ensures { result ≡ sound self }
    {
        if self.is_disk() {
            self
        } else {
            IbmDisk::PC_720
        }
    }

    /// Whether the numbers are a disk's.
    #[tactic(auto, unfolding(crate::specs::Disks::is_disk))]
    fn is_disk(self) -> bool
        ensures { result ≡ is_disk self }
    {
        let few = are_few(self.cylinders, self.heads);
        let whole = self.track.bytes == self.rate.track_bytes();
        let filled = self.fills_track();
        few && whole && filled
    }

    /// Whether they fill their track.
    fn fills_track(self) -> bool
        ensures { result ≡ fill_at (density_of self.rate) self.track }
    {
        let lead_in = self.track.lead_in;
        match self.rate.density() {
            Density::Double => {
                let around = u16::from(lead_in.mfm_zeros()) + 50;
                self.track.fill_track(lead_in.mfm_before(), around)
            }
            Density::Single => self.track.fill_track(lead_in.fm_before(), 33),
        }
    }
}

/// Whether a disk may have so many cylinders and heads.
fn are_few(cylinders: u8, heads: u8) -> bool
    ensures { result ≡ are_few cylinders heads }
{
    let some_cylinders = cylinders >= 1;
    let few_cylinders = cylinders <= MOST_CYLINDERS;
    let some_heads = heads >= 1;
    let few_heads = heads <= MOST_HEADS;
    some_cylinders && few_cylinders && some_heads && few_heads
}

/// The track of these numbers.
fn track_of(numbers: DiskNumbers) -> Option<TrackNumbers>
    ensures some { IfSome result (HasTrack numbers) }
    ensures fills { IfSome result (FillsTrackOf numbers.rate) }
    ensures none { IfNone result ((track : TrackNumbers) → ¬ HasTrack numbers track) }
{
    let sectors = u8::try_from(numbers.sectors).ok()?;
    let first_sector = u8::try_from(numbers.first_sector).ok()?;
    let size = SectorSize::of_bytes(numbers.sector_bytes)?;
    TrackNumbers::of_disk(numbers.rate, sectors, first_sector, size)
}

/// A word names one disk, and where one does, so does the word that is printed of it: its name, if it has one.
pub fn words_name_disks()
    ensures one { WordsNameDisks }
    ensures printed { PrintedWordsNameDisks }
{}

/// Every value has the numbers of a disk.
pub fn disks_have_tracks()
    ensures { AllHaveDisks }
{}
