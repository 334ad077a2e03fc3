//! A disk, and what each file of a dump comes to as one of its tracks.

ghost use Rattle.std.specs.Prelude.{◌≡◌, ◌<◌, IfOk, length};
ghost use Rattle.flux_engine.specs.Room.{IsBookOf};
ghost use Rattle.flux_engine.specs.Tallies.{IsFewTally};
ghost use Rattle.dump_tallies.specs.Tallies.{IsFileTally, IsTallyAs};

use crate::files::{MOST_FILES, disk_track};
use crate::tally_room::TallyRoom;
use dump_reading::{has_track, near_track};
use flux_base::{Memory, TrackId};
use flux_engine::{Gathered, SharedStream, TrackTally, format_gathered, sectors_of};
use sector_images::{Format, track_id, tracks_keep_bounds};
use sector_report::Totals;
use std::alloc::Global;
use std::marker::Model;
use track_shelf::Stepping;

/// A disk, and what each file of a dump comes to as one of its tracks, of those that came so far. A drive with these
/// steps reaches all of its tracks.
#[derive(Drop)]
pub struct DiskTally {
    pub(crate) stepping: Stepping,
    pub(crate) format: Format,
    /// Room for what is gathered of one track.
    gathered: Gathered,
    /// By the numbers of the files.
    pub(crate) tallies: Vec<TrackTally>,
}

impl Model for DiskTally {
    ghost use Rattle.std.specs.Prelude.{◌≡◌, ◌≤◌, true, All};
    ghost use Rattle.std.specs.Vec.{vec_capacity};
    ghost use Rattle.track_shelf.specs.Stepping.{reaches_all};
    ghost use Rattle.flux_engine.specs.Room.{IsBookOf};
    ghost use Rattle.flux_engine.specs.Tallies.{IsFewTally};
    ghost use Rattle.dump_tallies.specs.Tallies.{TalliedDisk};

    ghost Value = { TalliedDisk };

    ghost view = { λ a. record { stepping = a.stepping; format = a.format; tallies = a.tallies.items } };

    ghost invariant = { λ a. IsBookOf a.format a.gathered.book
        × (200 ≤ vec_capacity a.tallies)
        × (All IsFewTally a.tallies.items)
        × (reaches_all a.stepping a.format ≡ true) };
}

impl DiskTally {
    ghost use Rattle.std.specs.Prelude.{true};
    ghost use Rattle.track_shelf.specs.Stepping.{reaches_all};
    ghost use Rattle.dump_tallies.specs.Tallies.{NotesFile, no_tallies};

    /// Takes all memory that is needed. No file came.
    pub fn reserve(alloc: Global, stepping: Stepping, format: Format) -> Result<DiskTally, Memory>
        requires { reaches_all stepping format ≡ true }
        ensures { IfOk result (λ disk. disk ≡ no_tallies stepping format) }
    {
        let gathered = format_gathered(alloc, format)?;
        let tallies = Vec::with_capacity(alloc, usize::from(MOST_FILES))?;
        Ok(DiskTally {
            stepping,
            format,
            gathered,
            tallies,
        })
    }

    /// A disk for which memory was taken before it was known. No file came.
    pub fn begin(room: TallyRoom, stepping: Stepping, format: Format) -> DiskTally
        requires { reaches_all stepping format ≡ true }
        ensures { result ≡ no_tallies stepping format }
    {
        tracks_keep_bounds();
        let mut gathered = room.gathered;
        // No track has more sectors than the first.
        let sectors = sectors_of(format, track_id(format, 0));
        gathered
            .book
            .begin(sectors.first, sectors.count, sectors.size);
        DiskTally {
            stepping,
            format,
            gathered,
            tallies: room.tallies,
        }
    }

    /// How its cylinders lie in files.
    pub fn stepping(&self) -> Stepping
        ensures { result ≡ self.now.stepping }
    {
        self.stepping
    }

    /// Its format.
    pub fn format(&self) -> Format
        ensures { result ≡ self.now.format }
    {
        self.format
    }

    /// Notes what the next file comes to, which is named by this track, and of which this stream came.
    pub(crate) fn note(&mut self, file: TrackId, stream: &mut SharedStream)
        requires { length self.old.tallies < 200 }
        ensures noted { NotesFile self.old self.new file stream.old }
        ensures stream { stream.new ≡ stream.old }
    {
        let tally = tally_file(self.stepping, self.format, file, stream, &mut self.gathered);
        self.tallies.push_reserved(tally);
    }
}

/// What a file comes to that has no track of the disk.
const NOTHING: TrackTally = TrackTally {
    sectors: Totals {
        sectors: 0,
        good: 0,
        bad: 0,
        missing: 0,
        contradictory: 0,
    },
    others: 0,
    whole: 0,
};

/// What a file comes to as the track of a disk that lies in it, if one does.
fn tally_file(
    stepping: Stepping,
    format: Format,
    file: TrackId,
    stream: &mut SharedStream,
    gathered: &mut Gathered,
) -> TrackTally
    requires book { IsBookOf format gathered.old.book }
    ensures is { IsFileTally stepping format file stream.old result }
    ensures few { IsFewTally result }
    ensures stream { stream.new ≡ stream.old }
    ensures book { IsBookOf format gathered.new.book }
{
    match disk_track(stepping, file) {
        Some(track) => tally_as(format, track, stream, gathered),
        None => NOTHING,
    }
}

/// What a stream comes to as a track, of the format's or beside them.
fn tally_as(
    format: Format,
    track: TrackId,
    stream: &mut SharedStream,
    gathered: &mut Gathered,
) -> TrackTally
    requires book { IsBookOf format gathered.old.book }
    ensures is { IsTallyAs format track stream.old result }
    ensures few { IsFewTally result }
    ensures stream { stream.new ≡ stream.old }
    ensures book { IsBookOf format gathered.new.book }
{
    if has_track(format, track) {
        stream.tally_track(format, track, gathered)
    } else {
        stream.tally_names(format, near_track(format, track), gathered)
    }
}
