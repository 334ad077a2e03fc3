//! A file that is noted for many disks.

ghost use Rattle.std.specs.Prelude.{◌≡◌, ◌<◌, ℕ, get_or, length};
ghost use Rattle.dump_tallies.specs.Tallies.{NoteFile, TalliedDisk};

use crate::disk_tally::DiskTally;
use flux_base::TrackId;
use flux_engine::SharedStream;

/// Notes what a file comes to as a track of each of these disks. It is the one of this number, is named by this track,
/// and this stream came of it.
pub fn note_file(number: u8, file: TrackId, stream: &mut SharedStream, disks: &mut [DiskTally])
    requires number { number < 200 }
    requires many { (k : ℕ) (d : TalliedDisk) → k < length disks.old
        → length (get_or disks.old k d).tallies ≡ number }
    ensures noted { NoteFile disks.old disks.new file stream.old }
    ensures stream { stream.new ≡ stream.old }
{
    for next in 0..disks.len() {
        disks[next].note(file, stream);
    }
}
