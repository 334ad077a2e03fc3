//! All tracks of a file.

ghost use Rattle.std.specs.Prelude.{◌≡◌, ◌≤◌, ◌<◌, [], ◌∷◌, ℕ, List, Some, drop, length, option_map, IfOk, IfSome};
ghost use Rattle.file_maker.specs.Makes.{with_files};
ghost use Rattle.flux_base.specs.Blames.{CountsBy, three_counts};
ghost use Rattle.flux_base.specs.Counts.{counts_of};
ghost use Rattle.flux_base.specs.World.{sink_counts, source_counts};
ghost use Rattle.index_turns.specs.Track.{TrackState};
ghost use Rattle.track_shelf.specs.Files.{File, file_at};
ghost use Rattle.track_shelf.specs.Told.{with_failed};
ghost use Rattle.track_shelf.specs.World.{told_at};
ghost use Rattle.scp_unpack.specs.Answers.{IsFirstThere, SaysOf, SaysOfTracks, count_of};
ghost use Rattle.scp_unpack.specs.Blamed.{unpack_blame, unpack_lost};
ghost use Rattle.scp_unpack.specs.Tracks.{came_of};
ghost use Rattle.scp_unpack.specs.inside.Came.{came_read};
ghost use Rattle.scp_unpack.specs.inside.Steps.{IsFront, UnpacksTrack};

use crate::fault::UnpackFault;
use crate::lines::total_line;
use crate::room::UnpackRoom;
use crate::track::{TrackRead, make_track, read_came, tell_track, track_of};
use file_maker::FileMaker;
use flux_base::Sink;
use scp_files::{Capture, ScpHeader, begins_tell};
use scp_tracks::{TrackPlace, read_begin};
use sector_report::write_line;
use track_shelf::{Shelf, file_name};

/// How many tracks a file has at most.
const TRACKS: u8 = 168;

/// How many files were made, and of how many tracks something is told.
#[derive(Clone, Copy, Debug, PartialEq, Eq)]
pub struct Unpacked {
    pub files: u32,
    pub refused: u32,
}

/// Makes a file of each track of an SCP file, in a folder, which is made before the first where it is not there. The
/// file is the stream that the track stands for, and is named by its cylinder and head. Of each track of which no file
/// is made the notes tell why, and so of each that ends inside a revolution that is not the first: its file has those
/// before. Their last line is how many files were made, and of how many tracks something is told. No answer is for want
/// of memory.
///
/// All files that have names are looked for before the folder is made: where one is there, none is made. After every
/// other fault but that of the folder the files of all tracks before are whole.
pub fn unpack<H: Shelf, M: FileMaker, N: Sink>(
    room: &mut UnpackRoom,
    path: &[u8],
    folder: &[u8],
    shelf: &mut H,
    maker: &mut M,
    notes: &mut N,
) -> Result<Unpacked, UnpackFault>
    ensures says { SaysOf (record { shelf = H.files shelf.old; path = path.now; folder = folder.now })
        (M.made maker.old) (M.made maker.new) (N.written notes.old) (N.written notes.new) result }
    ensures told { told_at H.Source H.Shelf.own shelf.new
        ≡ with_failed (unpack_lost path.now result) (told_at H.Source H.Shelf.own shelf.old) }

    // A fault of the shelf, of the maker or of the notes is told where it failed once, in the last call that could;
    // else none did.
    ensures blames { CountsBy (unpack_blame result)
        (three_counts (source_counts H.Source shelf.old) (counts_of M.faults M.failed maker.old)
        (sink_counts N.Sink notes.old))
        (three_counts (source_counts H.Source shelf.new) (counts_of M.faults M.failed maker.new)
        (sink_counts N.Sink notes.new)) }
{
    begins_tell();
    let header = match read_begin(path, shelf) {
        Ok(Some(header)) => header,
        Ok(None) => return Err(UnpackFault::NotThere),
        Err(_) => return Err(UnpackFault::ReadFault),
    };
    match header.fault() {
        Some(fault) => return Err(UnpackFault::Refused(fault)),
        None => {}
    }
    match first_there(folder, maker) {
        Some(number) => return Err(UnpackFault::Exists { number }),
        None => {}
    }
    match maker.make_folder(folder) {
        Ok(()) => {}
        Err(_) => return Err(UnpackFault::FolderFault),
    }
    unpack_tracks(
        &header,
        path,
        folder,
        &mut room.capture,
        shelf,
        maker,
        notes,
    )
}

/// The number of the first track whose file is in the folder.
fn first_there<M: FileMaker>(folder: &[u8], maker: &M) -> Option<u8>
    ensures first { IsFirstThere (M.made maker.now) folder.now result }
    ensures bound { IfSome result (λ number. number < 168) }
{
    for number in 0..TRACKS {
        let name = file_name(track_of(number));
        if maker.has_file(folder, name.as_str()) {
            return Some(number);
        }
    }
    None
}

/// Makes files of all tracks, and tells of them.
fn unpack_tracks<H: Shelf, M: FileMaker, N: Sink>(
    header: &ScpHeader,
    path: &[u8],
    folder: &[u8],
    capture: &mut Capture,
    shelf: &mut H,
    maker: &mut M,
    notes: &mut N,
) -> Result<Unpacked, UnpackFault>
    requires size { 16 ≤ length header.now }
    requires front { IsFront (record { shelf = H.files shelf.old; path = path.now; folder = folder.now }) header.now }
    ensures says { SaysOfTracks (record { shelf = H.files shelf.old; path = path.now; folder = folder.now })
        (λ files. M.made maker.new ≡ option_map (with_files files) (M.made maker.old))
        (N.written notes.old) (N.written notes.new) result }
    ensures told { told_at H.Source H.Shelf.own shelf.new
        ≡ with_failed (unpack_lost path.now result) (told_at H.Source H.Shelf.own shelf.old) }
    ensures blames { CountsBy (unpack_blame result)
        (three_counts (source_counts H.Source shelf.old) (counts_of M.faults M.failed maker.old)
        (sink_counts N.Sink notes.old))
        (three_counts (source_counts H.Source shelf.new) (counts_of M.faults M.failed maker.new)
        (sink_counts N.Sink notes.new)) }
{
    begins_tell();
    let mut unpacked = Unpacked {
        files: 0,
        refused: 0,
    };
    for number in 0..TRACKS {
        let Some(offset) = header.track(number) else {
            continue;
        };
        let place = TrackPlace {
            number,
            offset,
            revolutions: header.revolutions(),
        };
        match unpack_track(
            path,
            header.resolution(),
            place,
            folder,
            capture,
            shelf,
            maker,
            notes,
        ) {
            Ok(one) => {
                unpacked.files += one.files;
                unpacked.refused += one.refused;
            }
            Err(fault) => return Err(fault),
        }
    }
    match write_line(notes, &total_line(unpacked.files, unpacked.refused)) {
        Ok(()) => Ok(unpacked),
        Err(_) => Err(UnpackFault::NotesFault),
    }
}

/// Makes a file of a track, and tells of it.
fn unpack_track<H: Shelf, M: FileMaker, N: Sink>(
    path: &[u8],
    resolution: u8,
    place: TrackPlace,
    folder: &[u8],
    capture: &mut Capture,
    shelf: &mut H,
    maker: &mut M,
    notes: &mut N,
) -> Result<Unpacked, UnpackFault>
    requires number { place.number < 168 }
    requires revolutions { place.revolutions ≤ 255 }
    ensures track { UnpacksTrack folder.now place.number
        (λ came. (files : List File) (file : File) → H.files shelf.old ≡ Some files
        → file_at files path.now ≡ Some file → came ≡ came_of resolution place (drop place.offset file.bytes))
        (M.made maker.old) (M.made maker.new) (N.written notes.old) (N.written notes.new) result }
    ensures one { IfOk result (λ one. (one.files ≤ 1) × (one.refused ≤ 1)) }
    ensures told { told_at H.Source H.Shelf.own shelf.new
        ≡ with_failed (unpack_lost path.now result) (told_at H.Source H.Shelf.own shelf.old) }
    ensures blames { CountsBy (unpack_blame result)
        (three_counts (source_counts H.Source shelf.old) (counts_of M.faults M.failed maker.old)
        (sink_counts N.Sink notes.old))
        (three_counts (source_counts H.Source shelf.new) (counts_of M.faults M.failed maker.new)
        (sink_counts N.Sink notes.new)) }
{
    let read = match read_came(path, resolution, place, capture, shelf) {
        Ok(read) => read,
        Err(_) => return Err(UnpackFault::ReadFault),
    };
    let number = place.number;
    match make_track(folder, number, read.refusal, capture.flux(), maker) {
        Ok(()) => {}
        Err(_) => return Err(UnpackFault::FileFault { number }),
    }
    match tell_track(number, read.told, notes) {
        Ok(()) => Ok(counted(read)),
        Err(_) => Err(UnpackFault::NotesFault),
    }
}

/// What a track that was read adds to the totals.
fn counted(read: TrackRead) -> Unpacked
    ensures is { (folder : List ℕ) (number : ℕ) (flux : TrackState) → result
        ≡ count_of folder (came_read number flux read ∷ []) }
    ensures files { result.files ≤ 1 }
    ensures refused { result.refused ≤ 1 }
{
    let files = match read.refusal {
        None => 1,
        Some(_) => 0,
    };
    let refused = match read.told {
        Some(_) => 1,
        None => 0,
    };
    Unpacked { files, refused }
}
