//! One track: it is read, made a file, and told.

ghost use Rattle.std.specs.Prelude.{◌≡◌, ◌≤◌, ◌<◌, ◌+◌, ◌^◌, ℕ, List, Some, None, All, drop, is_err, length, IfOk};
ghost use Rattle.file_maker.specs.Makes.{MakesFile};
ghost use Rattle.flux_base.specs.Counts.{Counts, counts_of};
ghost use Rattle.flux_base.specs.Moments.{Puts};
ghost use Rattle.flux_base.specs.World.{sink_at, source_counts};
ghost use Rattle.flux_writer.specs.Trailing.{stream_of_capture};
ghost use Rattle.track_shelf.specs.Files.{File, file_at};
ghost use Rattle.track_shelf.specs.Told.{with_failed};
ghost use Rattle.track_shelf.specs.World.{told_at};
ghost use Rattle.scp_tracks.specs.Tracks.{lost};
ghost use Rattle.scp_unpack.specs.Files.{file_with, line_by};
ghost use Rattle.scp_unpack.specs.Tracks.{came_of, stream_by, told_by, track_of};
ghost use Rattle.scp_unpack.specs.inside.Came.{CanBeWritten, MakesTrack, came_read};

use crate::lines::told_line;
use file_maker::FileMaker;
use flux_base::{Failed, Sink, TrackId};
use flux_writer::write_times;
use index_turns::TrackFlux;
use scp_files::{Capture, ScpTrackFault, TrackTold, find_refusal};
use scp_tracks::{TrackPlace, read_track};
use sector_report::write_line;
use track_shelf::{Shelf, file_name};

/// What came of reading a track into a capture: why no file is made of it, if none is, and what is told of it.
#[derive(Clone, Copy, Debug)]
pub(crate) struct TrackRead {
    pub(crate) refusal: Option<TrackTold>,
    pub(crate) told: Option<TrackTold>,
}

/// Reads a track into the capture.
pub(crate) fn read_came<H: Shelf>(
    path: &[u8],
    resolution: u8,
    place: TrackPlace,
    capture: &mut Capture,
    shelf: &mut H,
) -> Result<TrackRead, Failed>
    requires revolutions { place.revolutions ≤ 255 }
    ensures is { (files : List File) (file : File) → H.files shelf.old ≡ Some files → file_at files path.now ≡ Some file
        → IfOk result (λ read. came_read place.number capture.new.flux read
        ≡ came_of resolution place (drop place.offset file.bytes)) }
    ensures written { IfOk result (λ read. read.refusal ≡ None → CanBeWritten capture.new.flux) }
    ensures told { told_at H.Source H.Shelf.own shelf.new
        ≡ with_failed (lost path.now result) (told_at H.Source H.Shelf.own shelf.old) }
    ensures counts { Counts (is_err result) (source_counts H.Source shelf.old) (source_counts H.Source shelf.new) }
{
    capture.restart(resolution);
    let fault = match read_track(path, place, capture, shelf) {
        Ok(fault) => fault,
        Err(failed) => return Err(failed),
    };
    let refusal = find_refusal(fault, capture);
    let told = told_by(refusal, fault);
    Ok(TrackRead { refusal, told })
}

/// What is told of a track that is refused for this, if for anything, and was read with this fault, or none.
fn told_by(refusal: Option<TrackTold>, fault: Option<ScpTrackFault>) -> Option<TrackTold>
    ensures { result ≡ told_by refusal fault }
{
    match (refusal, fault) {
        (Some(why), _) => Some(why),
        (None, Some(fault)) => Some(TrackTold::Fault(fault)),
        (None, None) => None,
    }
}

/// Makes the file of the track of this number in the folder, the stream of these transitions and index times, where it
/// is not refused.
pub(crate) fn make_track<M: FileMaker>(
    folder: &[u8],
    number: u8,
    refusal: Option<TrackTold>,
    flux: &TrackFlux,
    maker: &mut M,
) -> Result<(), Failed>
    requires number { number < 168 }
    requires written { refusal ≡ None → CanBeWritten flux.now }
    ensures made { MakesTrack folder.now number (stream_by refusal (stream_of_capture flux.now.times flux.now.indexes))
        (M.made maker.old) (M.made maker.new) result }
    ensures counts { Counts (is_err result) (counts_of M.faults M.failed maker.old)
        (counts_of M.faults M.failed maker.new) }
{
    match refusal {
        Some(_) => Ok(()),
        None => make_stream(folder, number, flux, maker),
    }
}

/// Makes the file of the track of this number in the folder: the stream of these transitions and index times.
fn make_stream<M: FileMaker>(
    folder: &[u8],
    number: u8,
    flux: &TrackFlux,
    maker: &mut M,
) -> Result<(), Failed>
    requires number { number < 168 }
    requires written { CanBeWritten flux.now }
    ensures made { MakesFile (file_with folder.now number (stream_of_capture flux.now.times flux.now.indexes))
        (M.made maker.old) (M.made maker.new) result }
    ensures counts { Counts (is_err result) (counts_of M.faults M.failed maker.old)
        (counts_of M.faults M.failed maker.new) }
{
    let name = file_name(track_of(number));
    let mut file = match maker.make_file(folder, name.as_str()) {
        Ok(file) => file,
        Err(failed) => return Err(failed),
    };
    let answer = write_times(flux, &mut file);
    maker.close_file(file);
    answer
}

/// Tells of the track of this number what there is to tell.
pub(crate) fn tell_track<N: Sink>(
    number: u8,
    told: Option<TrackTold>,
    notes: &mut N,
) -> Result<(), Failed>
    requires number { number < 168 }
    ensures { Puts (sink_at N.Sink notes.old) (sink_at N.Sink notes.new) (line_by number told) result }
{
    match told {
        Some(told) => write_line(notes, &told_line(track_of(number), &told)),
        None => Ok(()),
    }
}

/// The cylinder and head of a track's number, by which its file is named.
pub fn track_of(number: u8) -> TrackId
    requires number { number < 168 }
    ensures value { result ≡ track_of number }
    ensures cylinder { result.cylinder < 100 }
    ensures head { result.head < 2 }
{
    TrackId {
        cylinder: number / 2,
        head: number % 2,
    }
}
