//! A track that is read as the stream that it stands for.

ghost use Rattle.std.specs.Prelude.{◌≡◌, ◌≤◌, [], ℕ, List, Some, Ok, drop, is_err, IfOk};
ghost use Rattle.flux_base.specs.Counts.{Counts};
ghost use Rattle.flux_base.specs.World.{source_counts};
ghost use Rattle.track_shelf.specs.Files.{File, file_at, scp_track_in};
ghost use Rattle.track_shelf.specs.Told.{with_failed};
ghost use Rattle.track_shelf.specs.World.{told_at};
ghost use Rattle.scp_files.specs.Captures.{Holds};
ghost use Rattle.scp_files.specs.Disks.{track_stream};
ghost use Rattle.scp_tracks.specs.Reads.{IsBoundedRead, IsScpRead};
ghost use Rattle.scp_tracks.specs.Tracks.{lost};
ghost use Rattle.scp_tracks.specs.inside.Made.{MakesTrack};

use crate::reading::read_begin;
use crate::track::{TrackPlace, read_track};
use flux_base::{Failed, TrackId};
use index_turns::TrackFlux;
use kryo_stream::{FluxMaker, StreamFault, StreamRoom};
use scp_files::{Capture, ScpTrackFault, TrackTold, begins_tell, find_refusal, stream_size};
use track_shelf::Shelf;

/// What came of a track of an SCP file.
#[derive(Clone, Copy, Debug, PartialEq, Eq)]
pub enum ScpRead {
    /// There is no such file, or it has a fault, or not the track.
    Absent,
    /// The stream that the track stands for was read. It has so many bytes.
    Read { size: u32 },
    /// The track is refused.
    Refused(ScpTrackFault),
    /// The stream that the track stands for has this fault, in the block of this number from 0.
    Faulty { block: u32, fault: StreamFault },
}

/// Reads a track of an SCP file as the stream that it stands for: its transitions and index times are then in the
/// stream room, as if they had been read of the stream. The file is opened at each place that is read of it. `Failed`
/// comes where the shelf's count of faults rose. No memory is taken.
pub fn read_scp<H: Shelf>(
    path: &[u8],
    track: TrackId,
    shelf: &mut H,
    stream: &mut StreamRoom,
) -> Result<ScpRead, Failed>
    ensures is { (files : List File) → H.files shelf.old ≡ Some files
        → IfOk result (λ read. IsScpRead (scp_track_in (file_at files path.now) track) read stream.new.flux) }
    ensures bounded { IfOk result (λ read. IsBoundedRead read stream.new.flux) }
    ensures told { told_at H.Source H.Shelf.own shelf.new
        ≡ with_failed (lost path.now result) (told_at H.Source H.Shelf.own shelf.old) }
    ensures counts { Counts (is_err result) (source_counts H.Source shelf.old) (source_counts H.Source shelf.new) }
{
    begins_tell();
    let header = match read_begin(path, shelf) {
        Ok(Some(header)) => header,
        Ok(None) => return Ok(ScpRead::Absent),
        Err(failed) => return Err(failed),
    };
    let Some(offset) = header.place_of(track) else {
        return Ok(ScpRead::Absent);
    };
    let place = TrackPlace {
        number: 2 * track.cylinder + track.head,
        offset,
        revolutions: header.revolutions(),
    };
    let maker = TrackMaker {
        path,
        resolution: header.resolution(),
        place,
    };
    stream.fill(&maker, shelf)
}

/// A track that is there.
#[derive(Clone, Copy)]
struct TrackMaker<'a> {
    path: &'a [u8],
    resolution: u8,
    place: TrackPlace,
}

impl<'a, H: Shelf> FluxMaker<H, Result<ScpRead, Failed>> for TrackMaker<'a> {
    ghost makes = { λ it old new answer flux.
        MakesTrack it.path.now it.resolution it.place (H.files old) (told_at H.Source H.Shelf.own old)
        (told_at H.Source H.Shelf.own new) (source_counts H.Source old) (source_counts H.Source new) answer flux };

    fn make(&self, outside: &mut H, flux: TrackFlux) -> (TrackFlux, Result<ScpRead, Failed>) {
        let mut capture = Capture::begin(flux, self.resolution);
        let answer = read_captured(self.path, self.place, &mut capture, outside);
        (capture.into_flux(), answer)
    }
}

/// Reads a track into a capture that is begun.
fn read_captured<H: Shelf>(
    path: &[u8],
    place: TrackPlace,
    capture: &mut Capture,
    shelf: &mut H,
) -> Result<ScpRead, Failed>
    requires begun { Holds [] [] capture.old }
    requires revolutions { place.revolutions ≤ 255 }
    ensures is { (files : List File) (file : File) → H.files shelf.old ≡ Some files → file_at files path.now ≡ Some file
        → IfOk result (λ read. IsScpRead (Some (track_stream capture.old.resolution place.revolutions place.number
        (drop place.offset file.bytes))) read capture.new.flux) }
    ensures bounded { IfOk result (λ read. IsBoundedRead read capture.new.flux) }
    ensures told { told_at H.Source H.Shelf.own shelf.new
        ≡ with_failed (lost path.now result) (told_at H.Source H.Shelf.own shelf.old) }
    ensures counts { Counts (is_err result) (source_counts H.Source shelf.old) (source_counts H.Source shelf.new) }
{
    let fault = match read_track(path, place, capture, shelf) {
        Ok(fault) => fault,
        Err(failed) => return Err(failed),
    };
    match find_refusal(fault, capture) {
        None => Ok(ScpRead::Read {
            size: stream_size(capture.flux()),
        }),
        Some(TrackTold::Fault(fault)) => Ok(ScpRead::Refused(fault)),
        Some(TrackTold::Refused { block, fault }) => Ok(ScpRead::Faulty { block, fault }),
    }
}
