//! The dumps of a disk, and where the streams of its tracks lie in them.

ghost use Rattle.std.specs.Prelude.{◌≡◌, ◌<◌, List, ℕ, Some, true, false};
ghost use Rattle.flux_base.specs.Counts.{Counts, counts_of};
ghost use Rattle.flux_base.specs.World.{source_counts};
ghost use Rattle.track_shelf.specs.World.{told_at};
ghost use Rattle.dump_reading.specs.DumpStreams.{GaveOf, HaveComeOf, IsOrFailed, of_disk};
ghost use Rattle.dump_reading.specs.inside.DumpStreams.{is_lost, lost_path};
ghost use Rattle.dump_reading.specs.DumpStreams.{seen_file, seen_of};
ghost use Rattle.dump_reading.specs.lemmas.Coming.{none_came};
ghost use Rattle.dump_reading.specs.Files.{shelf_at};
ghost use Rattle.dump_reading.specs.inside.Files.{IsFresh};
ghost use Rattle.dump_reading.specs.lemmas.DumpTracks.{seen_read};
ghost use Rattle.flux_engine.specs.LoopProgress.{IsBoundedNext, seen_next};
ghost use Rattle.index_turns.specs.Track.{TrackState};
ghost use Rattle.scp_tracks.specs.Reads.{IsBoundedRead};
ghost use Rattle.track_shelf.specs.Files.{File, dump_track};
ghost use Rattle.track_shelf.specs.Names.{is_scp, path_text};
ghost use Rattle.track_shelf.specs.Told.{with_closed, with_failed};

use flux_base::{Failed, TrackId, Word};
use flux_engine::{CaptureFault, NamedStreams, NextStream, TrackStreams, read_stream};
use kryo_stream::StreamRoom;
use scp_tracks::{ScpRead, read_scp};
use sector_images::{Format, track_id, tracks_keep_bounds};
use sector_report::Passed;
use track_shelf::{Shelf, Stepping, files_name_dumps, is_scp};

/// The dumps of a disk, each of which may have a file for each of its tracks, or be an SCP file of them all.
#[derive(Clone, Copy)]
pub struct Dumps<'a> {
    /// By their names: each is a folder, one of its files, or an SCP file.
    pub names: &'a [Word],
    /// How the disk's cylinders lie in their files.
    pub stepping: Stepping,
}

impl<'a> Dumps<'a> {
    /// Reads a track in the dump of this number: the stream at the begin of its file, or that for which it stands in an
    /// SCP file. One that is missing or refused is passed over, and so is one whose file fails as it is opened or read.
    /// There may be no such dump. No memory is taken.
    pub fn read<H: Shelf>(
        &self,
        track: TrackId,
        dump: u8,
        shelf: &mut H,
        stream: &mut StreamRoom,
    ) -> NextStream
        requires { track.cylinder < 128 }
        ensures gave { GaveOf self.now.stepping self.now.names.now track dump (shelf_at H.Source H.Shelf.own shelf.old)
            (shelf_at H.Source H.Shelf.own shelf.new) (seen_next result stream.new.flux) }
        ensures bounded { IsBoundedNext result stream.new.flux }
    {
        let track = self.stepping.file_track(track);
        match self.names.get(usize::from(dump)) {
            Some(name) => read_dump(name.bytes(), track, shelf, stream),
            // There are not so many dumps.
            None => NextStream::PassedOver(Passed::Absent),
        }
    }
}

impl<'a, H: Shelf> TrackStreams<H> for Dumps<'a> {
    ghost came = { λ dumps plan format start now held used before.
        HaveComeOf (of_disk dumps.stepping dumps.names.now plan.captures format) (shelf_at H.Source H.Shelf.own start)
        (shelf_at H.Source H.Shelf.own now) before };

    // No file ends a disk.
    ghost ended = { λ dumps plan format start now before fault. ⊥ };

    fn next_stream(
        &self,
        format: Format,
        number: u32,
        capture: u8,
        source: &mut H,
        stream: &mut StreamRoom,
    ) -> Result<NextStream, CaptureFault> {
        tracks_keep_bounds();
        Ok(self.read(track_id(format, number), capture, source, stream))
    }

    ghost begins = { λ dumps plan format now.
        none_came (of_disk dumps.stepping dumps.names.now plan.captures format) (shelf_at H.Source H.Shelf.own now) };
}

/// Tracks by their ids, whether the format has them or not.
impl<'a, H: Shelf> NamedStreams<H> for Dumps<'a> {
    ghost gave = { λ dumps old new track capture here.
        GaveOf dumps.stepping dumps.names.now track capture (shelf_at H.Source H.Shelf.own old)
        (shelf_at H.Source H.Shelf.own new) here };

    fn stream_of(
        &self,
        track: TrackId,
        capture: u8,
        source: &mut H,
        stream: &mut StreamRoom,
    ) -> NextStream {
        self.read(track, capture, source, stream)
    }
}

/// Reads a track of a dump. One that is missing or refused is passed over, and so is one whose file fails as it is
/// opened or read.
fn read_dump<H: Shelf>(
    dump: &[u8],
    track: TrackId,
    shelf: &mut H,
    stream: &mut StreamRoom,
) -> NextStream
    ensures seen { (files : List File) → H.files shelf.old ≡ Some files
        → IsOrFailed (seen_next result stream.new.flux) (seen_of (dump_track files dump.now track)) }
    ensures told { told_at H.Source H.Shelf.own shelf.new
        ≡ with_failed (lost_path (path_text dump.now track) result) (told_at H.Source H.Shelf.own shelf.old) }
    ensures bounded { IsBoundedNext result stream.new.flux }
    ensures counts { Counts (is_lost result) (source_counts H.Source shelf.old) (source_counts H.Source shelf.new) }
{
    if is_scp(dump) {
        read_track(dump, track, shelf, stream)
    } else {
        open_dump(dump, track, shelf, stream)
    }
}

/// Reads a track of an SCP file: the stream that it stands for.
fn read_track<H: Shelf>(
    dump: &[u8],
    track: TrackId,
    shelf: &mut H,
    stream: &mut StreamRoom,
) -> NextStream
    requires { is_scp dump.now ≡ true }
    ensures seen { (files : List File) → H.files shelf.old ≡ Some files
        → IsOrFailed (seen_next result stream.new.flux) (seen_of (dump_track files dump.now track)) }
    ensures told { told_at H.Source H.Shelf.own shelf.new
        ≡ with_failed (lost_path (path_text dump.now track) result) (told_at H.Source H.Shelf.own shelf.old) }
    ensures bounded { IsBoundedNext result stream.new.flux }
    ensures counts { Counts (is_lost result) (source_counts H.Source shelf.old) (source_counts H.Source shelf.new) }
{
    files_name_dumps();
    match read_scp(dump, track, shelf, stream) {
        Ok(read) => next_of(read),
        Err(_) => NextStream::PassedOver(Passed::Failed),
    }
}

/// The same as the next stream.
fn next_of(read: ScpRead) -> NextStream
    ensures seen { (flux : TrackState) → seen_next result flux ≡ seen_read read flux }
    ensures bounded { (flux : TrackState) → IsBoundedRead read flux → IsBoundedNext result flux }
    ensures kept { is_lost result ≡ false }
{
    match read {
        ScpRead::Absent => NextStream::PassedOver(Passed::Absent),
        ScpRead::Read { .. } => NextStream::Read,
        ScpRead::Refused(fault) => NextStream::PassedOver(Passed::RefusedScp(fault)),
        ScpRead::Faulty { block, fault } => NextStream::PassedOver(Passed::Refused {
            block,
            fault,
        }),
    }
}

/// Reads the file of a track of a dump: the stream at its begin.
fn open_dump<H: Shelf>(
    dump: &[u8],
    track: TrackId,
    shelf: &mut H,
    stream: &mut StreamRoom,
) -> NextStream
    requires { is_scp dump.now ≡ false }
    ensures seen { (files : List File) → H.files shelf.old ≡ Some files
        → IsOrFailed (seen_next result stream.new.flux) (seen_of (dump_track files dump.now track)) }
    ensures told { told_at H.Source H.Shelf.own shelf.new
        ≡ with_failed (lost_path (path_text dump.now track) result) (told_at H.Source H.Shelf.own shelf.old) }
    ensures bounded { IsBoundedNext result stream.new.flux }
    ensures counts { Counts (is_lost result) (source_counts H.Source shelf.old) (source_counts H.Source shelf.new) }
{
    match shelf.open_file(dump, track) {
        Ok(Some(file)) => read_file(file, shelf, stream),
        Ok(None) => NextStream::PassedOver(Passed::Absent),
        Err(Failed) => NextStream::PassedOver(Passed::Failed),
    }
}

/// Reads an open file, and gives it back: the stream at its begin, which is passed over where it is refused, or where a
/// read fails. What follows its End is not looked at.
fn read_file<H: Shelf>(file: H::File, shelf: &mut H, stream: &mut StreamRoom) -> NextStream
    ensures seen { (bytes : List ℕ) → H.File.left file ≡ Some bytes
        → IsOrFailed (seen_next result stream.new.flux) (seen_file bytes) }
    ensures told { IsFresh (counts_of H.File.faults H.File.failed file) (source_counts H.Source shelf.old)
        → told_at H.Source H.Shelf.own shelf.new
        ≡ with_closed (is_lost result) (told_at H.Source H.Shelf.own shelf.old) }
    ensures bounded { IsBoundedNext result stream.new.flux }
    ensures counts { IsFresh (counts_of H.File.faults H.File.failed file) (source_counts H.Source shelf.old)
        → Counts (is_lost result) (source_counts H.Source shelf.old) (source_counts H.Source shelf.new) }
{
    let mut file = file;
    stream.restart();
    let answer = read_stream(&mut file, stream);
    shelf.close_file(file);
    match answer {
        Ok(()) => NextStream::Read,
        Err(CaptureFault::Refused { block, fault }) => {
            NextStream::PassedOver(Passed::Refused { block, fault })
        }
        Err(CaptureFault::ReadFault) => NextStream::PassedOver(Passed::Failed),
    }
}
