//! A track of a dump: it is read once, and what is found of it.

ghost use Rattle.std.specs.Prelude.{◌≡◌, ◌≤◌, ◌<◌, ◌++◌, ℕ, List, [], Option, Some, true, false, length, is_err, IfOk};
ghost use Rattle.flux_base.specs.Counts.{Counts, counts_of};
ghost use Rattle.flux_base.specs.World.{source_counts};
ghost use Rattle.flux_base.specs.declared.track.TrackId.{TrackId as Id};
ghost use Rattle.scp_tracks.specs.Reads.{IsBoundedRead, IsScpRead};
ghost use Rattle.track_shelf.specs.Files.{File, file_at, scp_track_in};
ghost use Rattle.track_shelf.specs.Names.{is_scp, path_text};
ghost use Rattle.track_shelf.specs.Told.{with_closed, with_failed};
ghost use Rattle.track_shelf.specs.World.{told_at};
ghost use Rattle.flux_engine.specs.LoopProgress.{IsBoundedNext, seen_next};
ghost use Rattle.flux_engine.specs.Plans.{is_failed};
ghost use Rattle.dump_reading.specs.DumpStreams.{seen_file};
ghost use Rattle.dump_reading.specs.Files.{shelf_at};
ghost use Rattle.dump_reading.specs.lemmas.DumpTracks.{seen_read};
ghost use Rattle.dump_turns.specs.Files.{HasSize, IsToldOf, MOST_BYTES};
ghost use Rattle.dump_turns.specs.inside.Opened.{FindsOne, Holds, IsFresh, IsOpenedOf, IsWithin, is_lost, lost_path};
ghost use Rattle.dump_turns.specs.inside.Told.{IsBoundedFound};

use crate::found::Found;
use crate::measuring::measure;
use flux_base::{Failed, TrackId};
use flux_engine::{NextStream, fill};
use index_turns::TrackFlux;
use kryo_stream::{StreamRoom, growth_law};
use scp_tracks::{ScpRead, read_scp};
use sector_report::Passed;
use track_shelf::{Shelf, files_name_dumps, is_scp};

/// The most bytes of a file that are read and counted: two streams have room in them.
pub(crate) const MOST_BYTES: usize = 8388608;

/// What came of opening and reading a file.
#[derive(Clone, Copy, Debug, PartialEq, Eq)]
pub(crate) enum Opened {
    Missing,
    /// It failed as it was opened or read.
    Lost,
    /// So many bytes stand at the buffer's front.
    Whole(usize),
}

/// What is found of a track of a dump, whose file is read once into the buffer; an SCP file is read at the track's
/// place.
pub(crate) fn find_one<H: Shelf>(
    dump: &[u8],
    track: TrackId,
    buffer: &mut [u8],
    stream: &mut StreamRoom,
    shelf: &mut H,
) -> Found
    requires { length buffer.old ≡ MOST_BYTES }
    ensures found { FindsOne dump.now track (shelf_at H.Source H.Shelf.own shelf.old)
        (shelf_at H.Source H.Shelf.own shelf.new) result }
    ensures bounded { IsBoundedFound result }
    ensures len { length buffer.new ≡ length buffer.old }
{
    if is_scp(dump) {
        find_scp(dump, track, stream, shelf)
    } else {
        find_file(dump, track, buffer, stream, shelf)
    }
}

/// What is found of a track of an SCP file.
fn find_scp<H: Shelf>(dump: &[u8], track: TrackId, stream: &mut StreamRoom, shelf: &mut H) -> Found
    requires { is_scp dump.now ≡ true }
    ensures found { FindsOne dump.now track (shelf_at H.Source H.Shelf.own shelf.old)
        (shelf_at H.Source H.Shelf.own shelf.new) result }
    ensures bounded { IsBoundedFound result }
{
    files_name_dumps();
    match read_scp(dump, track, shelf, stream) {
        Ok(read) => found_of(read, stream.flux()),
        Err(_) => Found::PassedOver(Passed::Failed),
    }
}

/// What is found of a track that came so, with these transitions and index times where it was read.
fn found_of(read: ScpRead, flux: &TrackFlux) -> Found
    requires { IsBoundedRead read flux.now }
    ensures told { IsToldOf (seen_read read flux.now) result }
    ensures sized { (file : Option File) (track : Id) → IsScpRead (scp_track_in file track) read flux.now
        → HasSize (scp_track_in file track) result }
    ensures bounded { IsBoundedFound result }
{
    match read {
        ScpRead::Absent => Found::PassedOver(Passed::Absent),
        ScpRead::Read { size } => Found::Read(measure(flux, size)),
        ScpRead::Refused(fault) => Found::PassedOver(Passed::RefusedScp(fault)),
        ScpRead::Faulty { block, fault } => Found::PassedOver(Passed::Refused { block, fault }),
    }
}

/// What is found of the file of a track of a dump, which is read once into the buffer.
fn find_file<H: Shelf>(
    dump: &[u8],
    track: TrackId,
    buffer: &mut [u8],
    stream: &mut StreamRoom,
    shelf: &mut H,
) -> Found
    requires file { is_scp dump.now ≡ false }
    requires buffer { length buffer.old ≡ MOST_BYTES }
    ensures found { FindsOne dump.now track (shelf_at H.Source H.Shelf.own shelf.old)
        (shelf_at H.Source H.Shelf.own shelf.new) result }
    ensures bounded { IsBoundedFound result }
    ensures len { length buffer.new ≡ length buffer.old }
{
    match open_whole(dump, track, buffer, shelf) {
        Opened::Missing => Found::PassedOver(Passed::Absent),
        Opened::Lost => Found::PassedOver(Passed::Failed),
        Opened::Whole(count) => match read_held(&buffer[..count], stream) {
            NextStream::Read => Found::Read(measure(stream.flux(), count as u32)),
            NextStream::PassedOver(why) => Found::PassedOver(why),
        },
    }
}

/// Opens the file of a track of a dump, reads it to its end or until the buffer is full, and gives it back.
fn open_whole<H: Shelf>(dump: &[u8], track: TrackId, buffer: &mut [u8], shelf: &mut H) -> Opened
    ensures is { (files : List File) → H.files shelf.old ≡ Some files
        → IsOpenedOf (file_at files (path_text dump.now track)) buffer.new result }
    ensures told { told_at H.Source H.Shelf.own shelf.new
        ≡ with_failed (lost_path (path_text dump.now track) result) (told_at H.Source H.Shelf.own shelf.old) }
    ensures counts { Counts (is_lost result) (source_counts H.Source shelf.old) (source_counts H.Source shelf.new) }
    ensures bound { IsWithin (length buffer.new) result }
    ensures len { length buffer.new ≡ length buffer.old }
{
    match shelf.open_file(dump, track) {
        Ok(Some(file)) => match read_whole(file, buffer, shelf) {
            Ok(count) => Opened::Whole(count),
            Err(Failed) => Opened::Lost,
        },
        Ok(None) => Opened::Missing,
        Err(Failed) => Opened::Lost,
    }
}

/// Reads an open file to its end or until the buffer is full, and gives it back.
fn read_whole<H: Shelf>(file: H::File, buffer: &mut [u8], shelf: &mut H) -> Result<usize, Failed>
    ensures holds { (bytes : List ℕ) → H.File.left file ≡ Some bytes
        → IfOk result (λ count. Holds buffer.new count bytes) }
    ensures bound { IfOk result (λ count. count ≤ length buffer.new) }
    ensures len { length buffer.new ≡ length buffer.old }
    ensures told { IsFresh (counts_of H.File.faults H.File.failed file) (source_counts H.Source shelf.old)
        → told_at H.Source H.Shelf.own shelf.new
        ≡ with_closed (is_err result) (told_at H.Source H.Shelf.own shelf.old) }
    ensures counts { IsFresh (counts_of H.File.faults H.File.failed file) (source_counts H.Source shelf.old)
        → Counts (is_err result) (source_counts H.Source shelf.old) (source_counts H.Source shelf.new) }
{
    let mut file = file;
    let filled = fill(buffer, &mut file);
    shelf.close_file(file);
    filled
}

/// Reads the stream at the begin of bytes at hand. Where they are as many as are read of a file, the answer is right
/// whatever follows them.
fn read_held(held: &[u8], stream: &mut StreamRoom) -> NextStream
    requires { length held.now ≤ MOST_BYTES }
    ensures seen { (later : List ℕ) → (length held.now < MOST_BYTES → later ≡ [])
        → seen_next result stream.new.flux ≡ seen_file (held.now ++ later) }
    ensures not_failed { is_failed (seen_next result stream.new.flux).passed ≡ false }
    ensures bounded { IsBoundedNext result stream.new.flux }
{
    growth_law();
    match stream.read_held(held) {
        Ok(_) => NextStream::Read,
        Err((block, fault)) => NextStream::PassedOver(Passed::Refused { block, fault }),
    }
}
