//! What is told of files that are not made.

ghost use Rattle.std.specs.Prelude.{◌≡◌, ◌<◌, ◌≤◌, ◌++◌, codes, decimal, length};
ghost use Rattle.flux_cli.specs.FilesTold.{beyond_text, exists_text, failed_text, file_text};
ghost use Rattle.flux_engine.specs.Recordings.{track_at};
ghost use Rattle.sector_images.specs.Places.{tracks};
ghost use Rattle.stream_files.specs.Streams.{most_streams, stream_track};
ghost use Rattle.track_shelf.specs.Names.{IsNamed};

use flux_base::TrackId;
use sector_images::{Format, track_id, tracks_keep_bounds};
use sector_report::{Line, put, put_u32};
use stream_files::Heads;
use track_shelf::file_name;

/// The track of this number of a format, by which its file is named.
pub(crate) fn named_track(format: Format, number: u32) -> TrackId
    requires { number < length (tracks format) }
    ensures is { result ≡ track_at format number }
    ensures named { IsNamed result }
{
    tracks_keep_bounds();
    track_id(format, number)
}

/// The track by which the file of the stream of this number is named.
pub(crate) fn named_stream(heads: Heads, number: u32) -> TrackId
    requires { number < most_streams heads }
    ensures is { result ≡ stream_track heads number }
    ensures named { IsNamed result }
{
    heads.track(number)
}

/// The line on the file of a track that is there already.
pub(crate) fn exists_line(number: u32, track: TrackId) -> Line
    requires { IsNamed track }
    ensures { result.bytes ≡ exists_text number track }
{
    file_line("refused track ", number, " exists ", track)
}

/// The line on a stream behind that of the last file that has a name.
pub(crate) fn beyond_line(number: u32, last: TrackId) -> Line
    requires { IsNamed last }
    ensures { result.bytes ≡ beyond_text number last }
{
    file_line("refused track ", number, " beyond ", last)
}

/// The line on one that was not made, or not all of it.
pub(crate) fn failed_line(number: u32, track: TrackId) -> Line
    requires { IsNamed track }
    ensures { result.bytes ≡ failed_text number track }
{
    file_line("failed track ", number, " ", track)
}

/// The line on the folder, which was not made.
pub(crate) fn folder_line() -> Line
    ensures { result.bytes ≡ codes "failed folder\n" }
{
    let mut line = Line::new();
    put(&mut line, "failed folder\n");
    line
}

/// A line that names a track by its number and by its file.
fn file_line(front: &str, number: u32, between: &str, track: TrackId) -> Line
    requires front { length front.now ≤ 40 }
    requires between { length between.now ≤ 40 }
    requires track { IsNamed track }
    ensures { result.bytes ≡ file_text front.now number between.now track }
{
    let name = file_name(track);
    named_line(front, number, between, name.as_str())
}

/// The same, by the name of the file.
fn named_line(front: &str, number: u32, between: &str, name: &str) -> Line
    requires front { length front.now ≤ 40 }
    requires between { length between.now ≤ 40 }
    requires name { length name.now ≤ 40 }
    ensures { result.bytes ≡ front.now ++ (decimal number ++ (between.now ++ (name.now ++ codes "\n"))) }
{
    let mut line = Line::new();
    put(&mut line, front);
    put_u32(&mut line, number);
    put(&mut line, between);
    put(&mut line, name);
    put(&mut line, "\n");
    line
}
