//! What is found of a track.

ghost use Rattle.std.specs.Prelude.{◌≡◌, ◌<◌, ◌≤◌, ◌+◌, length};
ghost use Rattle.dump_reading.specs.Files.{shelf_at};
ghost use Rattle.dump_turns.specs.Reaches.{IsBoundedReach, count_in};
ghost use Rattle.flux_engine.specs.LoopProgress.{IsBoundedNext, seen_next};
ghost use Rattle.imd_image.specs.Reaches.{of_reach};
ghost use Rattle.imd_image.specs.inside.Counted.{HasRows};
ghost use Rattle.imd_image.specs.inside.Finding.{HasFoundTrack, HasNotedFile, HasNotedStream, found_in};

use crate::reach::track_of;
use crate::room::TrackRoom;
use crate::streams::note_stream;
use dump_reading::Dumps;
use dump_turns::Reach;
use flux_base::TrackId;
use flux_engine::{NextStream, PassedStream, PassedStreams};
use ibm_walks::WalkRoom;
use imd_records::{TrackBooks, choose, fill_rows};
use index_turns::TrackFlux;
use kryo_stream::StreamRoom;
use track_shelf::Shelf;

/// Reads the files of a track, and finds what its record has.
pub(crate) fn find_track<H: Shelf>(
    dumps: &Dumps,
    reach: Reach,
    number: u8,
    stream: &mut StreamRoom,
    walk: &mut WalkRoom,
    room: &mut TrackRoom,
    shelf: &mut H,
)
    requires reach { IsBoundedReach reach }
    requires number { number < count_in reach }
    requires few { length dumps.now.names.now ≤ 16 }
    ensures found { HasFoundTrack (of_reach dumps.now.stepping dumps.now.names.now reach) number
        (shelf_at H.Source H.Shelf.own shelf.old) (shelf_at H.Source H.Shelf.own shelf.new) (found_in room.new) }
    ensures rows { HasRows room.new }
    ensures head { room.new.track.head < 2 }
    ensures passed { length room.new.passed.items ≤ 16 }
{
    let track = track_of(reach, number);
    room.track = track;
    room.books.clear();
    room.passed.clear();
    for dump in 0..dumps.names.len() {
        note_file(
            dumps,
            track,
            dump as u8,
            stream,
            walk,
            &mut room.books,
            &mut room.passed,
            shelf,
        );
    }
    room.choice = choose(&room.books);
    fill_rows(
        room.books.book(room.choice.mode),
        room.choice.code,
        &mut room.rows,
    );
}

/// Reads the file of a track in a dump, and notes all that it says, or that it is passed over.
fn note_file<H: Shelf>(
    dumps: &Dumps,
    track: TrackId,
    dump: u8,
    stream: &mut StreamRoom,
    walk: &mut WalkRoom,
    books: &mut TrackBooks,
    passed: &mut PassedStreams,
    shelf: &mut H,
)
    requires track { track.cylinder < 128 }
    requires room { length passed.old.items < 16 }
    ensures noted { HasNotedFile dumps.now.stepping dumps.now.names.now track dump
        (shelf_at H.Source H.Shelf.own shelf.old) (shelf_at H.Source H.Shelf.own shelf.new) books.old books.new
        passed.old.items passed.new.items }
    ensures few { length passed.new.items ≤ length passed.old.items + 1 }
{
    let next = dumps.read(track, dump, shelf, stream);
    note_next(next, dump, stream.flux(), walk, books);
    if let NextStream::PassedOver(why) = next {
        passed.push(PassedStream { capture: dump, why });
    }
}

/// Notes all that a stream says.
fn note_next(
    next: NextStream,
    dump: u8,
    flux: &TrackFlux,
    walk: &mut WalkRoom,
    books: &mut TrackBooks,
)
    requires { IsBoundedNext next flux.now }
    ensures { HasNotedStream (seen_next next flux.now) dump books.old books.new }
{
    match next {
        NextStream::Read => note_stream(dump, flux, walk, books),
        NextStream::PassedOver(_) => {}
    }
}
