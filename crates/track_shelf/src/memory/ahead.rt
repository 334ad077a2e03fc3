//! The files in memory that are read one after another, and the bytes of them that are still to come.

ghost use Rattle.std.specs.Prelude.{◌≡◌, ◌<◌, [], Some, get_or, length, map, min, take, IfOk, IfSome, IfErr, IfNone};
ghost use Rattle.std.specs.Prelude.{None};
ghost use Rattle.sector_images.specs.Places.{tracks};
ghost use Rattle.track_shelf.specs.Files.{file_at, first_missing, track_bytes};
ghost use Rattle.track_shelf.specs.Memory.{ahead_from, bytes_at, cut_first, first_piece, pieces_of, with_bytes};

use super::files::{ShelfFile, place_of};
use crate::path::TrackPath;
use arrayvec::ArrayVec;
use flux_base::copy_front;
use sector_images::{Format, track_count, track_id, tracks_keep_bounds};

/// More than a format has tracks.
const MOST_PLACES: usize = 1000;

/// Places of files among the files.
pub(super) type Places = ArrayVec<usize, MOST_PLACES>;

/// The place of the file of this path, if it is there.
pub(super) fn find_file(files: &[ShelfFile], path: &TrackPath) -> Places
    ensures { map (bytes_at files.now) result.items ≡ pieces_of (file_at files.now path.now) }
{
    let mut places = Places::new();
    if let Some(place) = place_of(files, path) {
        places.push(place);
    }
    places
}

/// The places of the files of all the format's tracks, in a folder. Else the number of the first track whose file is
/// missing.
pub(super) fn find_wanted(files: &[ShelfFile], folder: &[u8], format: Format) -> Result<Places, u32>
    ensures missing { IfErr result
        (λ number. (first_missing files.now folder.now format ≡ Some number) × (number < length (tracks format))) }
    ensures found { IfOk result (λ places. (first_missing files.now folder.now format ≡ None)
        × (map (bytes_at files.now) places.items ≡ map (track_bytes files.now folder.now) (tracks format))) }
{
    tracks_keep_bounds();
    let mut places = Places::new();
    for number in 0..track_count(format) {
        let path = TrackPath::in_folder(folder, track_id(format, number));
        match place_of(files, &path) {
            Some(place) => places.push(place),
            None => return Err(number),
        }
    }
    Ok(places)
}

/// The byte that comes next: the number of its file among the places, and where it stands in that file.
#[derive(Clone, Copy, Debug)]
pub(super) struct Next {
    pub number: usize,
    pub start: usize,
}

/// The bytes of the file at the place of this number.
fn bytes_of<'a>(files: &'a [ShelfFile], places: &[usize], number: usize) -> &'a [u8]
    requires { number < length places.now }
    ensures { result.now ≡ bytes_at files.now (get_or places.now number 0) }
{
    match files.get(places[number]) {
        Some(file) => file.bytes(),
        None => &[],
    }
}

/// Passes over files of which all bytes are taken. None where nothing is still to come.
fn pass_taken(files: &[ShelfFile], places: &[usize], from: Next) -> Option<Next>
    ensures end { IfNone result (ahead_from files.now places.now from.number from.start ≡ []) }
    ensures same { IfSome result (λ next. ahead_from files.now places.now next.number next.start
        ≡ ahead_from files.now places.now from.number from.start) }
    ensures next { IfSome result (λ next. (next.number < length places.now)
        × (next.start < length (bytes_at files.now (get_or places.now next.number 0)))) }
{
    let mut next = from;
    while next.number < places.len() {
        if next.start < bytes_of(files, places, next.number).len() {
            return Some(next);
        }
        next = Next {
            number: next.number + 1,
            start: 0,
        };
    }
    None
}

/// Puts bytes of the file at hand at the buffer's front, at most so many. Says what comes next then, and how many they
/// are.
pub(super) fn give(
    files: &[ShelfFile],
    places: &[usize],
    from: Next,
    most: u32,
    buffer: &mut [u8],
) -> (Next, usize)
    requires { 0 < most }
    ensures count { result.1
        ≡ min (min most (length buffer.old))
        (length (first_piece (ahead_from files.now places.now from.number from.start))) }
    ensures front { take result.1 buffer.new
        ≡ take result.1 (first_piece (ahead_from files.now places.now from.number from.start)) }
    ensures len { length buffer.new ≡ length buffer.old }
    ensures later { ahead_from files.now places.now result.0.number result.0.start
        ≡ with_bytes (cut_first result.1 (ahead_from files.now places.now from.number from.start)) }
    ensures end { result.1 ≡ 0 → 0 < length buffer.old → ahead_from files.now places.now from.number from.start ≡ [] }
{
    let Some(next) = pass_taken(files, places, from) else {
        return (from, 0);
    };
    let left = &bytes_of(files, places, next.number)[next.start..];
    let given = copy_front(&left[..left.len().min(most as usize)], buffer);
    let start = next.start + given;
    (Next { start, ..next }, given)
}
