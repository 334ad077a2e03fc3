ghost use Rattle.std.specs.Prelude.{◌≡◌, ◌<◌, Bool, List, length, drop, IfSome};
ghost use Rattle.frame_law.specs.Controller.{FirstAt};
ghost use Rattle.frame_law.specs.Others.{IsFoundHeader};
ghost use Rattle.frame_law.specs.Readings.{FirstReading};

use crate::{FoundHeader, Reading, Recording, SectorBuffer};
use cell_bits::Cells;
use flux_base::{HeaderName, TrackId};

/// The first place that is at least `from` and at which a header of the track stands, and its sector.
/// None exactly where there is none.
pub fn next_header<R: Recording>(
    recording: &R,
    cells: &Cells,
    from: usize,
    track: TrackId,
) -> Option<(usize, u8)>
    requires { R.has_track recording.now track }
    ensures first { FirstAt (λ place sector. R.header_at recording.now track (drop place cells.now.cells) sector) from
        result }
    ensures within { IfSome result (λ found. found.0 < length cells.now.cells) }
{
    let word = recording.sync();
    let word_cells = recording.sync_cells();
    let mut behind = from;
    while let Some(place) = cells.find_word(behind, cells.len(), word, word_cells) {
        if let Some(sector) = recording.header_after_sync(cells, place, track) {
            return Some((place, sector));
        }
        behind = place + 1;
    }
    None
}

/// The first place that is at least `from` and at which a header of any name stands, and whether it is one of the
/// track's sectors or another. None exactly where there is none.
pub fn next_found<R: Recording>(
    recording: &R,
    cells: &Cells,
    from: usize,
    track: TrackId,
) -> Option<(usize, FoundHeader)>
    requires { R.has_track recording.now track }
    ensures first { let named = R.named_at recording.now in
        let header = R.header_at recording.now track in
        FirstAt (λ place found. IsFoundHeader named header (drop place cells.now.cells) found) from result }
    ensures within { IfSome result (λ found. found.0 < length cells.now.cells) }
{
    let word = recording.sync();
    let word_cells = recording.sync_cells();
    let mut behind = from;
    while let Some(place) = cells.find_word(behind, cells.len(), word, word_cells) {
        if let Some(name) = recording.name_after_sync(cells, place) {
            return Some((place, found_header(recording, track, name)));
        }
        behind = place + 1;
    }
    None
}

/// What a header of this name is on the track.
fn found_header<R: Recording>(recording: &R, track: TrackId, name: HeaderName) -> FoundHeader
    requires { R.has_track recording.now track }
    ensures { (cells : List Bool) → R.named_at recording.now cells name
        → IsFoundHeader (R.named_at recording.now) (R.header_at recording.now track) cells result }
{
    match recording.sector_of_name(track, name) {
        Some(sector) => FoundHeader::Sector(sector),
        None => FoundHeader::Other(name),
    }
}

/// The first reading at a place that is at least `from`: the least such place at which a header of the track
/// stands, and what is read there. None exactly where there is none. The buffer then has a good sector's
/// bytes, and is else empty.
pub fn next_reading<R: Recording>(
    recording: &R,
    cells: &Cells,
    from: usize,
    track: TrackId,
    buffer: &mut SectorBuffer,
) -> Option<(usize, Reading)>
    requires { R.has_track recording.now track }
    ensures first { let header = R.header_at recording.now track in
        let sector = R.sector_at recording.now track in
        FirstReading header sector cells.now.cells from result buffer.new.items }
    ensures within { IfSome result (λ found. found.0 < length cells.now.cells) }
{
    let sync = recording.sync();
    let sync_cells = recording.sync_cells();
    let mut start = from;
    while let Some(place) = cells.find_word(start, cells.len(), sync, sync_cells) {
        match recording.read_after_sync(cells, place, track, buffer) {
            Reading::Nothing => start = place + 1,
            reading => return Some((place, reading)),
        }
    }
    buffer.clear();
    None
}
