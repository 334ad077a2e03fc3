//! The tracks that dumps may have files of beside those of the format: no sector of them is wanted, and all headers in
//! them are others.

ghost use Rattle.std.specs.Prelude.{◌≡◌, ◌≤◌, ◌<◌, ◌+◌, ◌*◌, ℕ, List, [], Some, length, is_err, is_some, slice_get};
ghost use Rattle.std.specs.Prelude.{IfSome, OnErr, OnOk};
ghost use Rattle.flux_base.specs.Counts.{Counts};
ghost use Rattle.flux_base.specs.Moments.{Puts};
ghost use Rattle.flux_base.specs.declared.track.TrackId.{TrackId as Id};
ghost use Rattle.flux_base.specs.World.{sink_at, sink_counts};
ghost use Rattle.flux_engine.specs.Counts.{AreCountsBelow};
ghost use Rattle.flux_engine.specs.Plans.{Seen};
ghost use Rattle.flux_engine.specs.Recordings.{track_at};
ghost use Rattle.sector_images.specs.Formats.{row};
ghost use Rattle.sector_images.specs.Places.{IsTrack, tracks};
ghost use Rattle.turn_merge.specs.Others.{NotedOther, OthersStandFor};
ghost use Rattle.dump_reading.specs.Beside.{LinesOf, TookLines, beside_lines, is_track, most_cylinders, near_track, no_lines};
ghost use Rattle.dump_reading.specs.Beside.{of_tracks};
ghost use Rattle.dump_reading.specs.DumpStreams.{HaveComeOf};
ghost use Rattle.dump_reading.specs.Files.{ShelfNow, shelf_at};
ghost use Rattle.dump_reading.specs.inside.Looks.{HasTakenTo, LooksAsAsked, LooksAsAskedSecond, LooksAtOne};
ghost use Rattle.dump_reading.specs.inside.Looks.{LooksAtOneSecond, LooksInto};
ghost use Rattle.dump_reading.specs.Outcomes.{disk_by};
ghost use Rattle.dump_reading.specs.Reports.{plan_by};

use crate::dumps::Dumps;
use crate::looks::Looks;
use crate::report::{write_others, write_passed};
use flux_base::{Failed, Sink, TrackId};
use flux_engine::{
    Clocks, DiskRoom, Gathered, NoSecond, SecondSinks, count_names, room_format, room_gathered,
    start_track, take_names,
};
use sector_images::{Format, track_count, track_id, tracks_keep_bounds};
use sector_report::Totals;
use track_shelf::{Shelf, Stepping};

/// What becomes of such a track: lines, or nothing; and lines for the second sinks.
pub trait BesideWriter<D: SecondSinks> {
    /// Its lines, by the captures that are passed over and by all others.
    ghost lines_of: { Self → LinesOf };

    /// The same for the notes of the second sinks.
    ghost second_lines_of: { Self → LinesOf };

    /// Writes them, each in one piece. A fault of a second sink ends nothing.
    fn write_beside<N: Sink>(
        &self,
        track: TrackId,
        gathered: &Gathered,
        notes: &mut N,
        second: &mut D,
    ) -> Result<(), Failed>
        requires { track.cylinder < 100 }
        ensures wrote { (others : List NotedOther) → OthersStandFor gathered.now.others others
            → Puts (sink_at N.Sink notes.old) (sink_at N.Sink notes.new)
            (lines_of self.now track gathered.now.passed.items others) result }
        ensures second { OnOk result
            ((others : List NotedOther) → OthersStandFor gathered.now.others others
            → TookLines (second_lines_of self.now track gathered.now.passed.items others) (D.now second.old)
            (D.now second.new)) };
}

/// The lines of the report.
#[derive(Clone, Copy, Debug)]
pub struct BesideReport;

impl BesideWriter<NoSecond> for BesideReport {
    ghost lines_of = { λ _. beside_lines };

    ghost second_lines_of = { λ _. beside_lines };

    fn write_beside<N: Sink>(
        &self,
        track: TrackId,
        gathered: &Gathered,
        notes: &mut N,
        second: &mut NoSecond,
    ) -> Result<(), Failed> {
        match write_passed(track, &gathered.passed, notes) {
            Ok(()) => write_others(track, &gathered.others, notes),
            Err(failed) => Err(failed),
        }
    }
}

/// None, where the notes get no report.
#[derive(Clone, Copy, Debug)]
pub struct Unsaid;

impl BesideWriter<NoSecond> for Unsaid {
    ghost lines_of = { λ _. no_lines };

    ghost second_lines_of = { λ _. no_lines };

    fn write_beside<N: Sink>(
        &self,
        track: TrackId,
        gathered: &Gathered,
        notes: &mut N,
        second: &mut NoSecond,
    ) -> Result<(), Failed> {
        Ok(())
    }
}

/// Looks at the files of all tracks beside the format's, by their cylinders and then by their heads, where
/// that is asked for by what the format's tracks came to. What was counted of these is counted on. The room's
/// tracks are done with: it is used again for each of those beside, which is read with the ring and the cell
/// of the format's nearest track.
pub(crate) fn read_beside<B: BesideWriter<D>, D: SecondSinks, H: Shelf, N: Sink>(
    clocks: Clocks,
    looks: Looks,
    sectors: &Totals,
    dumps: &Dumps,
    writer: &B,
    room: &mut DiskRoom,
    shelf: &mut H,
    notes: &mut N,
    second: &mut D,
) -> Result<(), Failed>
    requires few { length dumps.now.names.now ≤ 16 }
    requires below { AreCountsBelow room.old (length (tracks room.old.format)) }
    ensures ok { OnOk result
        (LooksAsAsked (B.lines_of writer.now) (disk_by clocks looks dumps.now room.old.format) sectors.now
        (shelf_at H.Source H.Shelf.own shelf.old) (shelf_at H.Source H.Shelf.own shelf.new) room.old room.new
        (N.written notes.old) (N.written notes.new)) }
    ensures second { OnOk result
        (LooksAsAskedSecond (B.second_lines_of writer.now) (disk_by clocks looks dumps.now room.old.format) sectors.now
        (shelf_at H.Source H.Shelf.own shelf.old) (shelf_at H.Source H.Shelf.own shelf.new) room.old room.new
        (D.now second.old) (D.now second.new)) }
    ensures err { OnErr result
        (LooksInto (B.lines_of writer.now) (disk_by clocks looks dumps.now room.old.format) sectors.now
        (shelf_at H.Source H.Shelf.own shelf.old) (shelf_at H.Source H.Shelf.own shelf.new) (N.written notes.old)
        (N.written notes.new)) }
    ensures counts { Counts (is_err result) (sink_counts N.Sink notes.old) (sink_counts N.Sink notes.new) }
{
    if !looks.wants(sectors) {
        return Ok(());
    }
    tracks_keep_bounds();
    for number in 0..2 * most_cylinders(dumps.stepping) {
        let track = TrackId {
            cylinder: number / 2,
            head: number % 2,
        };
        if number_of(room_format(room), track).is_none() {
            match read_one(clocks, dumps, writer, track, room, shelf, notes, second) {
                Ok(()) => {}
                Err(failed) => return Err(failed),
            }
        }
    }
    Ok(())
}

/// Looks at the files of one such track.
fn read_one<B: BesideWriter<D>, D: SecondSinks, H: Shelf, N: Sink>(
    clocks: Clocks,
    dumps: &Dumps,
    writer: &B,
    track: TrackId,
    room: &mut DiskRoom,
    shelf: &mut H,
    notes: &mut N,
    second: &mut D,
) -> Result<(), Failed>
    requires cylinder { track.cylinder < 100 }
    requires few { length dumps.now.names.now ≤ 16 }
    requires below { AreCountsBelow room.old 1000 }
    ensures looked { (track_of : ℕ → Id) (number : ℕ) (start : ShelfNow) (before : List Seen) → track_of number ≡ track
        → length before ≡ number * length dumps.now.names.now
        → HaveComeOf (of_tracks dumps.now.stepping dumps.now.names.now track_of) start
        (shelf_at H.Source H.Shelf.own shelf.old) before
        → LooksAtOne (B.lines_of writer.now) (plan_by clocks (length dumps.now.names.now)) track
        (of_tracks dumps.now.stepping dumps.now.names.now track_of) start (shelf_at H.Source H.Shelf.own shelf.new)
        before room.old room.new (sink_at N.Sink notes.old) (sink_at N.Sink notes.new) result }
    ensures second { (track_of : ℕ → Id) (number : ℕ) (start : ShelfNow) (before : List Seen) → track_of number ≡ track
        → length before ≡ number * length dumps.now.names.now
        → HaveComeOf (of_tracks dumps.now.stepping dumps.now.names.now track_of) start
        (shelf_at H.Source H.Shelf.own shelf.old) before
        → OnOk result
        (LooksAtOneSecond (B.second_lines_of writer.now) (plan_by clocks (length dumps.now.names.now)) track
        (of_tracks dumps.now.stepping dumps.now.names.now track_of) start (shelf_at H.Source H.Shelf.own shelf.new)
        before room.old room.new (D.now second.old) (D.now second.new)) }
    ensures format { room.new.format ≡ room.old.format }
    ensures below { (n : ℕ) → AreCountsBelow room.old n → AreCountsBelow room.new (n + 1) }
{
    start_track(room, near_number(room_format(room), track));
    take_all(clocks, dumps, track, room, shelf);
    count_names(room);
    writer.write_beside(track, room_gathered(room), notes, second)
}

/// Takes the files of all dumps of such a track, of which nothing was gathered yet.
fn take_all<H: Shelf>(
    clocks: Clocks,
    dumps: &Dumps,
    track: TrackId,
    room: &mut DiskRoom,
    shelf: &mut H,
)
    requires cylinder { track.cylinder < 100 }
    requires few { length dumps.now.names.now ≤ 16 }
    requires started { room.old.started < length (tracks room.old.format) }
    requires none { room.old.captures ≡ 0 }
    requires none_passed { room.old.passed ≡ [] }
    requires no_others { OthersStandFor room.old.others [] }
    ensures taken { (track_of : ℕ → Id) (number : ℕ) (start : ShelfNow) (before : List Seen) → track_of number ≡ track
        → length before ≡ number * length dumps.now.names.now
        → HaveComeOf (of_tracks dumps.now.stepping dumps.now.names.now track_of) start
        (shelf_at H.Source H.Shelf.own shelf.old) before
        → HasTakenTo (plan_by clocks (length dumps.now.names.now)) (track_at room.old.format room.old.started)
        (of_tracks dumps.now.stepping dumps.now.names.now track_of) start (shelf_at H.Source H.Shelf.own shelf.new)
        before room.new (length dumps.now.names.now) }
    ensures kept { room.new
        ≡ record room.old {
          held = room.new.held;
          used = room.new.used;
          captures = room.new.captures;
          passed = room.new.passed;
          others = room.new.others;
        } }
    ensures passed { length room.new.passed ≤ 16 }
{
    for dump in 0..dumps.names.len() {
        take_names(clocks, dumps, room, track, dump as u8, shelf);
    }
}

/// How many cylinders the names of a dump's files reach.
pub fn most_cylinders(stepping: Stepping) -> u8
    ensures { result ≡ most_cylinders stepping }
{
    match stepping {
        Stepping::Single => 100,
        Stepping::Double => 50,
    }
}

/// The number of the format's track that is the same, if one is.
pub fn number_of(format: Format, track: TrackId) -> Option<u32>
    ensures at { IfSome result (λ number. slice_get (tracks format) number ≡ Some track) }
    ensures is { is_some result ≡ is_track format track }
{
    for number in 0..track_count(format) {
        if track_id(format, number) == track {
            return Some(number);
        }
    }
    None
}

/// The number of the format's nearest track.
pub fn near_number(format: Format, track: TrackId) -> u32
    ensures low { result < length (tracks format) }
    ensures near { track_at format result ≡ near_track format track }
{
    match number_of(format, near_track(format, track)) {
        Some(number) => number,
        // It is one of the format's.
        None => unreachable!(),
    }
}

/// The format's nearest track: of the same cylinder or of the last one, on the same head or on the last one.
pub fn near_track(format: Format, track: TrackId) -> TrackId
    ensures near { result ≡ near_track format track }
    ensures track { IsTrack format result }
{
    let last = last_track(format);
    TrackId {
        cylinder: track.cylinder.min(last.cylinder),
        head: track.head.min(last.head),
    }
}

/// Whether a track is one of the format's.
pub fn has_track(format: Format, track: TrackId) -> bool
    ensures { result ≡ is_track format track }
{
    let last = last_track(format);
    track.cylinder <= last.cylinder && track.head <= last.head
}

/// The last track, of the last cylinder and on the last head in either order.
fn last_track(format: Format) -> TrackId
    ensures cylinder { result.cylinder + 1 ≡ (row format).cylinders }
    ensures head { result.head + 1 ≡ (row format).heads }
{
    tracks_keep_bounds();
    track_id(format, track_count(format) - 1)
}
