//! What becomes of a track of a disk that is read of several dumps.

ghost use Rattle.std.specs.Prelude.{◌≡◌, ◌<◌, [], cond};
ghost use Rattle.flux_base.specs.Moments.{Puts};
ghost use Rattle.flux_base.specs.World.{sink_at};
ghost use Rattle.dump_reading.specs.Reports.{data_lines, other_lines, passed_lines, read_part};
ghost use Rattle.dump_reading.specs.Reports.{trace_count as traces_in};

use flux_base::{Failed, Sink, TrackId};
use flux_engine::{
    Gathered, NoSecond, PartFault, PassedStream, TrackWriter, sectors_of, write_image, write_lines,
};
use sector_images::{Format, tracks_keep_bounds};
use sector_report::{
    Line, Naming, Totals, other_line, passed_line, traces_line, untold_line, write_line,
};
use turn_merge::{OtherTold, Others};

/// How the lines name the places of readings: by the dump, and by the clock.
pub(crate) const NAMING: Naming = Naming::ByCaptureAndClock;

/// The track's part of the image, and its lines of the report: one for each of its streams that was passed over, one
/// for each of its sectors, one for each name of other headers that is told and has whole data, one where such data
/// follow a name that is not told, and one that tells how many of the names that are told have none.
#[derive(Clone, Copy, Debug)]
pub struct DumpReport;

impl TrackWriter<NoSecond> for DumpReport {
    ghost part_of = { λ _. read_part };

    ghost second_part_of = { λ _. read_part };

    fn write_track<W: Sink, N: Sink>(
        &self,
        format: Format,
        track: TrackId,
        gathered: &Gathered,
        image: &mut W,
        notes: &mut N,
        second: &mut NoSecond,
    ) -> Result<Totals, PartFault> {
        tracks_keep_bounds();
        match write_image(format, track, &gathered.book, image) {
            Ok(()) => {}
            Err(_) => return Err(PartFault::ImageFault),
        }
        match write_passed(track, &gathered.passed, notes) {
            Ok(()) => {}
            Err(_) => return Err(PartFault::NotesFault),
        }
        let totals = match write_lines(
            NAMING,
            track,
            sectors_of(format, track),
            &gathered.book,
            notes,
        ) {
            Ok(totals) => totals,
            Err(_) => return Err(PartFault::NotesFault),
        };
        match write_others(track, &gathered.others, notes) {
            Ok(()) => Ok(totals),
            Err(_) => Err(PartFault::NotesFault),
        }
    }
}

/// Writes a line for each stream of a track that was passed over, each in one piece.
pub fn write_passed<N: Sink>(
    track: TrackId,
    passed: &[PassedStream],
    notes: &mut N,
) -> Result<(), Failed>
    requires { track.cylinder < 100 }
    ensures { Puts (sink_at N.Sink notes.old) (sink_at N.Sink notes.new) (passed_lines track passed.now) result }
{
    for number in 0..passed.len() {
        let stream = passed[number];
        match write_line(notes, &passed_line(track, stream.capture, &stream.why)) {
            Ok(()) => {}
            Err(failed) => return Err(failed),
        }
    }
    Ok(())
}

/// Writes the lines of other headers of a track, each in one piece.
pub(crate) fn write_others<N: Sink>(
    track: TrackId,
    others: &Others,
    notes: &mut N,
) -> Result<(), Failed>
    requires { track.cylinder < 100 }
    ensures { Puts (sink_at N.Sink notes.old) (sink_at N.Sink notes.new)
        (other_lines track others.now.told others.now.untold) result }
{
    match write_names(track, others.told(), notes) {
        Ok(()) => {}
        Err(failed) => return Err(failed),
    }
    match write_if(others.has_untold(), &untold_line(track), notes) {
        Ok(()) => {}
        Err(failed) => return Err(failed),
    }
    let traces = trace_count(others.told());
    write_if(traces > 0, &traces_line(track, traces), notes)
}

/// Writes a line for each name that is told and has whole data, each in one piece.
fn write_names<N: Sink>(track: TrackId, told: &[OtherTold], notes: &mut N) -> Result<(), Failed>
    requires { track.cylinder < 100 }
    ensures { Puts (sink_at N.Sink notes.old) (sink_at N.Sink notes.new) (data_lines track told.now) result }
{
    for number in 0..told.len() {
        let name = &told[number];
        match write_if(name.has_data(), &other_line(NAMING, track, name), notes) {
            Ok(()) => {}
            Err(failed) => return Err(failed),
        }
    }
    Ok(())
}

/// How many of the names that are told have no whole data.
fn trace_count(told: &[OtherTold]) -> u64
    ensures { result ≡ traces_in told.now }
{
    told.iter().filter(|name| !name.has_data()).count() as u64
}

/// Writes a line where it is wanted, in one piece.
fn write_if<N: Sink>(wanted: bool, line: &Line, notes: &mut N) -> Result<(), Failed>
    ensures { Puts (sink_at N.Sink notes.old) (sink_at N.Sink notes.new) (cond wanted line.now.bytes []) result }
{
    if wanted {
        write_line(notes, line)
    } else {
        Ok(())
    }
}
