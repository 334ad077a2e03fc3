//! What becomes of a track in all texts that are kept: image and report, and a picture and notes beside them.

ghost use Rattle.std.specs.Prelude.{◌<◌, List, Ok};
ghost use Rattle.dump_reading.specs.Beside.{TookLines, beside_lines};
ghost use Rattle.dump_reading.specs.Reports.{read_part};
ghost use Rattle.disk_map.specs.Dumps.{dumps_part_with};
ghost use Rattle.disk_summary.specs.Dumps.{noted_beside, noted_track};
ghost use Rattle.flux_engine.specs.Recordings.{sectors_of as sectors_in};
ghost use Rattle.flux_engine.specs.SecondSinks.{WritesSecond};
ghost use Rattle.flux_engine.specs.Tracks.{track_notes};
ghost use Rattle.flux_engine.specs.Writing.{Knows};
ghost use Rattle.sector_images.specs.Places.{IsTrack};
ghost use Rattle.turn_merge.specs.Book.{StandsFor};
ghost use Rattle.turn_merge.specs.Others.{NotedOther, OthersStandFor};
ghost use Rattle.turn_merge.specs.Readings.{NotedReading};
ghost use Rattle.disk_archive.specs.Second.{second_of};

use disk_map::FieldWriter;
use disk_summary::NoteWriter;
use dump_reading::{BesideReport, BesideWriter, DumpReport};
use flux_base::{Failed, MemorySink, Sink, TrackId};
use flux_engine::{Gathered, NoSecond, PartFault, SecondSinks, TrackWriter};
use sector_images::Format;
use sector_report::{Naming, Totals};

/// A picture and notes in memory, and whether one of them did not fit.
#[derive(Drop)]
pub(crate) struct PictureAndNotes {
    pub picture: MemorySink,
    pub notes: MemorySink,
    pub full: bool,
}

impl SecondSinks for PictureAndNotes {
    ghost now = { second_of };
}

/// Writes a track as the report's writer does, and then its fields and its notes.
#[derive(Clone, Copy, Debug)]
pub(crate) struct KeptWriter;

impl TrackWriter<PictureAndNotes> for KeptWriter {
    ghost part_of = { λ _. read_part };

    ghost second_part_of = { λ _. dumps_part_with noted_track };

    fn write_track<W: Sink, N: Sink>(
        &self,
        format: Format,
        track: TrackId,
        gathered: &Gathered,
        image: &mut W,
        notes: &mut N,
        second: &mut PictureAndNotes,
    ) -> Result<Totals, PartFault> {
        let mut none = NoSecond;
        match DumpReport.write_track(format, track, gathered, image, notes, &mut none) {
            Ok(totals) => {
                draw_track(format, track, gathered, second);
                Ok(totals)
            }
            Err(fault) => Err(fault),
        }
    }
}

impl BesideWriter<PictureAndNotes> for KeptWriter {
    ghost lines_of = { λ _. beside_lines };

    ghost second_lines_of = { λ _. noted_beside };

    fn write_beside<N: Sink>(
        &self,
        track: TrackId,
        gathered: &Gathered,
        notes: &mut N,
        second: &mut PictureAndNotes,
    ) -> Result<(), Failed> {
        let mut none = NoSecond;
        match BesideReport.write_beside(track, gathered, notes, &mut none) {
            Ok(()) => {
                note_beside(track, gathered, second);
                Ok(())
            }
            Err(failed) => Err(failed),
        }
    }
}

/// Writes the fields and the notes of a track, as long as all fits.
fn draw_track(format: Format, track: TrackId, gathered: &Gathered, second: &mut PictureAndNotes)
    requires track { IsTrack format track }
    requires known { Knows (sectors_in format track) gathered.now.book }
    ensures { (readings : List NotedReading) (others : List NotedOther) → StandsFor gathered.now.book readings
        → OthersStandFor gathered.now.others others
        → WritesSecond
        (dumps_part_with noted_track format track (track_notes readings gathered.now.passed.items others))
        (second_of second.old) (second_of second.new)
        (Ok
        (dumps_part_with noted_track format track (track_notes readings gathered.now.passed.items others)).totals) }
{
    if second.full {
        return;
    }
    let writer = FieldWriter {
        naming: Naming::ByCaptureAndClock,
        lines: &NoteWriter,
    };
    let mut none = NoSecond;
    let drawn = writer.write_track(
        format,
        track,
        gathered,
        &mut second.picture,
        &mut second.notes,
        &mut none,
    );
    second.full = drawn.is_err();
}

/// Writes the notes of a track that is none of the format's, as long as all fits.
fn note_beside(track: TrackId, gathered: &Gathered, second: &mut PictureAndNotes)
    requires { track.cylinder < 100 }
    ensures { (others : List NotedOther) → OthersStandFor gathered.now.others others
        → TookLines (noted_beside track gathered.now.passed.items others) (second_of second.old) (second_of second.new) }
{
    if second.full {
        return;
    }
    let mut none = NoSecond;
    let noted = NoteWriter.write_beside(track, gathered, &mut second.notes, &mut none);
    second.full = noted.is_err();
}
