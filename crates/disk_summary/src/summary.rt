//! The line of a summary.

ghost use Rattle.std.specs.Prelude.{◌≡◌, List, drop};
ghost use Rattle.flux_base.specs.Moments.{Puts};
ghost use Rattle.flux_base.specs.World.{sink_at};
ghost use Rattle.disk_summary.specs.Texts.{notes_text, summary_text};
ghost use Rattle.disk_summary.specs.Values.{steps_word};
ghost use Rattle.disk_summary.specs.declared.note.Note.{Note};
ghost use Rattle.disk_summary.specs.inside.Pieces.{counts_piece, disk_piece, end_piece, sectors_piece};
ghost use Rattle.disk_summary.specs.inside.Pieces.{written_summary};

use dump_reading::DumpTotals;
use flux_base::{Failed, Sink, Status, write_whole};
use flux_help::version_number;
use sector_images::Format;
use sector_report::{Line, put, put_named, write_line};
use track_shelf::Stepping;

/// What the summary of a disk has beside its notes.
#[derive(Clone, Copy, Debug, PartialEq, Eq)]
pub struct Summary {
    pub format: Format,
    pub stepping: Stepping,
    /// How many dumps were read.
    pub dumps: u8,
    /// The numbers of the report.
    pub totals: DumpTotals,
    /// How the run ends.
    pub status: Status,
}

/// Writes a summary and a line end, where the bytes are the texts of notes as `NoteWriter` and `note_turns` write them.
/// After `Failed` a part of it was written.
pub fn write_summary<W: Sink>(summary: &Summary, notes: &[u8], out: &mut W) -> Result<(), Failed>
    ensures says { (ns : List Note) → notes.now ≡ notes_text ns
        → Puts (sink_at W.Sink out.old) (sink_at W.Sink out.new) (summary_text summary.now ns) result }
{
    write_pieces(summary, notes, out)
}

/// Writes the same piece by piece.
fn write_pieces<W: Sink>(summary: &Summary, notes: &[u8], out: &mut W) -> Result<(), Failed>
    ensures { Puts (sink_at W.Sink out.old) (sink_at W.Sink out.new) (written_summary summary.now notes.now) result }
{
    match write_line(out, &disk_line(summary)) {
        Ok(()) => {}
        Err(failed) => return Err(failed),
    }
    match write_line(out, &sectors_line(&summary.totals)) {
        Ok(()) => {}
        Err(failed) => return Err(failed),
    }
    match write_line(out, &counts_line(&summary.totals)) {
        Ok(()) => {}
        Err(failed) => return Err(failed),
    }
    match write_whole(out, behind_comma(notes)) {
        Ok(()) => write_line(out, &end_line(summary)),
        Err(failed) => Err(failed),
    }
}

/// All but the first byte.
fn behind_comma(notes: &[u8]) -> &[u8]
    ensures { result.now ≡ drop 1 notes.now }
{
    if notes.is_empty() { notes } else { &notes[1..] }
}

/// Which disk was read of how many dumps.
#[tactic(auto, unfolding(crate::specs::inside::Pieces::disk_piece))]
fn disk_line(summary: &Summary) -> Line
    ensures { result.bytes ≡ disk_piece summary.now }
{
    let mut line = Line::new();
    put(&mut line, "{\"version\":\"");
    put(&mut line, version_number());
    put(&mut line, "\",\"format\":\"");
    put(&mut line, summary.format.word().as_str());
    put(&mut line, "\",\"steps\":\"");
    put(&mut line, steps_word(summary.stepping));
    put_named(&mut line, "\",\"dumps\":", u32::from(summary.dumps));
    line
}

/// How the drive stepped.
fn steps_word(stepping: Stepping) -> &'static str
    ensures { result.now ≡ steps_word stepping }
{
    match stepping {
        Stepping::Single => "single",
        Stepping::Double => "double",
    }
}

/// How many sectors have each verdict.
#[tactic(auto, unfolding(crate::specs::inside::Pieces::sectors_piece))]
fn sectors_line(totals: &DumpTotals) -> Line
    ensures { result.bytes ≡ sectors_piece totals.now }
{
    let mut line = Line::new();
    put_named(&mut line, ",\"sectors\":{\"all\":", totals.sectors.sectors);
    put_named(&mut line, ",\"good\":", totals.sectors.good);
    put_named(&mut line, ",\"bad\":", totals.sectors.bad);
    put_named(&mut line, ",\"missing\":", totals.sectors.missing);
    put_named(
        &mut line,
        ",\"contradictory\":",
        totals.sectors.contradictory,
    );
    put(&mut line, "}");
    line
}

/// What was passed over and what else was told, and the begin of the notes.
#[tactic(auto, unfolding(crate::specs::inside::Pieces::counts_piece))]
fn counts_line(totals: &DumpTotals) -> Line
    ensures { result.bytes ≡ counts_piece totals.now }
{
    let mut line = Line::new();
    put_named(&mut line, ",\"unread\":", totals.unread);
    put_named(&mut line, ",\"failed\":", totals.lost);
    put_named(&mut line, ",\"others\":", totals.others);
    put_named(&mut line, ",\"whole\":", totals.whole);
    put(&mut line, ",\"notes\":[");
    line
}

/// What stands behind the notes.
#[tactic(auto, unfolding(crate::specs::inside::Pieces::end_piece))]
fn end_line(summary: &Summary) -> Line
    ensures { result.bytes ≡ end_piece summary.now }
{
    let mut line = Line::new();
    put_named(&mut line, "],\"status\":", u32::from(summary.status.code()));
    put(&mut line, "}\n");
    line
}
