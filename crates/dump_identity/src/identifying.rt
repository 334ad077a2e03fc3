//! Which disk a dump is of.

ghost use Rattle.std.specs.Prelude.{◌≡◌, ◌⊎◌, ℕ, List, Option, flat_map, length, is_err, IfOk, OnErr};
ghost use Rattle.flux_base.specs.Blames.{CountsBy, no_counts, three_counts};
ghost use Rattle.flux_base.specs.Counts.{Counts};
ghost use Rattle.flux_base.specs.Moments.{Puts};
ghost use Rattle.flux_base.specs.World.{sink_at, sink_counts};
ghost use Rattle.flux_engine.specs.Blamed.{sink_blame};
ghost use Rattle.flux_engine.specs.Plans.{Seen};
ghost use Rattle.track_shelf.specs.Files.{File};
ghost use Rattle.dump_reading.specs.Files.{shelf_at};
ghost use Rattle.dump_identity.specs.Candidates.{by_reading, candidates};
ghost use Rattle.dump_identity.specs.Lines.{end_text, foreign_text, line_of};
ghost use Rattle.dump_identity.specs.Outcomes.{SaysOfIdentity};
ghost use Rattle.dump_identity.specs.inside.Outcomes.{AreAllNoted, AreKnown, CutEnd, CutLine, FindsOne};
ghost use Rattle.dump_identity.specs.inside.Outcomes.{HaveSaid, HaveTold};

use crate::candidate::Candidate;
use crate::finding::Finding;
use crate::identity::Identity;
use crate::lines::{best_line, finding_line, foreign_line};
use crate::room::IdentityRoom;
use crate::tried::better_of;
use crate::trying::{Tried, try_disks};
use dump_numbers::ForeignDisk;
use dump_reading::NoFiles;
use dump_tallies::DiskTally;
use dump_turns::find_reach;
use flux_base::{Failed, Sink, Word};
use flux_engine::Stopped;
use sector_report::{Passed, write_line};
use track_shelf::Shelf;

/// Says which disk a dump is of: one of the formats that have a name, with one step for each cylinder, and for those
/// of up to 42 cylinders with two; or a disk by its numbers that the names in the dump's headers tell. Each file of the
/// dump is read once to find these, and as a track of each disk that has a name; where it tells disks by numbers, all
/// are read once more, as tracks of these. What a disk comes to is what reading the dump as it does, by the clock that
/// follows the drive alone; the files beside its tracks are among it where a sector is good. Each disk that has a good
/// sector gets a line, in the order of the formats' table and those by numbers behind them. Behind these stand the
/// disks by numbers whose headers name other heads than the drive's, which are not read. The last line names the best
/// of those that were: the one with most bytes in good sectors, of those the one with fewest other names that have
/// whole data, of those the one with fewest sectors, and of those the first. A file that fails is passed over. No
/// answer is for want of memory.
///
/// A dump that has no file of the cylinders 0 to 98 is refused, and nothing is read or written. After a fault of the
/// sink nothing more is written, and the lines before are written whole. `ImageFault` is that of the lines. No notes are
/// written, so `NotesFault` does not come.
pub fn identify<H: Shelf, W: Sink>(
    dump: &Word,
    room: IdentityRoom,
    shelf: &mut H,
    lines: &mut W,
) -> Result<Identity, Stopped<NoFiles>>
    ensures says { SaysOfIdentity dump.now (shelf_at H.Source H.Shelf.own shelf.old)
        (shelf_at H.Source H.Shelf.own shelf.new) (W.written lines.old) (W.written lines.new) result }

    // What the shelf did is in what came of it.
    ensures blames { CountsBy (sink_blame result)
        (three_counts no_counts (sink_counts W.Sink lines.old) no_counts)
        (three_counts no_counts (sink_counts W.Sink lines.new) no_counts) }
{
    if find_reach(dump.bytes(), shelf).is_none() {
        return Err(Stopped::Refused(NoFiles { dump: 0 }));
    }
    let tried = try_disks(dump, room, shelf);
    match tell_best(&tried, lines) {
        Ok(best) => Ok(Identity {
            best,
            failed: tried.has_failed(),
            foreign: !tried.foreign.is_empty(),
        }),
        Err(Failed) => Err(Stopped::ImageFault),
    }
}

/// Writes the lines of all disks that have a good sector, and those behind them, and gives the best.
fn tell_best<W: Sink>(tried: &Tried, lines: &mut W) -> Result<Option<Finding>, Failed>
    requires named { tried.now.named ≡ length candidates }
    requires noted { AreAllNoted (by_reading tried.now.passed.items tried.now.again.items) tried.now.disks.items
        tried.now.held.items }
    ensures ok { IfOk result
        (λ best.
        (dump : List ℕ) (told : Option (List File)) (came : ℕ → List Seen)
        → AreKnown dump told came (by_reading tried.now.passed.items tried.now.again.items) tried.now.disks.items
        tried.now.held.items
        → HaveSaid dump told came tried.now.disks.items tried.now.foreign.items (W.written lines.old)
        (W.written lines.new) best) }
    ensures err { OnErr result
        ((dump : List ℕ) (told : Option (List File)) (came : ℕ → List Seen)
        → AreKnown dump told came (by_reading tried.now.passed.items tried.now.again.items) tried.now.disks.items
        tried.now.held.items
        → CutLine dump told came tried.now.disks.items (W.written lines.old) (W.written lines.new)
        ⊎ CutEnd dump told came tried.now.disks.items tried.now.foreign.items (W.written lines.old)
        (W.written lines.new)) }
    ensures counts { Counts (is_err result) (sink_counts W.Sink lines.old) (sink_counts W.Sink lines.new) }
{
    let best = match tell_all(tried, lines) {
        Ok(best) => best,
        Err(failed) => return Err(failed),
    };
    match tell_end(&tried.foreign, &best, lines) {
        Ok(()) => Ok(best),
        Err(failed) => Err(failed),
    }
}

/// Writes the lines of all disks that have a good sector, and gives the best.
fn tell_all<W: Sink>(tried: &Tried, lines: &mut W) -> Result<Option<Finding>, Failed>
    requires named { tried.now.named ≡ length candidates }
    requires noted { AreAllNoted (by_reading tried.now.passed.items tried.now.again.items) tried.now.disks.items
        tried.now.held.items }
    ensures ok { IfOk result
        (λ best.
        (dump : List ℕ) (told : Option (List File)) (came : ℕ → List Seen)
        → AreKnown dump told came (by_reading tried.now.passed.items tried.now.again.items) tried.now.disks.items
        tried.now.held.items
        → HaveTold dump told came tried.now.disks.items (W.written lines.old) (W.written lines.new) best) }
    ensures err { OnErr result
        ((dump : List ℕ) (told : Option (List File)) (came : ℕ → List Seen)
        → AreKnown dump told came (by_reading tried.now.passed.items tried.now.again.items) tried.now.disks.items
        tried.now.held.items
        → CutLine dump told came tried.now.disks.items (W.written lines.old) (W.written lines.new)) }
    ensures counts { Counts (is_err result) (sink_counts W.Sink lines.old) (sink_counts W.Sink lines.new) }
{
    let mut best = None;
    for number in 0..tried.disks.len() {
        let passed = tried.passed_for(number);
        let finding = finding_of(&tried.disks[number], tried.held[number], passed);
        match write_finding(&finding, lines) {
            Ok(()) => best = better_of(best, finding),
            Err(failed) => return Err(failed),
        }
    }
    Ok(best)
}

/// Writes the lines behind those of the disks that were read: those of other heads, and the best.
fn tell_end<W: Sink>(
    foreign: &[ForeignDisk],
    best: &Option<Finding>,
    lines: &mut W,
) -> Result<(), Failed>
    ensures { Puts (sink_at W.Sink lines.old) (sink_at W.Sink lines.new) (end_text foreign.now best.now) result }
{
    match tell_foreign(foreign, lines) {
        Ok(()) => write_line(lines, &best_line(best)),
        Err(failed) => Err(failed),
    }
}

/// Writes the lines of the disks whose headers name other heads than the drive's.
fn tell_foreign<W: Sink>(foreign: &[ForeignDisk], lines: &mut W) -> Result<(), Failed>
    ensures { Puts (sink_at W.Sink lines.old) (sink_at W.Sink lines.new) (flat_map foreign_text foreign.now) result }
{
    for number in 0..foreign.len() {
        match write_line(lines, &foreign_line(foreign[number])) {
            Ok(()) => {}
            Err(failed) => return Err(failed),
        }
    }
    Ok(())
}

/// What a disk comes to, where all files came and the dump has one of its tracks or none.
fn finding_of(disk: &DiskTally, held: bool, passed: &[Option<Passed>]) -> Finding
    requires passed { length passed.now ≡ 200 }
    requires all { length disk.now.tallies ≡ 200 }
    ensures { FindsOne passed.now disk.now held result }
{
    let candidate = Candidate {
        stepping: disk.stepping(),
        format: disk.format(),
    };
    if held {
        Finding {
            candidate,
            totals: Some(disk.totals(passed)),
        }
    } else {
        Finding {
            candidate,
            totals: None,
        }
    }
}

/// Writes the line of a candidate, where it has a good sector.
fn write_finding<W: Sink>(finding: &Finding, lines: &mut W) -> Result<(), Failed>
    ensures { Puts (sink_at W.Sink lines.old) (sink_at W.Sink lines.new) (line_of finding.now) result }
{
    if !finding.has_good() {
        return Ok(());
    }
    match &finding.totals {
        Some(totals) => write_line(lines, &finding_line(finding.candidate, totals)),
        None => Ok(()),
    }
}
