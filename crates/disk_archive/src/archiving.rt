//! All that is kept of a disk of its dumps.

ghost use Rattle.std.specs.Prelude.{◌≡◌, ◌≤◌, length, List, IfErr, IfOk};
ghost use Rattle.flux_base.specs.Blames.{CountsBy, no_counts, three_counts};
ghost use Rattle.flux_base.specs.Counts.{counts_of};
ghost use Rattle.flux_base.specs.World.{sink_counts};
ghost use Rattle.dump_reading.specs.Files.{ShelfNow, shelf_at};
ghost use Rattle.disk_summary.specs.Texts.{notes_text, summary_text};
ghost use Rattle.disk_summary.specs.declared.note.Note.{Note};
ghost use Rattle.disk_archive.specs.Answers.{HasHeld, IsUnheld, SaysOfArchive, ShelfDid, archive_blame};
ghost use Rattle.disk_archive.specs.Answers.{status_of, summary_of};
ghost use Rattle.disk_archive.specs.Finding.{HasFound, asked_of};
ghost use Rattle.disk_archive.specs.Kept.{kept_of};
ghost use Rattle.disk_archive.specs.Making.{WritesKept};

use crate::asked::ArchiveAsked;
use crate::fault::ArchiveFault;
use crate::finding::find_disk;
use crate::held::{FoundDisk, HeldDisk};
use crate::making::make_files;
use crate::reading::{TEXT_ROOM, read_texts, room_of};
use disk_summary::{Summary, write_summary};
use dump_identity::Candidate;
use dump_reading::{DumpTotals, Dumps};
use file_maker::FileMaker;
use flux_base::{Memory, MemorySink, Sink, Status, write_whole};
use std::alloc::Global;
use track_shelf::Shelf;

/// Keeps all of a disk of its dumps, in a folder that is made, and is not there before: the report of reading them,
/// the image, a picture of the verdicts, and a summary, which is the last file that is made; where all of it is there,
/// the folder is whole. The summary goes to `line` too. The report is what `read` has for its notes: it begins with what
/// is noted of the dumps that are SCP files. The disk is the one that is asked for, or the one by which the first dump
/// that one explains is explained best. The texts are made in memory, by one reading of the disk and a measuring of its
/// files' revolutions. Gives how the run ends.
///
/// Where the folder is there, nothing is read. Nothing is made before all was read. After `FileFault` the files before
/// are whole, and none behind is there.
pub fn archive<H: Shelf, M: FileMaker, W: Sink>(
    alloc: Global,
    asked: &ArchiveAsked,
    shelf: &mut H,
    maker: &mut M,
    line: &mut W,
) -> Result<Status, ArchiveFault>
    requires few { length asked.now.dumps.now ≤ 16 }
    ensures says { SaysOfArchive (asked_of asked.now) (shelf_at H.Source H.Shelf.own shelf.old)
        (shelf_at H.Source H.Shelf.own shelf.new) (M.made maker.old) (M.made maker.new) (W.written line.old)
        (W.written line.new) result }

    // All that the shelf did is that files failed, which are passed over. The status tells it.
    ensures shelf { ShelfDid (shelf_at H.Source H.Shelf.own shelf.old) (shelf_at H.Source H.Shelf.own shelf.new)
        result }

    // A fault of the maker or of the sink is told where it failed once, in the last call that could; else neither did.
    ensures blames { CountsBy (archive_blame result)
        (three_counts (counts_of M.faults M.failed maker.old) (sink_counts W.Sink line.old) no_counts)
        (three_counts (counts_of M.faults M.failed maker.new) (sink_counts W.Sink line.new) no_counts) }
{
    if maker.has_folder(asked.folder.bytes()) {
        return Err(ArchiveFault::Exists);
    }
    let held = match hold_disk(alloc, asked, shelf) {
        Ok(held) => held,
        Err(fault) => return Err(fault),
    };
    match write_kept(asked.folder.bytes(), &held, maker, line) {
        Ok(()) => Ok(held.summary.status),
        Err(fault) => Err(fault),
    }
}

/// Reads all of the disk.
fn hold_disk<H: Shelf>(
    alloc: Global,
    asked: &ArchiveAsked,
    shelf: &mut H,
) -> Result<HeldDisk, ArchiveFault>
    requires few { length asked.now.dumps.now ≤ 16 }
    ensures ok { IfOk result
        (HasHeld (asked_of asked.now) (shelf_at H.Source H.Shelf.own shelf.old) (shelf_at H.Source H.Shelf.own shelf.new)) }
    ensures err { IfErr result
        (IsUnheld (asked_of asked.now) (shelf_at H.Source H.Shelf.own shelf.old) (shelf_at H.Source H.Shelf.own shelf.new)) }
{
    let found = match find_disk(alloc, asked, shelf) {
        Ok(found) => found,
        Err(fault) => return Err(fault),
    };
    match hold_found(alloc, asked, found, shelf) {
        Ok(held) => Ok(held),
        Err(fault) => Err(fault),
    }
}

/// Reads all of a disk that was found.
fn hold_found<H: Shelf>(
    alloc: Global,
    asked: &ArchiveAsked,
    found: FoundDisk,
    shelf: &mut H,
) -> Result<HeldDisk, ArchiveFault>
    requires few { length asked.now.dumps.now ≤ 16 }
    ensures ok { IfOk result
        (λ held. (start : ShelfNow) → HasFound (asked_of asked.now) start (shelf_at H.Source H.Shelf.own shelf.old) found
        → HasHeld (asked_of asked.now) start (shelf_at H.Source H.Shelf.own shelf.new) held) }
    ensures err { IfErr result
        (λ fault. (start : ShelfNow) → HasFound (asked_of asked.now) start (shelf_at H.Source H.Shelf.own shelf.old) found
        → IsUnheld (asked_of asked.now) start (shelf_at H.Source H.Shelf.own shelf.new) fault) }
{
    let format = found.candidate.format;
    let dumps = Dumps {
        names: asked.dumps,
        stepping: found.candidate.stepping,
    };
    let read = match read_texts(alloc, format, &dumps, shelf) {
        Ok(read) => read,
        Err(fault) => return Err(fault),
    };
    let failed = found.failed | read.failed;
    let summary = summary_of(asked, found.candidate, failed, &read.totals);
    match line_of(alloc, &summary, read.notes.bytes()) {
        Ok(line) => Ok(HeldDisk {
            summary,
            image: read.image,
            report: read.report,
            picture: read.picture,
            line,
        }),
        Err(Memory) => Err(ArchiveFault::Memory),
    }
}

/// The line of a summary, whole: other programs may write theirs to the same place at the same time.
fn line_of(alloc: Global, summary: &Summary, notes: &[u8]) -> Result<MemorySink, Memory>
    ensures { IfOk result
        (λ line. (ns : List Note) → notes.now ≡ notes_text ns → line.written ≡ summary_text summary.now ns) }
{
    let mut line = room_of(alloc, TEXT_ROOM)?;
    match write_summary(summary, notes, &mut line) {
        Ok(()) => Ok(line),
        Err(_) => Err(Memory),
    }
}

/// What the summary has beside its notes, by the report's numbers, and by whether a file failed.
fn summary_of(
    asked: &ArchiveAsked,
    candidate: Candidate,
    failed: bool,
    totals: &DumpTotals,
) -> Summary
    requires few { length asked.now.dumps.now ≤ 16 }
    ensures { result ≡ summary_of (asked_of asked.now) candidate failed totals.now }
{
    Summary {
        format: candidate.format,
        stepping: candidate.stepping,
        dumps: asked.dumps.len() as u8,
        totals: *totals,
        status: status_of(failed, totals),
    }
}

/// Whether a file failed, and else whether the image is all that can be read there.
fn status_of(failed: bool, totals: &DumpTotals) -> Status
    ensures { result ≡ status_of failed totals.now }
{
    if failed {
        Status::ShelfFault
    } else if totals.is_complete() {
        Status::AllGood
    } else {
        Status::NotAllGood
    }
}

/// Makes the folder and its files, and writes the summary.
fn write_kept<M: FileMaker, W: Sink>(
    folder: &[u8],
    held: &HeldDisk,
    maker: &mut M,
    line: &mut W,
) -> Result<(), ArchiveFault>
    ensures wrote { WritesKept folder.now (kept_of held.now) (M.made maker.old) (M.made maker.new) (W.written line.old)
        (W.written line.new) result }
    ensures blames { CountsBy (archive_blame result)
        (three_counts (counts_of M.faults M.failed maker.old) (sink_counts W.Sink line.old) no_counts)
        (three_counts (counts_of M.faults M.failed maker.new) (sink_counts W.Sink line.new) no_counts) }
{
    match maker.make_folder(folder) {
        Ok(()) => {}
        Err(_) => return Err(ArchiveFault::FolderFault),
    }
    match make_files(folder, held, maker) {
        Ok(()) => {}
        Err(file) => return Err(ArchiveFault::FileFault(file)),
    }
    match write_whole(line, held.line.bytes()) {
        Ok(()) => Ok(()),
        Err(_) => Err(ArchiveFault::OutputFault),
    }
}
