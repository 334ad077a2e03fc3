//! A disk of its dumps of which all is kept.

ghost use Rattle.std.specs.Prelude.{◌≡◌, ◌≤◌, length};
ghost use Rattle.disk_archive.specs.Finding.{asked_of};
ghost use Rattle.flux_base.specs.World.{sink_at};
ghost use Rattle.flux_cli.specs.ArchiveRuns.{EndsKeeping, unmade_text};
ghost use Rattle.flux_cli.specs.AskedDisks.{candidate_of, kept_disk};
ghost use Rattle.flux_words.specs.ArchiveWords.{asked_archive};
ghost use Rattle.flux_words.specs.Asked.{an_archive};

use crate::endings::{end_of_fault, refuse, tell_unmade};
use crate::files_told::folder_line;
use crate::task::Task;
use disk_archive::{ArchiveAsked as KeptAsked, ArchiveFault, KeptFile, archive};
use dump_identity::Candidate;
use file_maker::FileMaker;
use flux_base::{Sink, Source, Status, Word};
use flux_engine::Stopped;
use flux_words::{ArchiveAsked, DiskAsked};
use sector_report::{Line, put};
use std::alloc::Global;
use track_shelf::Shelf;

/// Keeps all of a disk of its dumps in a folder, and gives its summary to `image`. Notes say why it was not done.
impl<S: Source, W: Sink, N: Sink, H: Shelf, M: FileMaker> Task<S, W, N, H, M> for ArchiveAsked<'_> {
    ghost asked = { λ task. an_archive (asked_archive task) };

    fn run(
        &self,
        alloc: Global,
        _source: &mut S,
        image: &mut W,
        notes: &mut N,
        shelf: &mut H,
        maker: &mut M,
    ) -> Status {
        let asked = kept_asked(self);
        let answer = archive(alloc, &asked, shelf, maker, image);
        end_of_keeping(answer, self.dumps, shelf, notes)
    }
}

/// What is asked, as the call takes it.
fn kept_asked<'a>(asked: &ArchiveAsked<'a>) -> KeptAsked<'a>
    ensures { asked_of result ≡ kept_disk (asked_archive asked.now) }
{
    let disk = match asked.disk {
        Some(disk) => Some(candidate_of(disk)),
        None => None,
    };
    KeptAsked {
        disk,
        folder: asked.folder,
        dumps: asked.dumps,
    }
}

/// The disk that is named.
fn candidate_of(disk: DiskAsked) -> Candidate
    ensures { result ≡ candidate_of disk }
{
    Candidate {
        stepping: disk.stepping,
        format: disk.format,
    }
}

/// Ends a disk of which all was kept, or not all.
fn end_of_keeping<H: Shelf, N: Sink>(
    answer: Result<Status, ArchiveFault>,
    dumps: &[Word],
    shelf: &H,
    notes: &mut N,
) -> Status
    ensures { EndsKeeping (H.files shelf.now) dumps.now answer result (sink_at N.Sink notes.old)
        (sink_at N.Sink notes.new) }
{
    match answer {
        Ok(status) => status,
        Err(ArchiveFault::Memory) => Status::Memory,
        Err(ArchiveFault::Exists) => tell_unmade(&line_of("refused folder exists\n"), notes),
        Err(ArchiveFault::NoFiles(empty)) => end_of_fault(
            Stopped::Refused(empty),
            dumps,
            shelf,
            notes,
        ),
        Err(ArchiveFault::NoDisk) => refuse(&line_of("refused no format\n"), notes),
        Err(ArchiveFault::FolderFault) => tell_unmade(&folder_line(), notes),
        Err(ArchiveFault::FileFault(file)) => tell_unmade(&unmade_line(file), notes),
        Err(ArchiveFault::OutputFault) => Status::ImageFault,
    }
}

/// The line on a file that was not made, or not all of it.
fn unmade_line(file: KeptFile) -> Line
    ensures { result.bytes ≡ unmade_text file }
{
    match file {
        KeptFile::Report => line_of("failed report\n"),
        KeptFile::Image => line_of("failed image\n"),
        KeptFile::Picture => line_of("failed picture\n"),
        KeptFile::Summary => line_of("failed summary\n"),
    }
}

/// A line of this text.
fn line_of(text: &str) -> Line
    requires { length text.now ≤ 40 }
    ensures { result.bytes ≡ text.now }
{
    let mut line = Line::new();
    put(&mut line, text);
    line
}
