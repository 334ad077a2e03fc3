//! The reading of a disk into memory.

ghost use Rattle.std.specs.Prelude.{◌≡◌, ◌≤◌, ℕ, List, [], length, IfErr, IfOk, OnOk, Some, None};
ghost use Rattle.dump_reading.specs.Files.{ShelfNow, shelf_at};
ghost use Rattle.dump_reading.specs.Outcomes.{DumpDisk, IsToldEmpty, disk_of};
ghost use Rattle.flux_engine.specs.SecondSinks.{SecondNow};
ghost use Rattle.disk_archive.specs.Reading.{AreFresh, HasNotedTurns, HasRead, HasReadDisk, HasReadTo, HasReadTracks};
ghost use Rattle.disk_archive.specs.Reading.{IsUnread, IsUnturned};

use crate::fault::ArchiveFault;
use crate::kept_writer::{KeptWriter, PictureAndNotes};
use disk_map::{begin_drawing, end_drawing};
use disk_summary::{drawings_are_noted, note_turns};
use dump_reading::{DumpTotals, Dumps, Looks, NoFiles, end_report, find_empty, read_dump_tracks};
use dump_turns::TurnsRoom;
use flux_base::{Memory, MemorySink, Word};
use flux_engine::{Clocks, DiskRoom};
use scp_notes::note_dumps;
use sector_images::{Format, image_size};
use std::alloc::Global;
use track_shelf::Shelf;

/// Room for a report, a picture or notes, in bytes.
pub(crate) const TEXT_ROOM: usize = 16_777_216;

/// Image, report, picture and notes, what they come to in numbers, and whether a file failed.
#[derive(Drop)]
pub(crate) struct Texts {
    pub image: MemorySink,
    pub report: MemorySink,
    pub picture: MemorySink,
    pub notes: MemorySink,
    pub totals: DumpTotals,
    pub failed: bool,
}

/// A room of so many bytes.
pub(crate) fn room_of(alloc: Global, size: usize) -> Result<MemorySink, Memory>
    ensures { IfOk result (λ sink. sink.written ≡ []) }
{
    MemorySink::new(alloc, size, Vec::new(alloc))
}

/// Reads all texts at once, and then measures the files. The report begins with what is noted of the dumps that are SCP
/// files; behind the notes of what reading the disk finds stands each file that turned otherwise than the others.
pub(crate) fn read_texts<H: Shelf>(
    alloc: Global,
    format: Format,
    dumps: &Dumps,
    shelf: &mut H,
) -> Result<Texts, ArchiveFault>
    requires few { length dumps.now.names.now ≤ 16 }
    ensures ok { IfOk result
        (HasRead (disk_of dumps.now format) (shelf_at H.Source H.Shelf.own shelf.old)
        (shelf_at H.Source H.Shelf.own shelf.new)) }
    ensures err { IfErr result
        (IsUnread (disk_of dumps.now format) (shelf_at H.Source H.Shelf.own shelf.old)
        (shelf_at H.Source H.Shelf.own shelf.new)) }
{
    let mut texts = match read_disk(alloc, format, dumps, shelf) {
        Ok(texts) => texts,
        Err(fault) => return Err(fault),
    };
    match add_turns(alloc, dumps.names, shelf, &mut texts.notes) {
        Ok(turned) => {
            texts.failed = texts.failed | turned;
            Ok(texts)
        }
        Err(fault) => Err(fault),
    }
}

/// Notes, behind other notes, each file that turned otherwise than the others of its dump. Whether a file failed.
fn add_turns<H: Shelf>(
    alloc: Global,
    dumps: &[Word],
    shelf: &mut H,
    notes: &mut MemorySink,
) -> Result<bool, ArchiveFault>
    requires few { length dumps.now ≤ 16 }
    ensures ok { IfOk result
        (HasNotedTurns dumps.now (shelf_at H.Source H.Shelf.own shelf.old)
        (shelf_at H.Source H.Shelf.own shelf.new) notes.old.written notes.new.written) }
    ensures err { IfErr result
        (IsUnturned (shelf_at H.Source H.Shelf.own shelf.old) (shelf_at H.Source H.Shelf.own shelf.new)) }
{
    let mut room = match TurnsRoom::reserve(alloc) {
        Ok(room) => room,
        Err(Memory) => return Err(ArchiveFault::Memory),
    };
    match note_turns(dumps, &mut room, shelf, notes) {
        Ok(failed) => Ok(failed),
        Err(_) => Err(ArchiveFault::Memory),
    }
}

/// Reads all texts at once. The report begins with what is noted of the dumps that are SCP files.
fn read_disk<H: Shelf>(
    alloc: Global,
    format: Format,
    dumps: &Dumps,
    shelf: &mut H,
) -> Result<Texts, ArchiveFault>
    requires few { length dumps.now.names.now ≤ 16 }
    ensures ok { IfOk result
        (HasReadDisk (disk_of dumps.now format) (shelf_at H.Source H.Shelf.own shelf.old)
        (shelf_at H.Source H.Shelf.own shelf.new)) }
    ensures err { IfErr result
        (IsUnread (disk_of dumps.now format) (shelf_at H.Source H.Shelf.own shelf.old)
        (shelf_at H.Source H.Shelf.own shelf.new)) }
{
    let (mut room, mut image, mut report, mut second) = match rooms_of(alloc, format) {
        Ok(rooms) => rooms,
        Err(Memory) => return Err(ArchiveFault::Memory),
    };
    let noted = match note_dumps(dumps.names, shelf, &mut report) {
        Ok(failed) => failed,
        Err(_) => return Err(ArchiveFault::Memory),
    };
    match read_into(
        format,
        dumps,
        &mut room,
        shelf,
        &mut image,
        &mut report,
        &mut second,
    ) {
        Ok(totals) => Ok(Texts {
            image,
            report,
            picture: second.picture,
            notes: second.notes,
            failed: noted | (totals.lost > 0),
            totals,
        }),
        Err(fault) => Err(fault),
    }
}

/// What a reading into all texts takes.
fn rooms_of(
    alloc: Global,
    format: Format,
) -> Result<(DiskRoom, MemorySink, MemorySink, PictureAndNotes), Memory>
    ensures { IfOk result (λ rooms. AreFresh format rooms.0 rooms.1.written rooms.2.written rooms.3) }
{
    let room = DiskRoom::reserve(alloc, format)?;
    let image = room_of(alloc, image_size(format) as usize)?;
    let report = room_of(alloc, TEXT_ROOM)?;
    let picture = room_of(alloc, TEXT_ROOM)?;
    let notes = room_of(alloc, TEXT_ROOM)?;
    let second = PictureAndNotes {
        picture,
        notes,
        full: false,
    };
    Ok((room, image, report, second))
}

/// Reads all texts into rooms, of which only that of the report may have something.
fn read_into<H: Shelf>(
    format: Format,
    dumps: &Dumps,
    room: &mut DiskRoom,
    shelf: &mut H,
    image: &mut MemorySink,
    report: &mut MemorySink,
    second: &mut PictureAndNotes,
) -> Result<DumpTotals, ArchiveFault>
    requires few { length dumps.now.names.now ≤ 16 }
    requires fresh { AreFresh format room.old image.old.written [] second.old }
    ensures some { OnOk result
        (IsToldEmpty (disk_of dumps.now format) (shelf_at H.Source H.Shelf.own shelf.old).told.files None) }
    ensures ok { IfOk result
        (HasReadTo (disk_of dumps.now format) (shelf_at H.Source H.Shelf.own shelf.old)
        (shelf_at H.Source H.Shelf.own shelf.new) image.new.written report.old.written report.new.written (Some [])
        second.new) }
    ensures err { IfErr result
        (IsUnread (disk_of dumps.now format) (shelf_at H.Source H.Shelf.own shelf.old)
        (shelf_at H.Source H.Shelf.own shelf.new)) }
{
    match find_empty(dumps, format, shelf) {
        None => {}
        Some(dump) => return Err(ArchiveFault::NoFiles(NoFiles { dump })),
    }
    match begin_drawing(format, &mut second.picture) {
        Ok(()) => {}
        Err(_) => return Err(ArchiveFault::Memory),
    }
    let totals = match read_dump_tracks(
        Clocks::Both,
        Looks::Always,
        dumps,
        &KeptWriter,
        &KeptWriter,
        room,
        shelf,
        image,
        report,
        second,
    ) {
        Ok(totals) => totals,
        Err(_) => return Err(ArchiveFault::Memory),
    };
    match end_texts(format, &totals, report, second) {
        Ok(()) => Ok(totals),
        Err(Memory) => Err(ArchiveFault::Memory),
    }
}

/// Brings report and picture to their ends.
fn end_texts(
    format: Format,
    totals: &DumpTotals,
    report: &mut MemorySink,
    second: &mut PictureAndNotes,
) -> Result<(), Memory>
    ensures { OnOk result
        ((disk : DumpDisk) (start now : ShelfNow) (image before : List ℕ) (begun : SecondNow) → disk.format ≡ format
        → HasReadTracks disk start now image before report.old.written begun second.old totals.now
        → HasReadTo disk start now image before report.new.written begun.notes second.new totals.now) }
{
    drawings_are_noted();
    match end_report(totals, report) {
        Ok(()) => {}
        Err(_) => return Err(Memory),
    }
    match end_drawing(format, totals, &mut second.picture) {
        Ok(()) => {}
        Err(_) => return Err(Memory),
    }
    if second.full { Err(Memory) } else { Ok(()) }
}
