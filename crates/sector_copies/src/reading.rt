//! One sector of a disk that is read of its dumps.

ghost use Rattle.std.specs.Prelude.{◌≡◌, ◌≤◌, ◌<◌, ◌+◌, ◌*◌, List, [], length, IfOk};
ghost use Rattle.dump_reading.specs.Files.{shelf_at};
ghost use Rattle.dump_reading.specs.Outcomes.{disk_of};
ghost use Rattle.flux_engine.specs.Recordings.{track_at};
ghost use Rattle.flux_engine.specs.Room.{MOST_READINGS};
ghost use Rattle.sector_copies.specs.Notes.{SectorStandsFor};
ghost use Rattle.sector_copies.specs.TrackReadings.{HasReadTo, IsEmptyRoom, IsSameRoom};
ghost use Rattle.sector_copies.specs.inside.TrackReadings.{HasReadNext};
ghost use Rattle.sector_images.specs.Formats.{row};
ghost use Rattle.sector_images.specs.Places.{IsSector, sector_place, tracks};
ghost use Rattle.turn_merge.specs.Book.{MOST_NOTES};
ghost use Rattle.turn_merge.specs.Readings.{NotedReading, verdict as verdict_over};

use crate::copies::SectorCopy;
use crate::notes::SectorNotes;
use crate::tools::{SectorTools, note_next};
use cell_bits::Cells;
use dump_reading::Dumps;
use flux_base::{Memory, TrackId};
use flux_engine::{MOST_CELLS, PassedStream, PassedStreams, sectors_of};
use kryo_stream::StreamRoom;
use phase_loop::Loop;
use sector_images::{Format, image_place, track_id, tracks_keep_bounds};
use std::alloc::Global;
use std::marker::Model;
use track_shelf::Shelf;
use turn_merge::Verdict;

/// All that reading one sector of a disk's dumps takes, less than 128 MiB: no answer of a
/// call on it is for want of memory.
///
/// Contracts see the format, the track's number, what is known of the sector, and which of the
/// track's streams were passed over.
#[derive(Drop)]
pub struct SectorRoom {
    format: Format,
    /// The number of the track.
    number: u32,
    stream: StreamRoom,
    tools: SectorTools,
}

impl Model for SectorRoom {
    ghost use Rattle.sector_copies.specs.TrackReadings.{IsRoomFor, SectorRoomState};

    ghost Value = { SectorRoomState };

    ghost view = { λ r.
        record { format = r.format; number = r.number; known = r.tools.notes; passed = r.tools.passed.items } };

    ghost invariant = { λ r. IsRoomFor r.format r.number r.tools.notes r.tools.cells };
}

impl SectorRoom {
    /// Takes all memory that reading a sector of a track of the format needs.
    pub fn reserve(
        alloc: Global,
        format: Format,
        number: u32,
        sector: u8,
    ) -> Result<SectorRoom, Memory>
        requires track { number < length (tracks format) }
        requires sector { IsSector format (track_at format number) sector }
        ensures { IfOk result (IsEmptyRoom format number sector) }
    {
        tracks_keep_bounds();
        let size = sectors_of(format, track_id(format, number)).size;
        let stream = StreamRoom::reserve(alloc)?;
        let clock = Loop::new(alloc)?;
        let mut cells = Cells::new(alloc);
        cells.reserve(MOST_CELLS)?;
        let notes = SectorNotes::new(alloc, sector, size)?;
        Ok(SectorRoom {
            format,
            number,
            stream,
            tools: SectorTools {
                clock,
                cells,
                notes,
                passed: PassedStreams::new(),
            },
        })
    }
}

impl SectorRoom {
    /// The format of the disks that the room is for.
    pub(crate) fn format(&self) -> Format
        ensures { result ≡ self.now.format }
    {
        self.format
    }

    /// The sector's track.
    pub(crate) fn track(&self) -> TrackId
        ensures is { result ≡ track_at self.now.format self.now.number }
        ensures cylinder { result.cylinder < 100 }
    {
        tracks_keep_bounds();
        track_id(self.format, self.number)
    }

    /// The sector's number.
    pub(crate) fn sector(&self) -> u8
        ensures { result ≡ self.now.known.sector }
    {
        self.tools.notes.sector()
    }

    /// How many bytes the sector has.
    pub(crate) fn size(&self) -> u16
        ensures { result ≡ (row self.now.format).sector_size }
    {
        tracks_keep_bounds();
        sectors_of(self.format, track_id(self.format, self.number)).size
    }

    /// The place of the sector's first byte in the image.
    pub(crate) fn image_place(&self) -> u32
        ensures { result
            ≡ sector_place self.now.format (track_at self.now.format self.now.number) self.now.known.sector }
    {
        tracks_keep_bounds();
        image_place(
            self.format,
            track_id(self.format, self.number),
            self.tools.notes.sector(),
        )
    }

    /// Which of the track's streams were passed over, in order.
    pub(crate) fn passed(&self) -> &[PassedStream]
        ensures are { result.now ≡ self.now.passed }
        ensures few { length result.now ≤ 16 }
    {
        self.tools.passed.as_slice()
    }

    /// The distinct contents of the sector's good readings, at most 16, in the order in which they were first met.
    pub(crate) fn copies(&self) -> &[SectorCopy]
        ensures { result.now ≡ self.now.known.copies }
    {
        self.tools.notes.copies()
    }

    /// What the sector's readings say together.
    pub(crate) fn verdict(&self) -> Verdict
        ensures { (readings : List NotedReading) → SectorStandsFor self.now.known readings
            → result ≡ verdict_over readings self.now.known.sector }
    {
        self.tools.notes.verdict()
    }
}

/// Reads one sector of a disk of its dumps: of its track the files of all dumps as controllers read, in the
/// order of the dumps, by both clocks. One that is missing or refused, or that fails, is passed over. No
/// other track's file is opened.
pub fn read_sector<H: Shelf>(dumps: &Dumps, room: &mut SectorRoom, shelf: &mut H)
    requires none { SectorStandsFor room.old.known [] }
    requires no_passed { room.old.passed ≡ [] }
    requires few { length dumps.now.names.now ≤ 16 }
    ensures read { HasReadTo (disk_of dumps.now room.old.format) room.old.number room.old.known.sector
        (length dumps.now.names.now) (shelf_at H.Source H.Shelf.own shelf.old) (shelf_at H.Source H.Shelf.own shelf.new)
        room.new.known room.new.passed }
    ensures same { IsSameRoom room.old room.new }
{
    for capture in 0..dumps.names.len() {
        read_next(dumps, capture as u8, room, shelf);
    }
}

/// Reads the track's file of the next dump, or passes it over.
fn read_next<H: Shelf>(dumps: &Dumps, capture: u8, room: &mut SectorRoom, shelf: &mut H)
    requires low { capture < length dumps.now.names.now }
    requires few { room.old.known.book.notes + 2 * MOST_READINGS ≤ MOST_NOTES }
    requires room { length room.old.passed < 16 }
    ensures read { HasReadNext (disk_of dumps.now room.old.format) room.old.number capture
        (shelf_at H.Source H.Shelf.own shelf.old) (shelf_at H.Source H.Shelf.own shelf.new) room.old room.new }
    ensures same { IsSameRoom room.old room.new }
    ensures few { room.new.known.book.notes ≤ room.old.known.book.notes + 2 * MOST_READINGS }
    ensures passed { length room.new.passed ≤ length room.old.passed + 1 }
{
    tracks_keep_bounds();
    let track = track_id(room.format, room.number);
    let next = dumps.read(track, capture, shelf, &mut room.stream);
    note_next(
        next,
        room.format,
        track,
        capture,
        room.stream.flux(),
        &mut room.tools,
    );
}
