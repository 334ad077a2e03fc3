ghost use Rattle.std.specs.Prelude.{◌≡◌, ◌+◌, ◌≤◌, ◌<◌, ◌^◌, [], false, length, IfOk};
ghost use Rattle.flux_engine.specs.Counts.{lost_in};
ghost use Rattle.flux_engine.specs.Room.{IsBookOf, IsStarted, empty_book};

use crate::gathered_track::{Gathered, PassedStream, PassedStreams};
use crate::told_names::{name_count, whole_name_count};
use cell_bits::Cells;
use disk_recordings::sectors_of;
use flux_base::Memory;
use kryo_stream::{MOST_TIMES, StreamRoom};
use phase_loop::Loop;
use sector_images::{Format, track_id, tracks_keep_bounds};
use sector_report::Passed;
use std::alloc::Global;
use std::marker::Model;
use turn_merge::{Book, Others};

/// The most cells of one track: 32 for each transition.
pub const MOST_CELLS: usize = 32 * MOST_TIMES;

/// What the transitions of a track are worked on with.
#[derive(Drop)]
pub(crate) struct Tools {
    pub clock: Loop,
    pub cells: Cells,
    pub gathered: Gathered,
}

/// All that decoding a disk of one format needs, less than 128 MiB: no answer of a call on it is for want of memory.
///
/// Contracts see the format, the bytes that were taken from the source and not used yet, whether a stream was read,
/// the number of the next track, the track whose readings are gathered, how many of its streams came, what its book
/// knows, which of them were passed over and what is known of other headers; of all tracks that were read how many
/// streams were passed over and how many of these since their files failed, how many names of others are told and how
/// many of these have whole data; and whether a call answered a fault.
#[derive(Drop)]
pub struct DiskRoom {
    pub(crate) format: Format,
    pub(crate) stream: StreamRoom,
    pub(crate) tools: Tools,
    pub(crate) next: u32,
    /// The track of which readings are gathered.
    pub(crate) started: u32,
    /// The streams that came for it; one that is read by both clocks counts twice.
    pub(crate) captures: u32,
    /// The streams that were passed over of all tracks whose captures were read.
    pub(crate) unread: u32,
    /// Those of them whose files failed.
    pub(crate) lost: u32,
    /// The names that are told of other headers of these tracks, and one for each track where data
    /// follow a name that is not told.
    pub(crate) told_others: u32,
    /// Those of them that have whole data.
    pub(crate) whole_others: u32,
    pub(crate) failed: bool,
}

impl Model for DiskRoom {
    ghost use Rattle.flux_engine.specs.Room.{RoomState, IsRoomy, IsStarted};

    ghost Value = { RoomState };

    ghost view = { λ a. record {
      format = a.format;
      held = a.stream.held;
      used = a.stream.used;
      next = a.next;
      started = a.started;
      captures = a.captures;
      book = a.tools.gathered.book;
      passed = a.tools.gathered.passed.items;
      unread = a.unread;
      lost = a.lost;
      others = a.tools.gathered.others;
      told_others = a.told_others;
      whole_others = a.whole_others;
      failed = a.failed;
    } };

    ghost invariant = { λ a.
        IsRoomy a.format a.tools.cells a.tools.gathered.book
        × IsStarted a.format a.started a.captures a.tools.gathered.book a.tools.gathered.others };
}

impl DiskRoom {
    ghost use Rattle.flux_engine.specs.Counts.{counted};
    ghost use Rattle.flux_engine.specs.Room.{empty_book, fresh};

    /// Takes all memory that decoding a disk of the format needs.
    pub fn reserve(alloc: Global, format: Format) -> Result<DiskRoom, Memory>
        ensures { IfOk result (λ room. room ≡ fresh format) }
    {
        let stream = StreamRoom::reserve(alloc)?;
        let tools = Tools::reserve(alloc, format)?;
        Ok(DiskRoom {
            format,
            stream,
            tools,
            next: 0,
            started: 0,
            captures: 0,
            unread: 0,
            lost: 0,
            told_others: 0,
            whole_others: 0,
            failed: false,
        })
    }

    /// Begins anew, for a disk of another format, as after `reserve` for it: all that came before is forgotten. The
    /// book is one for that format's tracks. No memory is taken.
    pub fn begin_format(&mut self, format: Format, book: Book)
        requires { book ≡ empty_book format }
        ensures { self.new ≡ fresh format }
    {
        tracks_keep_bounds();
        self.stream.restart();
        self.tools.gathered.book = book;
        self.tools.gathered.passed.clear();
        self.tools.gathered.others.clear();
        self.format = format;
        self.next = 0;
        self.started = 0;
        self.captures = 0;
        self.unread = 0;
        self.lost = 0;
        self.told_others = 0;
        self.whole_others = 0;
        self.failed = false;
    }

    /// How many streams were passed over, of all tracks whose captures were read.
    pub fn unread(&self) -> u32
        ensures { result ≡ self.now.unread }
    {
        self.unread
    }

    /// How many of these since their files failed.
    pub fn lost(&self) -> u32
        ensures { result ≡ self.now.lost }
    {
        self.lost
    }

    /// How many names are told of headers that name none of their track's sectors, of all tracks whose captures were
    /// read. The names of a track that are not told count as one where whole data stand after one of their headers.
    pub fn told_others(&self) -> u32
        ensures { result ≡ self.now.told_others }
    {
        self.told_others
    }

    /// How many of these names have whole data after one of their headers at least.
    pub fn whole_others(&self) -> u32
        ensures { result ≡ self.now.whole_others }
    {
        self.whole_others
    }

    /// Counts what was gathered of the started track.
    pub(crate) fn count_track(&mut self)
        requires unread { self.old.unread + length self.old.passed < 2 ^ 32 }
        requires lost { self.old.lost + length self.old.passed < 2 ^ 32 }
        requires told { self.old.told_others + 65 < 2 ^ 32 }
        requires whole { self.old.whole_others + 65 < 2 ^ 32 }
        ensures { self.new ≡ counted self.old }
    {
        let names = name_count(&self.tools.gathered.others);
        let with_data = whole_name_count(&self.tools.gathered.others);
        self.unread += self.tools.gathered.passed.len() as u32;
        self.lost += lost_count(&self.tools.gathered.passed);
        self.told_others += names;
        self.whole_others += with_data;
    }
}

/// How many of these streams are passed over since their files failed.
pub fn lost_count(passed: &[PassedStream]) -> u32
    requires { length passed.now < 2 ^ 32 }
    ensures count { result ≡ lost_in passed.now }
    ensures few { result ≤ length passed.now }
{
    passed
        .iter()
        .filter(|stream| matches!(stream.why, Passed::Failed))
        .count() as u32
}

impl Tools {
    ghost use Rattle.flux_engine.specs.Room.{IsRoomy, IsStarted, empty_book};

    /// Room for the most cells, and a book for the format's tracks, of which the first is started.
    fn reserve(alloc: Global, format: Format) -> Result<Tools, Memory>
        ensures roomy { IfOk result (λ tools. IsRoomy format tools.cells tools.gathered.book) }
        ensures started { IfOk result (λ tools. IsStarted format 0 0 tools.gathered.book tools.gathered.others) }
        ensures empty { IfOk result (λ tools. tools.gathered.book ≡ empty_book format) }
        ensures none { IfOk result (λ tools. tools.gathered.passed.items ≡ []) }
        ensures no_others { IfOk result
            (λ tools. tools.gathered.others ≡ record { notes = 0; told = []; untold = false }) }
    {
        let clock = Loop::new(alloc)?;
        let mut cells = Cells::new(alloc);
        cells.reserve(MOST_CELLS)?;
        let gathered = format_gathered(alloc, format)?;
        Ok(Tools {
            clock,
            cells,
            gathered,
        })
    }
}

/// Room for what is gathered of a track of a format's disks, of which the first is started.
pub fn format_gathered(alloc: Global, format: Format) -> Result<Gathered, Memory>
    ensures book { IfOk result (λ gathered. IsBookOf format gathered.book) }
    ensures started { IfOk result (λ gathered. IsStarted format 0 0 gathered.book gathered.others) }
    ensures empty { IfOk result (λ gathered. gathered.book ≡ empty_book format) }
    ensures none { IfOk result (λ gathered. gathered.passed.items ≡ []) }
    ensures no_others { IfOk result
        (λ gathered. gathered.others ≡ record { notes = 0; told = []; untold = false }) }
{
    tracks_keep_bounds();
    let book = format_book(alloc, format)?;
    let others = Others::new(alloc)?;
    Ok(Gathered {
        book,
        passed: PassedStreams::new(),
        others,
    })
}

/// A book for the tracks of a format's disks, of which the first is started.
pub fn format_book(alloc: Global, format: Format) -> Result<Book, Memory>
    ensures { IfOk result (λ book. book ≡ empty_book format) }
{
    // No track has more sectors than the first.
    tracks_keep_bounds();
    let sectors = sectors_of(format, track_id(format, 0));
    let book = Book::new(alloc, sectors.first, sectors.count, sectors.size)?;
    Ok(book)
}
