//! What is noted of dumps.

ghost use Rattle.std.specs.Prelude.{◌≡◌, ◌≤◌, ◌||◌, length};
ghost use Rattle.dump_reading.specs.Files.{shelf_at};
ghost use Rattle.flux_base.specs.World.{sink_at};
ghost use Rattle.scp_notes.specs.Dumps.{NotesDump, NotesDumps};

use crate::file::look_at;
use crate::lines::{failed_line, write_notes};
use flux_base::{Failed, Sink, Word};
use sector_report::write_line;
use track_shelf::{Shelf, is_scp};

/// Looks at each dump that is an SCP file, and writes what is noted of it, in the order of the dumps: where the sum of
/// its bytes is not the one that it names; each track of which it ends early, by number; or that it failed as it was
/// looked at. Whether one failed. `Err` comes where the notes failed, inside the lines of a dump: no other is looked at
/// then. No memory is taken.
pub fn note_dumps<H: Shelf, N: Sink>(
    dumps: &[Word],
    shelf: &mut H,
    notes: &mut N,
) -> Result<bool, Failed>
    requires { length dumps.now ≤ 256 }
    ensures { NotesDumps dumps.now (shelf_at H.Source H.Shelf.own shelf.old) (shelf_at H.Source H.Shelf.own shelf.new)
        (sink_at N.Sink notes.old) (sink_at N.Sink notes.new) result }
{
    let mut fails = false;
    for number in 0..dumps.len() {
        match note_dump(number as u8, dumps[number].bytes(), shelf, notes) {
            Ok(failed) => fails = either(fails, failed),
            Err(failed) => return Err(failed),
        }
    }
    Ok(fails)
}

/// Looks at one dump, and writes what is noted of it. Whether its file failed.
fn note_dump<H: Shelf, N: Sink>(
    number: u8,
    dump: &[u8],
    shelf: &mut H,
    notes: &mut N,
) -> Result<bool, Failed>
    ensures { NotesDump number dump.now (shelf_at H.Source H.Shelf.own shelf.old)
        (shelf_at H.Source H.Shelf.own shelf.new) (sink_at N.Sink notes.old) (sink_at N.Sink notes.new) result }
{
    if !is_scp(dump) {
        return Ok(false);
    }
    match look_at(dump, shelf) {
        Ok(noted) => match write_notes(number, &noted, notes) {
            Ok(()) => Ok(false),
            Err(failed) => Err(failed),
        },
        Err(_) => match write_line(notes, &failed_line(number)) {
            Ok(()) => Ok(true),
            Err(failed) => Err(failed),
        },
    }
}

/// Whether one of two is so.
fn either(first: bool, second: bool) -> bool
    ensures { result ≡ (first || second) }
{
    first || second
}
