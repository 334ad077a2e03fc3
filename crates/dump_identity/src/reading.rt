//! Readings of a dump's files, each of all that it may have, as the tracks of many disks.

ghost use Rattle.std.specs.Prelude.{◌≡◌, ◌≤◌, ◌<◌, ℕ, List, All, [], drop, get_or, length};
ghost use Rattle.std.specs.Vec.{vec_capacity};
ghost use Rattle.dump_numbers.specs.Sets.{AreNotedTo};
ghost use Rattle.flux_engine.specs.Plans.{Seen};
ghost use Rattle.dump_reading.specs.Files.{shelf_at};
ghost use Rattle.dump_tallies.specs.Tallies.{TalliedDisk};
ghost use Rattle.dump_identity.specs.Outcomes.{files_for};
ghost use Rattle.dump_identity.specs.inside.Outcomes.{AreHeld, HasRead, HaveRead, HaveReadBehind, IsHeld};

use dump_numbers::NumbersRoom;
use dump_reading::{Dumps, find_empty};
use dump_tallies::{DiskTally, MOST_FILES, file_track, note_file};
use flux_base::Word;
use flux_engine::SharedStream;
use sector_report::Passed;
use std::slice::from_ref;
use track_shelf::{Shelf, Stepping};

/// Finds out of which disks a dump has a file of a track. Nothing is opened to be read.
pub(crate) fn find_files<H: Shelf>(
    dump: &Word,
    disks: &[DiskTally],
    held: &mut Vec<bool>,
    shelf: &H,
)
    requires none { held.old.items ≡ [] }
    requires room { length disks.now ≤ vec_capacity held.old }
    ensures { AreHeld dump.now (H.files shelf.now) disks.now held.new.items }
{
    for number in 0..disks.len() {
        held.push_reserved(has_files(dump, &disks[number], shelf));
    }
}

/// Whether a dump has a file of a track of this disk.
fn has_files<H: Shelf>(dump: &Word, disk: &DiskTally, shelf: &H) -> bool
    ensures { IsHeld dump.now (H.files shelf.now) disk.now result }
{
    let dumps = Dumps {
        names: from_ref(dump),
        stepping: disk.stepping(),
    };
    find_empty(&dumps, disk.format(), shelf).is_none()
}

/// Reads all files, and notes which numbers each tells, and what it comes to as a track of each of these disks.
pub(crate) fn read_files<H: Shelf>(
    dump: &Word,
    stream: &mut SharedStream,
    numbers: &mut NumbersRoom,
    passed: &mut Vec<Option<Passed>>,
    disks: &mut [DiskTally],
    shelf: &mut H,
)
    requires none { passed.old.items ≡ [] }
    requires room { 200 ≤ vec_capacity passed.old }
    requires fresh { All (λ disk. disk.tallies ≡ []) disks.old }
    requires unnoted { AreNotedTo [] numbers.old }
    ensures { (came : List Seen)
        × HaveRead dump.now (shelf_at H.Source H.Shelf.own shelf.old) (shelf_at H.Source H.Shelf.own shelf.new)
        disks.old disks.new passed.new.items 200 came
        × AreNotedTo came numbers.new }
{
    for number in 0..MOST_FILES {
        read_file(dump, number, stream, passed, disks, shelf);
        numbers.note_file(stream);
    }
}

/// Reads all files once more as tracks of the disks from a place on, where there are any there.
pub(crate) fn read_again<H: Shelf>(
    dump: &Word,
    place: usize,
    stream: &mut SharedStream,
    passed: &mut Vec<Option<Passed>>,
    disks: &mut [DiskTally],
    shelf: &mut H,
)
    requires place { place ≤ length disks.old }
    requires none { passed.old.items ≡ [] }
    requires room { 200 ≤ vec_capacity passed.old }
    requires fresh { All (λ disk. disk.tallies ≡ []) (drop place disks.old) }
    ensures { HaveReadBehind dump.now (shelf_at H.Source H.Shelf.own shelf.old)
        (shelf_at H.Source H.Shelf.own shelf.new) place disks.old disks.new passed.new.items }
{
    read_told(dump, stream, passed, &mut disks[place..], shelf);
}

/// Reads all files as tracks of these disks, where there are any.
fn read_told<H: Shelf>(
    dump: &Word,
    stream: &mut SharedStream,
    passed: &mut Vec<Option<Passed>>,
    disks: &mut [DiskTally],
    shelf: &mut H,
)
    requires none { passed.old.items ≡ [] }
    requires room { 200 ≤ vec_capacity passed.old }
    requires fresh { All (λ disk. disk.tallies ≡ []) disks.old }
    ensures { (came : List Seen)
        × HaveRead dump.now (shelf_at H.Source H.Shelf.own shelf.old) (shelf_at H.Source H.Shelf.own shelf.new)
        disks.old disks.new passed.new.items (files_for (length disks.old)) came }
{
    if disks.is_empty() {
        return;
    }
    for number in 0..MOST_FILES {
        read_file(dump, number, stream, passed, disks, shelf);
    }
}

/// Reads the file of a number, and notes what it comes to as a track of each of these disks.
fn read_file<H: Shelf>(
    dump: &Word,
    number: u8,
    stream: &mut SharedStream,
    passed: &mut Vec<Option<Passed>>,
    disks: &mut [DiskTally],
    shelf: &mut H,
)
    requires number { number < 200 }
    requires room { length passed.old.items < vec_capacity passed.old }
    requires many { (k : ℕ) (d : TalliedDisk) → k < length disks.old
        → length (get_or disks.old k d).tallies ≡ number }
    ensures read { HasRead dump.now number (shelf_at H.Source H.Shelf.own shelf.old)
        (shelf_at H.Source H.Shelf.own shelf.new) disks.old disks.new passed.old.items passed.new.items stream.new }
    ensures capacity { vec_capacity passed.new ≡ vec_capacity passed.old }
{
    let dumps = Dumps {
        names: from_ref(dump),
        stepping: Stepping::Single,
    };
    let file = file_track(number);
    stream.take(&dumps, file, 0, shelf);
    passed.push_reserved(stream.passed());
    note_file(number, file, stream, disks);
}
