//! The bytes of a record.

ghost use Rattle.std.specs.Prelude.{◌≡◌, ◌≤◌, ◌<◌, ◌++◌, ◌+◌, [], IsTrue, Some, cond, length, map};
ghost use Rattle.flux_base.specs.Moments.{Puts};
ghost use Rattle.flux_base.specs.World.{sink_at};
ghost use Rattle.imd_records.specs.Records.{AreKnown, are_alike as are_alike_in, begin_bytes, data_bytes, kind_in};
ghost use Rattle.imd_records.specs.Records.{has_other_cylinder as tells_other_cylinder};
ghost use Rattle.imd_records.specs.Records.{has_other_head as tells_other_head, names_in, record_bytes};
ghost use Rattle.imd_records.specs.Records.{sector_bytes, sectors_bytes};
ghost use Rattle.imd_records.specs.inside.Maps.{field_in};
ghost use Rattle.name_book.specs.Book.{told_at};

use crate::choice::Choice;
use arrayvec::ArrayVec;
use flux_base::{Failed, Sink, TrackId, write_whole};
use ibm_fields::DELETED_DATA_BYTE;
use name_book::{NameBook, SectorName};

/// A name of the record tells another cylinder than the track's.
const OTHER_CYLINDERS: u8 = 0x80;

const OTHER_HEADS: u8 = 0x40;

/// The most bytes of the begin of a record: five, and three maps of 255 sectors.
const MOST_BEGIN: usize = 770;

/// What a map tells of each sector.
#[derive(Clone, Copy, Debug, PartialEq, Eq)]
pub(crate) enum Field {
    Number,
    Cylinder,
    Head,
}

/// Writes the record of a track with some rows.
pub fn write_record<W: Sink>(
    track: TrackId,
    choice: Choice,
    book: &NameBook,
    rows: &[u8],
    file: &mut W,
) -> Result<(), Failed>
    requires track { track.head < 2 }
    requires known { AreKnown book.now rows.now }
    requires few { length rows.now ≤ 255 }
    ensures { Puts (sink_at W.Sink file.old) (sink_at W.Sink file.new)
        (record_bytes track choice (names_in book.now rows.now)) result }
{
    match write_whole(file, begin_of(track, choice, book, rows).as_slice()) {
        Ok(()) => {}
        Err(failed) => return Err(failed),
    }
    write_sectors(book, rows, file)
}

/// The begin of a record: up to its sectors.
fn begin_of(
    track: TrackId,
    choice: Choice,
    book: &NameBook,
    rows: &[u8],
) -> ArrayVec<u8, MOST_BEGIN>
    requires track { track.head < 2 }
    requires known { AreKnown book.now rows.now }
    requires few { length rows.now ≤ 255 }
    ensures { result.items ≡ begin_bytes track choice (names_in book.now rows.now) }
{
    let cylinders = has_other_cylinder(track, book, rows);
    let heads = has_other_head(track, book, rows);
    let mut begin = ArrayVec::new();
    begin.push(choice.mode.number());
    begin.push(track.cylinder);
    begin.push(track.head + flag(cylinders, OTHER_CYLINDERS) + flag(heads, OTHER_HEADS));
    begin.push(rows.len() as u8);
    begin.push(choice.code);
    push_map(true, Field::Number, book, rows, &mut begin);
    push_map(cylinders, Field::Cylinder, book, rows, &mut begin);
    push_map(heads, Field::Head, book, rows, &mut begin);
    begin
}

/// A flag where something is.
fn flag(is: bool, value: u8) -> u8
    ensures { result ≡ cond is value 0 }
{
    if is { value } else { 0 }
}

/// Appends a map of the rows, where it is wanted.
fn push_map(
    wanted: bool,
    field: Field,
    book: &NameBook,
    rows: &[u8],
    begin: &mut ArrayVec<u8, MOST_BEGIN>,
)
    requires known { AreKnown book.now rows.now }
    requires room { length begin.old.items + length rows.now ≤ 770 }
    ensures { begin.new.items ≡ begin.old.items
        ++ cond wanted (map (λ told. field_in field told.name) (names_in book.now rows.now)) [] }
{
    if !wanted {
        return;
    }
    for index in 0..rows.len() {
        begin.push(field_of(field, book.name(rows[index])));
    }
}

/// What a name tells.
fn field_of(field: Field, name: SectorName) -> u8
    ensures { result ≡ field_in field name }
{
    match field {
        Field::Number => name.number,
        Field::Cylinder => name.cylinder,
        Field::Head => name.head,
    }
}

/// Writes the sectors of a record.
fn write_sectors<W: Sink>(book: &NameBook, rows: &[u8], file: &mut W) -> Result<(), Failed>
    requires { AreKnown book.now rows.now }
    ensures { Puts (sink_at W.Sink file.old) (sink_at W.Sink file.new)
        (sectors_bytes (names_in book.now rows.now)) result }
{
    for index in 0..rows.len() {
        match write_sector(book, rows[index], file) {
            Ok(()) => {}
            Err(failed) => return Err(failed),
        }
    }
    Ok(())
}

/// Writes a sector: a byte that says of which kind it is, and its data. Of one that all whole data do not agree on
/// nothing is said.
fn write_sector<W: Sink>(book: &NameBook, row: u8, file: &mut W) -> Result<(), Failed>
    requires { row < length book.now.told }
    ensures { Puts (sink_at W.Sink file.old) (sink_at W.Sink file.new) (sector_bytes (told_at book.now row).agreed) result }
{
    match book.agreed(row) {
        Some(held) => write_held(held, file),
        None => write_whole(file, &[0]),
    }
}

/// Writes a sector of data with their mark.
fn write_held<W: Sink>(held: &[u8], file: &mut W) -> Result<(), Failed>
    ensures { Puts (sink_at W.Sink file.old) (sink_at W.Sink file.new) (sector_bytes (Some held.now)) result }
{
    match held {
        [] => write_whole(file, &[0]),
        [mark, bytes @ ..] => write_data(kind_of(*mark), bytes, file),
    }
}

/// How a record names data of a mark.
fn kind_of(mark: u8) -> u8
    ensures { result ≡ kind_in mark }
{
    if mark == DELETED_DATA_BYTE { 3 } else { 1 }
}

/// Writes data of a kind, of which one byte is enough where all are alike.
fn write_data<W: Sink>(kind: u8, bytes: &[u8], file: &mut W) -> Result<(), Failed>
    requires { kind < 255 }
    ensures { Puts (sink_at W.Sink file.old) (sink_at W.Sink file.new) (data_bytes kind bytes.now) result }
{
    if !are_alike(bytes) {
        match write_whole(file, &[kind]) {
            Ok(()) => {}
            Err(failed) => return Err(failed),
        }
        return write_whole(file, bytes);
    }
    match write_whole(file, &[kind + 1]) {
        Ok(()) => {}
        Err(failed) => return Err(failed),
    }
    write_whole(file, &bytes[..1])
}

/// Whether there are bytes, and all are one.
fn are_alike(bytes: &[u8]) -> bool
    ensures alike { result ≡ are_alike_in bytes.now }
    ensures some { IsTrue result → 1 ≤ length bytes.now }
{
    let Some(first) = bytes.first() else {
        return false;
    };
    for index in 0..bytes.len() {
        if bytes[index] != *first {
            return false;
        }
    }
    true
}

/// Whether a name of a row tells another cylinder than the track's.
pub fn has_other_cylinder(track: TrackId, book: &NameBook, rows: &[u8]) -> bool
    requires { AreKnown book.now rows.now }
    ensures { result ≡ tells_other_cylinder track (names_in book.now rows.now) }
{
    for index in 0..rows.len() {
        if book.name(rows[index]).cylinder != track.cylinder {
            return true;
        }
    }
    false
}

/// Whether one tells another head.
fn has_other_head(track: TrackId, book: &NameBook, rows: &[u8]) -> bool
    requires { AreKnown book.now rows.now }
    ensures { result ≡ tells_other_head track (names_in book.now rows.now) }
{
    for index in 0..rows.len() {
        if book.name(rows[index]).head != track.head {
            return true;
        }
    }
    false
}
