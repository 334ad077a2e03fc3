//! The rows of a record: the numbers of its names, in the order in which they lie on the track.

ghost use Rattle.std.specs.Prelude.{◌≡◌, ◌<◌, length, nat_eq};
ghost use Rattle.std.specs.List.{list_any};
ghost use Rattle.imd_records.specs.Choices.{AreInOrder, AreRows, is_in};
ghost use Rattle.imd_records.specs.inside.Placed.{AreBelow, IsPlaceOf};
ghost use Rattle.name_book.specs.Book.{told_at};

use crate::choice::is_of_kind;
use arrayvec::ArrayVec;
use name_book::{NameBook, NameKind};

/// The most sectors of a record.
pub const MOST_ROWS: usize = 255;

/// Makes them the rows of a record of a size.
pub fn fill_rows(book: &NameBook, code: u8, rows: &mut ArrayVec<u8, MOST_ROWS>)
    ensures { AreRows book.now code rows.new.items }
{
    rows.clear();
    for number in 0..book.count() {
        if is_in_record(book, number, code) {
            let place = place_of(book, number, rows.as_slice());
            rows.insert(place, number);
        }
    }
}

/// Whether a name stands in the record of a size.
fn is_in_record(book: &NameBook, number: u8, code: u8) -> bool
    requires { number < length book.now.told }
    ensures { result ≡ is_in code (told_at book.now number) }
{
    book.name(number).code == code && !is_of_kind(book, number, NameKind::Bare)
}

/// Behind how many of the rows a number has its place.
fn place_of(book: &NameBook, number: u8, rows: &[u8]) -> usize
    requires number { number < length book.now.told }
    requires below { AreBelow number rows.now }
    requires order { AreInOrder book.now rows.now }
    ensures { IsPlaceOf book.now rows.now number result }
{
    for index in 0..rows.len() {
        if book.place(number).is_before(book.place(rows[index])) {
            return index;
        }
    }
    rows.len()
}

/// Whether a number is one of the rows.
pub fn is_row(rows: &[u8], number: u8) -> bool
    ensures { result ≡ list_any (nat_eq number) rows.now }
{
    for row in rows {
        if *row == number {
            return true;
        }
    }
    false
}
