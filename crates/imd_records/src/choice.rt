//! The mode and the size of a track's record.

ghost use Rattle.std.specs.Prelude.{◌≡◌, ◌≤◌, ◌<◌, ◌&&◌, count_by, length, nat_eq};
ghost use Rattle.std.specs.List.{list_any};
ghost use Rattle.imd_records.specs.Choices.{IsChosen, has_whole as has_whole_in, is_kind, names_by, rank};
ghost use Rattle.imd_records.specs.Choices.{same_kind, weighed as weighed_in, weight_of};
ghost use Rattle.name_book.specs.Book.{told_at};

use crate::books::TrackBooks;
use crate::mode::Mode;
use name_book::{NameBook, NameKind};

/// A mode, and the code of a size: 0 to 3.
#[derive(Clone, Copy, Debug, PartialEq, Eq)]
pub struct Choice {
    pub mode: Mode,
    pub code: u8,
}

/// Those that most bytes of a track have: in sectors whose names are whole, or in bad ones where none is.
pub fn choose(books: &TrackBooks) -> Choice
    ensures { IsChosen (names_by books.now) result }
{
    let kind = weighed(books);
    let mut best = choice_of(0);
    for number in 1..16u8 {
        let other = choice_of(number);
        if weight_by(books, kind, other) > weight_by(books, kind, best) {
            best = other;
        }
    }
    best
}

/// What is weighed: whole names, or bad ones where no name is whole.
fn weighed(books: &TrackBooks) -> NameKind
    ensures { result ≡ weighed_in (names_by books.now) }
{
    if has_whole(books) {
        return NameKind::Whole;
    }
    NameKind::Bad
}

/// The choice of a number: mode before size.
fn choice_of(number: u8) -> Choice
    requires { number < 16 }
    ensures rank { rank result ≡ number }
    ensures code { result.code < 4 }
{
    let mode = match number / 4 {
        0 => Mode::Mfm250,
        1 => Mode::Mfm500,
        2 => Mode::Fm250,
        _ => Mode::Fm500,
    };
    Choice {
        mode,
        code: number % 4,
    }
}

/// The bytes of a track that a choice has, in sectors whose names are of a kind, in units of 128.
fn weight_by(books: &TrackBooks, kind: NameKind, choice: Choice) -> u32
    requires { choice.code < 4 }
    ensures { result ≡ weight_of kind (names_by books.now choice.mode) choice.code }
{
    count_of(books.book(choice.mode), kind, choice.code) << u32::from(choice.code)
}

/// Whether a name of the track is whole.
fn has_whole(books: &TrackBooks) -> bool
    ensures { result ≡ has_whole_in (names_by books.now) }
{
    has_kind(&books.mfm250, NameKind::Whole)
        || has_kind(&books.mfm500, NameKind::Whole)
        || has_kind(&books.fm250, NameKind::Whole)
        || has_kind(&books.fm500, NameKind::Whole)
}

/// Whether a name is of a kind.
fn has_kind(book: &NameBook, kind: NameKind) -> bool
    ensures { result ≡ list_any (is_kind kind) book.now.told }
{
    for number in 0..book.count() {
        if is_of_kind(book, number, kind) {
            return true;
        }
    }
    false
}

/// How many sectors of a size have names of a kind.
fn count_of(book: &NameBook, kind: NameKind, code: u8) -> u32
    ensures count { result ≡ count_by (λ told. nat_eq told.name.code code && is_kind kind told) book.now.told }
    ensures few { result ≤ 255 }
{
    let mut count = 0u32;
    for number in 0..book.count() {
        count += u32::from(is_counted(book, number, kind, code));
    }
    count
}

/// Whether the name of a number is of a kind and tells a size.
fn is_counted(book: &NameBook, number: u8, kind: NameKind, code: u8) -> bool
    requires { number < length book.now.told }
    ensures { result ≡ (nat_eq (told_at book.now number).name.code code && is_kind kind (told_at book.now number)) }
{
    book.name(number).code == code && is_of_kind(book, number, kind)
}

/// Whether the name of a number is of a kind.
pub(crate) fn is_of_kind(book: &NameBook, number: u8, kind: NameKind) -> bool
    requires { number < length book.now.told }
    ensures { result ≡ is_kind kind (told_at book.now number) }
{
    are_same(kind, book.kind(number))
}

fn are_same(kind: NameKind, other: NameKind) -> bool
    ensures { result ≡ same_kind kind other }
{
    match kind {
        NameKind::Whole => matches!(other, NameKind::Whole),
        NameKind::Bad => matches!(other, NameKind::Bad),
        NameKind::Bare => matches!(other, NameKind::Bare),
    }
}
