//! How many there are of each kind on a track.

ghost use Rattle.std.specs.Prelude.{◌≡◌, ◌<◌, ◌≤◌, count_by, length};
ghost use Rattle.std.specs.List.{list_any, range_with_len};
ghost use Rattle.imd_image.specs.Totals.{has_elsewhere, has_names, is_elsewhere as is_elsewhere_in, is_out, left_count};
ghost use Rattle.imd_image.specs.Totals.{is_deleted as is_deleted_in, left_in, rows_of};
ghost use Rattle.std.specs.Option.{option_copied};
ghost use Rattle.imd_image.specs.inside.Counted.{AreWithin, HasRows, is_for, is_of, totals_in};
ghost use Rattle.imd_image.specs.inside.Finding.{found_in};
ghost use Rattle.imd_records.specs.Choices.{names_by};
ghost use Rattle.imd_records.specs.Records.{AreKnown, names_in};
ghost use Rattle.name_book.specs.Book.{told_at};

use crate::room::TrackRoom;
use crate::totals::ImdTotals;
use flux_base::TrackId;
use flux_engine::PassedStream;
use ibm_fields::DELETED_DATA_BYTE;
use imd_records::{Mode, TrackBooks, has_other_cylinder, is_row};
use name_book::{NameBook, NameKind};
use sector_report::Passed;

/// What a sector of a record may be.
#[derive(Clone, Copy, Debug, PartialEq, Eq)]
pub(crate) enum State {
    /// It has data.
    Good,
    /// None of its data are whole.
    Bad,
    /// Whole ones differ.
    Contradictory,
    /// It has data, whose mark is that of deleted ones.
    Deleted,
}

/// Why a file was passed over.
#[derive(Clone, Copy, Debug, PartialEq, Eq)]
pub(crate) enum Cause {
    Absent,
    Failed,
    Refused,
}

impl TrackRoom {
    /// How many there are of each kind on the track.
    pub fn tally(&self) -> ImdTotals
        requires rows { HasRows self.now }
        requires few { length self.now.passed.items ≤ 16 }
        ensures is { result ≡ totals_in (found_in self.now) }
        ensures few { AreWithin 1024 result }
    {
        let book = self.books.book(self.choice.mode);
        let rows = self.rows.as_slice();
        let passed = self.passed.as_slice();
        ImdTotals {
            tracks: u32::from(rows.len() > 0),
            sectors: rows.len() as u32,
            good: count_rows(book, rows, State::Good),
            bad: count_rows(book, rows, State::Bad),
            contradictory: count_rows(book, rows, State::Contradictory),
            deleted: count_rows(book, rows, State::Deleted),
            left: self.left(),
            refused: count_passed(passed, Cause::Refused),
            missing: count_passed(passed, Cause::Absent),
            failed: count_passed(passed, Cause::Failed),
            maps: u32::from(has_other_cylinder(self.track, book, rows)),
            behind: self.track.cylinder > 0 && has_a_name(&self.books),
            elsewhere: self.has_elsewhere(),
        }
    }

    /// The rows among the names of a mode: those of the record, if it is of this mode.
    pub fn rows_by(&self, mode: Mode) -> &[u8]
        ensures is { result.now ≡ rows_of (found_in self.now) mode }
    {
        if mode.number() == self.choice.mode.number() {
            self.rows.as_slice()
        } else {
            &[]
        }
    }

    /// How many names are left out, and one more for each mode of which names were passed over.
    fn left(&self) -> u32
        ensures is { result ≡ left_in (found_in self.now) }
        ensures few { result ≤ 1024 }
    {
        self.left_by(Mode::Mfm250)
            + self.left_by(Mode::Mfm500)
            + self.left_by(Mode::Fm250)
            + self.left_by(Mode::Fm500)
    }

    /// Those of a mode.
    fn left_by(&self, mode: Mode) -> u32
        ensures is { result ≡ left_count (names_by self.now.books mode) (rows_of (found_in self.now) mode) }
        ensures few { result ≤ 256 }
    {
        let book = self.books.book(mode);
        count_out(book.count(), self.rows_by(mode)) + u32::from(book.has_more())
    }

    /// Whether a name does not tell half of the track's cylinder.
    fn has_elsewhere(&self) -> bool
        ensures { result ≡ has_elsewhere (found_in self.now) }
    {
        is_elsewhere(self.track, &self.books.mfm250)
            || is_elsewhere(self.track, &self.books.mfm500)
            || is_elsewhere(self.track, &self.books.fm250)
            || is_elsewhere(self.track, &self.books.fm500)
    }
}

/// Whether a mode has a name.
fn has_a_name(books: &TrackBooks) -> bool
    ensures { result ≡ has_names (names_by books.now) }
{
    books.mfm250.count() > 0
        || books.mfm500.count() > 0
        || books.fm250.count() > 0
        || books.fm500.count() > 0
}

/// Whether a name of a mode does not tell half of the track's cylinder.
fn is_elsewhere(track: TrackId, book: &NameBook) -> bool
    ensures { result ≡ list_any (is_elsewhere_in track) book.now.told }
{
    for number in 0..book.count() {
        if book.name(number).cylinder != track.cylinder / 2 {
            return true;
        }
    }
    false
}

/// How many of the first numbers are none of the rows.
fn count_out(count: u8, rows: &[u8]) -> u32
    ensures is { result ≡ count_by (is_out rows.now) (range_with_len 0 count) }
    ensures few { result ≤ 255 }
{
    let mut out = 0u32;
    for number in 0..count {
        out += u32::from(!is_row(rows, number));
    }
    out
}

/// How many sectors of a record are so.
pub(crate) fn count_rows(book: &NameBook, rows: &[u8], state: State) -> u32
    requires known { AreKnown book.now rows.now }
    requires few { length rows.now ≤ 255 }
    ensures is { result ≡ count_by (is_of state) (names_in book.now rows.now) }
    ensures few { result ≤ 255 }
{
    let mut count = 0u32;
    for index in 0..rows.len() {
        count += u32::from(is_so(book, rows[index], state));
    }
    count
}

/// Whether a sector of a record is so.
pub(crate) fn is_so(book: &NameBook, row: u8, state: State) -> bool
    requires { row < length book.now.told }
    ensures { result ≡ is_of state (told_at book.now row) }
{
    let whole = matches!(book.kind(row), NameKind::Whole);
    let agreed = book.agreed(row);
    match state {
        State::Good => agreed.is_some(),
        State::Bad => !whole,
        State::Contradictory => whole && agreed.is_none(),
        State::Deleted => has_deleted(agreed),
    }
}

/// Whether data have the mark of deleted ones.
fn has_deleted(agreed: Option<&[u8]>) -> bool
    ensures { result ≡ is_deleted_in (option_copied agreed.entry) }
{
    match agreed {
        Some([mark, ..]) => *mark == DELETED_DATA_BYTE,
        _ => false,
    }
}

/// How many files were passed over for this.
fn count_passed(passed: &[PassedStream], cause: Cause) -> u32
    requires { length passed.now ≤ 16 }
    ensures is { result ≡ count_by (is_for cause) passed.now }
    ensures few { result ≤ 16 }
{
    let mut count = 0u32;
    for index in 0..passed.len() {
        count += u32::from(is_passed_for(&passed[index], cause));
    }
    count
}

/// Whether a file was passed over for this.
fn is_passed_for(passed: &PassedStream, cause: Cause) -> bool
    ensures { result ≡ is_for cause passed.now }
{
    match cause {
        Cause::Absent => matches!(passed.why, Passed::Absent),
        Cause::Failed => matches!(passed.why, Passed::Failed),
        Cause::Refused => matches!(passed.why, Passed::Refused { .. } | Passed::RefusedScp(_)),
    }
}
