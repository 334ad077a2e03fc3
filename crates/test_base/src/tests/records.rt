//! What headers of a track say by their names, and its record in a file of ImageDisk.
use arrayvec::ArrayVec;
use flux_base::{Failed, MemorySink, TrackId};
use imd_records::{TrackBooks, choose, fill_rows, write_record};
use name_book::{NameBook, NameKind, NamedHeader, SectorName, SectorPlace};
use std::test::Fail;

/// The name of a sector of 128 bytes of the first head.
fn name(cylinder: u8, number: u8) -> SectorName {
    SectorName {
        cylinder,
        head: 0,
        number,
        code: 0,
    }
}

/// A header of the first dump behind which a data sync stands.
fn header(name: SectorName, time: u64, since: Option<u64>) -> NamedHeader {
    NamedHeader {
        name,
        dump: 0,
        time,
        since,
        opens: true,
    }
}

/// Whether this is told of the first name: its kind, its place, and what all its whole data hold, if they agree.
fn is_told(book: &NameBook, kind: NameKind, place: SectorPlace, held: &[u8]) -> bool {
    if book.count() == 0 {
        return false;
    }
    let agree = match book.agreed(0) {
        Some(bytes) => bytes == held,
        None => held.is_empty(),
    };
    agree && book.kind(0) == kind && book.place(0) == place
}

/// The first index moment of the first dump tells where a sector lies.
#[test]
fn names_as_headers_come(rt: HostRuntime) -> Result<(), Fail> {
    let mut book = NameBook::new(rt.alloc())?;
    let mut bare = header(name(5, 1), 70, None);
    bare.opens = false;
    book.note_header(bare);
    assert!(rt; is_told(&book, NameKind::Bare, SectorPlace::Early(70), &[]));

    let mut other = header(name(5, 1), 40, Some(30));
    other.dump = 1;
    book.note_header(other);
    assert!(rt; is_told(&book, NameKind::Bad, SectorPlace::Early(70), &[]));

    book.note_header(header(name(5, 1), 90, Some(20)));
    book.note_header(header(name(5, 1), 190, Some(25)));
    book.note_data(name(5, 1), &[0xFB, 1, 2]);
    book.note_data(name(5, 1), &[0xFB, 1, 2]);
    assert!(rt;
        is_told(
            &book,
            NameKind::Whole,
            SectorPlace::Behind(20),
            &[0xFB, 1, 2]
        )
    );

    book.note_data(name(5, 1), &[0xF8, 1, 2]);
    assert!(rt; is_told(&book, NameKind::Whole, SectorPlace::Behind(20), &[]));
    Ok(())
}

/// A track holds names up to the 255th.
#[test]
fn more_names_than_a_record_has(rt: HostRuntime) -> Result<(), Fail> {
    let mut book = NameBook::new(rt.alloc())?;
    for number in 0..=254u8 {
        book.note_header(header(name(5, number), 0, Some(0)));
    }
    book.note_header(header(name(5, 7), 0, Some(0)));
    assert_eq!(rt; (book.count(), book.has_more()), (255, false));
    book.note_header(header(name(5, 255), 0, Some(0)));
    assert_eq!(rt; (book.count(), book.has_more()), (255, true));
    Ok(())
}

/// The names of a track: four of sectors of 128 bytes, of which one tells another cylinder and one lies before the
/// first index moment, and a bare one. Whole data of the first sector differ, those of the second are deleted, those of
/// the third are one byte, and the fourth has none.
fn note_names(book: &mut NameBook) {
    book.note_header(header(name(5, 4), 10, None));
    book.note_header(header(name(6, 2), 3100, Some(3000)));
    book.note_header(header(name(5, 3), 1100, Some(1000)));
    book.note_header(header(name(5, 1), 2100, Some(2000)));
    let mut bare = header(name(5, 9), 600, Some(500));
    bare.opens = false;
    book.note_header(bare);

    let mut held = [0xE5; 129];
    held[0] = 0xFB;
    book.note_data(name(5, 3), &held);
    book.note_data(name(5, 1), &held);
    held[0] = 0xF8;
    held[128] = 0;
    book.note_data(name(5, 1), &held);
    book.note_data(name(6, 2), &held);
}

const TRACK: TrackId = TrackId {
    cylinder: 5,
    head: 0,
};

/// Writes the record that is chosen for the track.
fn write_chosen(books: &TrackBooks, file: &mut MemorySink) -> Result<(), Failed> {
    let choice = choose(books);
    let book = books.book(choice.mode);
    let mut rows = ArrayVec::new();
    fill_rows(book, choice.code, &mut rows);
    write_record(TRACK, choice, book, rows.as_slice(), file)
}

/// The record: MFM of 250000 bits, the track with a map of cylinders, four sectors of 128 bytes; their numbers, as they
/// lie on the track, the one before the first index moment last; their cylinders. Then the sectors.
const BEGIN: [u8; 18] = [
    5, 5, 0x80, 4, 0, 3, 1, 2, 4, 5, 5, 6, 5, 2, 0xE5, 0, 3, 0xE5,
];

fn is_record(bytes: &[u8]) -> bool {
    bytes.len() == 146 && bytes.starts_with(&BEGIN) && bytes.ends_with(&[0xE5, 0, 0])
}

#[test]
fn a_record_as_imagedisk_has_it(rt: HostRuntime) -> Result<(), Fail> {
    let mut books = TrackBooks::new(rt.alloc())?;
    let mut file = MemorySink::new(rt.alloc(), 1000, Vec::new(rt.alloc()))?;
    note_names(&mut books.mfm250);
    assert!(rt; write_chosen(&books, &mut file).is_ok());
    assert!(rt; is_record(file.bytes()));
    Ok(())
}
