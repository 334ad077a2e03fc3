//! Verdicts of sectors, as their readings come, and what is told of other headers.
use flux_base::HeaderName;
use std::test::Fail;
use turn_merge::{Book, Clock, OtherTold, Others, Place, Verdict};

const FIRST: Place = Place {
    capture: 0,
    clock: Clock::Following,
    turn: 1,
    cell: 10,
};

fn place(turn: u32, cell: u64) -> Place {
    Place {
        capture: 0,
        clock: Clock::Following,
        turn,
        cell,
    }
}

#[test]
fn verdicts_as_readings_come(rt: HostRuntime) -> Result<(), Fail> {
    let mut book = Book::new(rt.alloc(), 1, 2, 2)?;
    book.note_bad(1, place(1, 5));
    let bad = Verdict::Bad {
        bad: 1,
        first: place(1, 5),
    };
    assert_eq!(rt; book.verdict(1), bad);
    assert!(rt; book.bytes(1).is_none());

    book.note_good(1, FIRST, &[1, 2]);
    let good = Verdict::Good {
        good: 1,
        bad: 1,
        first: FIRST,
    };
    assert_eq!(rt; book.verdict(1), good);

    book.note_good(1, place(2, 20), &[1, 2]);
    let twice = Verdict::Good {
        good: 2,
        bad: 1,
        first: FIRST,
    };
    assert_eq!(rt; book.verdict(1), twice);
    assert_eq!(rt; book.bytes(1), Some([1, 2].as_slice()));

    book.note_good(1, place(3, 30), &[1, 3]);
    let contradictory = Verdict::Contradictory {
        good: 3,
        bad: 1,
        first: FIRST,
        other: place(3, 30),
    };
    assert_eq!(rt; book.verdict(1), contradictory);
    assert!(rt; book.bytes(1).is_none());
    assert_eq!(rt; book.verdict(2), Verdict::Missing);
    Ok(())
}

#[test]
fn a_cleared_book_forgets(rt: HostRuntime) -> Result<(), Fail> {
    let mut book = Book::new(rt.alloc(), 0, 3, 1)?;
    book.note_good(2, FIRST, &[7]);
    book.clear(3);
    assert_eq!(rt; book.verdict(2), Verdict::Missing);
    book.note_good(2, place(4, 40), &[8]);
    assert_eq!(rt; book.bytes(2), Some([8].as_slice()));
    assert!(rt; book.bytes(0).is_none());
    Ok(())
}

/// The name of a sector of a track that is not the one at hand.
fn elsewhere(sector: u8) -> HeaderName {
    HeaderName::TrackSector { track: 9, sector }
}

// Sector 3 three times, once with whole data, and between them 65 other names: the first 64 names are told.
#[test]
fn others_as_they_come(rt: HostRuntime) -> Result<(), Fail> {
    let mut others = Others::new(rt.alloc())?;
    others.note(elsewhere(3), false, FIRST);
    for sector in 100..165 {
        others.note(elsewhere(sector), true, place(2, 20));
    }
    others.note(elsewhere(3), true, place(2, 21));
    others.note(elsewhere(3), false, place(2, 22));
    let third = OtherTold {
        name: elsewhere(3),
        headers: 3,
        whole: 1,
        first: FIRST,
    };
    let last = OtherTold {
        name: elsewhere(162),
        headers: 1,
        whole: 1,
        first: place(2, 20),
    };
    assert_eq!(rt; others.told().len(), 64);
    assert_eq!(rt; others.told()[0], third);
    assert_eq!(rt; others.told()[63], last);
    assert!(rt; others.has_untold());
    others.clear();
    assert!(rt; others.told().is_empty() && !others.has_untold());
    Ok(())
}

/// So many names without data and a header with data behind them, of this sector. Of which name it is: how many names
/// are told, how many of these have data, and whether data follow a name that is not told.
const BEHIND: [(u8, u8, (usize, usize, bool)); 5] = [
    (0, 0, (1, 1, false)),
    (63, 63, (64, 1, false)),
    (64, 64, (64, 0, true)),
    (70, 70, (64, 0, true)),
    // A second header of a name that is told.
    (70, 9, (64, 1, false)),
];

#[test]
fn data_behind_the_names_that_are_told(rt: HostRuntime) -> Result<(), Fail> {
    for (names, sector, known) in BEHIND {
        let mut others = Others::new(rt.alloc())?;
        for empty in 0..names {
            others.note(elsewhere(empty), false, FIRST);
        }
        assert!(rt; !others.has_untold());
        others.note(elsewhere(sector), true, FIRST);
        let told = others.told();
        let with_data = told.iter().filter(|name| name.has_data()).count();
        assert_eq!(rt; (told.len(), with_data, others.has_untold()), known);
    }
    Ok(())
}
