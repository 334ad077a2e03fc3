//! Lists of cells.
ghost use Rattle.std.specs.Prelude.{All, IfOk};
ghost use Rattle.cell_bits.specs.Run.{IsRun};

use cell_bits::Cells;
use flux_base::Memory;
use std::alloc::Global;
use std::test::Fail;

/// A list of zeros, at most 64.
fn zeros(alloc: Global, count: u8) -> Result<Cells, Memory> {
    let mut cells = Cells::new(alloc);
    for _ in 0..count {
        cells.push_cell(false)?;
    }
    Ok(cells)
}

/// So many runs, of one to four cells where all are short, else of one to 32.
fn runs(alloc: Global, length: usize, short: bool) -> Result<Vec<u8>, Memory>
    ensures { IfOk result (λ counts. All IsRun counts.items) }
{
    let mut noise = 1u32;
    let mut counts = Vec::new(alloc);
    for _ in 0..length {
        noise = noise.wrapping_mul(1_664_525).wrapping_add(1_013_904_223);
        let count = if short { noise >> 30 } else { noise >> 27 };
        counts.push(1 + count as u8)?;
    }
    Ok(counts)
}

/// The search of `find_word`, place by place and cell by cell.
fn first_by_cells(cells: &Cells, from: usize, to: usize, word: u32, count: u8) -> Option<usize> {
    for place in from..to {
        let mut stands = true;
        for offset in 0..count.min(32) {
            let wanted = (word >> (count.min(32) - 1 - offset)) & 1 == 1;
            let at = place.checked_add(offset as usize);
            stands = stands && at.is_some_and(|at| at < cells.len() && cells.cell(at) == wanted);
        }
        if stands {
            return Some(place);
        }
    }
    None
}

#[test]
fn reads_across_the_border_of_a_word(rt: HostRuntime) -> Result<(), Fail> {
    let mut cells = Cells::new(rt.alloc());
    cells.reserve(200)?;
    for place in 0..200 {
        cells.push_cell(matches!(place, 63 | 64 | 127 | 128))?;
    }
    assert_eq!(rt; cells.len(), 200);
    assert_eq!(rt; cells.word_at(62, 4), 6);
    assert_eq!(rt; cells.find_word(0, 200, 3, 2), Some(63));
    assert_eq!(rt; cells.find_word(64, 200, 3, 2), Some(127));
    assert_eq!(rt; cells.find_word(128, 200, 3, 2), None);
    assert!(rt; cells.unbroken(65, 72));
    assert!(rt; !cells.unbroken(65, 73));
    assert_eq!(rt; cells.ones_between(0, 128), 3);
    assert_eq!(rt; cells.ones_between(64, 128), 2);
    cells.reserve_places(rt.alloc(), 1)?;
    cells.keep_places(3, 2);
    assert_eq!(rt; cells.find_word(64, 200, 3, 2), Some(127));
    cells.push_word(3, 2)?;
    assert_eq!(rt; cells.find_word(128, 202, 3, 2), Some(200));
    cells.clear();
    assert_eq!(rt; cells.len(), 0);
    Ok(())
}

#[test]
fn pushes_across_the_border_of_a_word(rt: HostRuntime) -> Result<(), Fail> {
    let mut cells = zeros(rt.alloc(), 60)?;
    cells.push_word(0x1234_5678, 32)?;
    cells.push_run(7)?;
    cells.push_fm(0xFE)?;
    cells.push_cell(true)?;
    cells.push_mfm(0x4E)?;
    cells.push_mfm(0xA1)?;
    assert_eq!(rt; cells.len(), 148);
    assert_eq!(rt; cells.word_at(60, 32), 0x1234_5678);
    assert_eq!(rt; cells.word_at(92, 7), 1);
    assert_eq!(rt; cells.word_at(99, 16), 0xFFFE);
    assert_eq!(rt; cells.data_byte_at(99), 0xFE);
    assert!(rt; cells.cell(115));
    assert_eq!(rt; cells.word_at(116, 16), 0x1254);
    assert_eq!(rt; cells.data_byte_at(116), 0x4E);
    assert_eq!(rt; cells.word_at(132, 16), 0x44A9);
    assert_eq!(rt; cells.data_bytes_at(84), [0xC1, 0xFF, 0x4E, 0xA1]);
    Ok(())
}

#[test]
fn each_push_crosses_the_border(rt: HostRuntime) -> Result<(), Fail> {
    let mut run = zeros(rt.alloc(), 60)?;
    run.push_run(32)?;
    assert_eq!(rt; run.len(), 92);
    assert_eq!(rt; run.word_at(60, 32), 1);

    let mut fm = zeros(rt.alloc(), 50)?;
    fm.push_fm(0xA1)?;
    assert_eq!(rt; fm.len(), 66);
    assert_eq!(rt; fm.word_at(50, 16), 0xEEAB);

    let mut mfm = zeros(rt.alloc(), 63)?;
    mfm.push_mfm(0x4E)?;
    assert_eq!(rt; mfm.len(), 79);
    assert_eq!(rt; mfm.word_at(63, 16), 0x9254);

    let mut first = Cells::new(rt.alloc());
    first.push_mfm(0)?;
    assert_eq!(rt; first.len(), 16);
    assert_eq!(rt; first.word_at(0, 16), 0xAAAA);
    Ok(())
}

/// Whether these runs appended together behind so many zeros are those appended one after another.
fn are_one_after_another(alloc: Global, before: u8, counts: &[u8]) -> Result<bool, Memory>
    requires { All IsRun counts.now }
{
    let mut together = zeros(alloc, before)?;
    let mut apart = zeros(alloc, before)?;
    together.push_runs(counts)?;
    for place in 0..counts.len() {
        apart.push_run(counts[place])?;
    }
    let mut same = together.len() == apart.len();
    for place in 0..apart.len().min(together.len()) {
        same = same && together.cell(place) == apart.cell(place);
    }
    Ok(same)
}

#[test]
fn runs_are_appended_one_after_another(rt: HostRuntime) -> Result<(), Fail> {
    for length in [0usize, 1, 7, 8, 9, 16, 23, 200, 255, 256, 300] {
        for short in [true, false] {
            let counts = runs(rt.alloc(), length, short)?;
            for before in [0u8, 1, 32, 63] {
                assert!(rt; are_one_after_another(rt.alloc(), before, &counts)?);
            }
        }
    }
    Ok(())
}

#[test]
fn finds_what_a_plain_search_finds(rt: HostRuntime) -> Result<(), Fail> {
    let mut noise = 1u32;
    for length in [0usize, 1, 15, 16, 63, 64, 65, 127, 130, 200] {
        let mut cells = Cells::new(rt.alloc());
        for _ in 0..length {
            noise = noise.wrapping_mul(1_664_525).wrapping_add(1_013_904_223);
            cells.push_cell(noise >= 1 << 31)?;
        }
        for count in [1u8, 2, 5, 8, 31, 32] {
            for from in [0usize, 1, 63, 64, 100] {
                for word in [0u32, 1, 2, 0x15, noise, u32::MAX] {
                    let found = cells.find_word(from, 180, word, count);
                    assert_eq!(rt;
                        found,
                        first_by_cells(&cells, from, 180, word, count),
                        "{word:x} of {count} from {from} of {length}"
                    );
                }
            }
        }
    }
    Ok(())
}

#[test]
fn finds_each_one_that_a_plain_search_finds(rt: HostRuntime) -> Result<(), Fail> {
    let mut noise = 1u32;
    for length in [0usize, 1, 63, 64, 65, 130, 320] {
        for chance in [0u32, 600, 20_000, 65_535] {
            let mut cells = Cells::new(rt.alloc());
            for _ in 0..length {
                noise = noise.wrapping_mul(1_664_525).wrapping_add(1_013_904_223);
                cells.push_cell(noise >> 16 <= chance)?;
            }
            for from in [0usize, 1, 62, 63, 64, 127, 128, 300, 400] {
                for to in [0usize, 1, 63, 64, 65, 129, 200, 320, 500] {
                    assert_eq!(rt;
                        cells.find_one(from, to),
                        first_by_cells(&cells, from, to, 1, 1),
                        "from {from} to {to} of {length}"
                    );
                }
            }
        }
    }
    Ok(())
}

// Of 200 cells the last is the only one, in the cells after the last whole word.
#[test]
fn finds_a_one_after_words_of_zeros(rt: HostRuntime) -> Result<(), Fail> {
    let mut cells = Cells::new(rt.alloc());
    for place in 0..200 {
        cells.push_cell(place == 199)?;
    }
    assert_eq!(rt; cells.find_one(0, usize::MAX), Some(199));
    assert_eq!(rt; cells.find_one(199, 200), Some(199));
    assert_eq!(rt; cells.find_one(0, 199), None);
    assert_eq!(rt; cells.find_one(200, usize::MAX), None);
    assert_eq!(rt; cells.find_one(usize::MAX, usize::MAX), None);
    Ok(())
}
