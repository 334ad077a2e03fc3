//! Work on a long list of bit cells, to be timed from outside. The input has two lines: about how many cells to
//! append, in runs of 2 to 4 cells as MFM has them, two runs to six cells, and how often to seek the MFM mark A1
//! through all of them. It stands nowhere: its runs are of 4, 3, 4 and 3 cells, and no two neighbours make six.
#![tactic(auto)]

use cell_bits::{Cells, MFM_A1_MARK};
use flux_base::Memory;
use std::io;

fn main(rt: HostRuntime) -> io::Result<()> {
    let mut wanted = [0usize; 2];
    for (number, line) in wanted.iter_mut().zip(rt.lines(rt.alloc())) {
        *number = line?.parse().unwrap_or(0);
    }
    let [length, searches] = wanted;
    let mut cells = Cells::new(rt.alloc());
    let built = append_runs(&mut cells, length / 6).is_ok();
    let mut found = 0usize;
    for _ in 0..searches {
        if cells.find_word(0, cells.len(), MFM_A1_MARK, 16).is_some() {
            found = found.wrapping_add(1);
        }
    }
    println!(rt;
        "all appended: {built}, cells: {}, found: {found}",
        cells.len()
    )
}

/// Appends so many pairs of runs, of 2, 3 or 4 cells by noise and of the other cells of six.
fn append_runs(cells: &mut Cells, pairs: usize) -> Result<(), Memory> {
    let mut noise = 1u32;
    for _ in 0..pairs {
        noise = noise.wrapping_mul(1_664_525).wrapping_add(1_013_904_223);
        let first = 2 + ((noise >> 16) % 3) as u8;
        cells.push_run(first)?;
        cells.push_run(6 - first)?;
    }
    Ok(())
}
