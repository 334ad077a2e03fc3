//! Clocks that fall in step. Two loops of one band come to one place, one period and one window as a rule after some
//! hundred transitions, wherever they started, since each transition halves what their places differ by.
ghost use Rattle.std.specs.Prelude.{◌≡◌, ◌*◌, ◌^◌, ◌≤◌, [], All, IfOk, IsOk, IsTrue, OnErr, OnOk, false, length};
ghost use Rattle.std.specs.List.Sorted.{IsNonDecreasing};
ghost use Rattle.cell_bits.specs.Search.{StandsNowhere};
ghost use Rattle.cell_bits.specs.State.{room};
ghost use Rattle.phase_loop.specs.Rows.{recovered};
ghost use Rattle.phase_loop.specs.Start.{IsStart};

use crate::phase::Loop;
use crate::recovery::{append_cells, recover};
use crate::start::LoopStart;
use cell_bits::Cells;
use flux_base::Memory;
use index_turns::TrackFlux;

/// How many transitions two clocks are followed, before they are looked at.
const MEETING: usize = 2048;

/// What ends a run of 32 cells, at which a loop may have started anew: 31 zeros and a one.
const LONGEST_RUN: u32 = 1;

const LONGEST: u8 = 32;

/// Recovers the cells of a track as `recover` does, where those by another start are known: from where both clocks have
/// fallen in step the cells are the same, and are copied. Where they have not they are recovered.
pub fn recover_in_step(
    flux: &TrackFlux,
    start: LoopStart,
    bench: &mut Loop,
    cells: &mut Cells,
    known: LoopStart,
    follower: &mut Loop,
    known_cells: &Cells,
) -> Result<(), Memory>
    requires start { IsStart start }
    requires known { IsStart known }
    requires times { All (λ time. time ≤ 2 ^ 39) flux.now.times }
    requires cells { known_cells.now.cells ≡ recovered known flux.now.times }
    ensures ok { OnOk result (cells.new.cells ≡ recovered start flux.now.times) }
    ensures err { OnErr result (cells.new.cells ≡ []) }
    ensures room { room cells.old ≤ room cells.new }
    ensures succeeds { 32 * length flux.now.times ≤ room cells.old → IsOk result }
{
    match follow_both(
        flux.times(),
        start,
        bench,
        cells,
        known,
        follower,
        known_cells,
    ) {
        Ok(true) => Ok(()),
        Ok(false) => recover(flux, start, bench, cells),
        Err(memory) => {
            cells.clear();
            Err(memory)
        }
    }
}

/// Follows both clocks from the begin, and where they have fallen in step puts all cells. Whether they have.
fn follow_both(
    times: &[u64],
    start: LoopStart,
    bench: &mut Loop,
    cells: &mut Cells,
    known: LoopStart,
    follower: &mut Loop,
    known_cells: &Cells,
) -> Result<bool, Memory>
    requires start { IsStart start }
    requires known { IsStart known }
    requires rising { IsNonDecreasing times.now }
    requires within { All (λ time. time ≤ 2 ^ 39) times.now }
    requires cells { known_cells.now.cells ≡ recovered known times.now }
    ensures met { IfOk result (λ met. IsTrue met → cells.new.cells ≡ recovered start times.now) }
    ensures room { room cells.old ≤ room cells.new }
    ensures succeeds { 32 * length times.now ≤ room cells.old → IsOk result }
{
    cells.clear();
    if times.len() <= MEETING {
        return Ok(false);
    }
    let (front, _) = times.split_at(MEETING);
    append_cells(front, known, follower, cells)?;
    let behind = cells.len();
    cells.clear();
    append_cells(front, start, bench, cells)?;
    if !follower.stands_like(bench) || has_longest_run(known_cells, behind) {
        return Ok(false);
    }
    cells.append_from(known_cells, behind)?;
    Ok(true)
}

/// Whether a run of 32 cells stands from a place on. Nowhere else a loop can have started anew.
fn has_longest_run(cells: &Cells, from: usize) -> bool
    ensures { result ≡ false → StandsNowhere cells.now.cells 1 32 from (length cells.now.cells) }
{
    cells
        .find_word(from, cells.len(), LONGEST_RUN, LONGEST)
        .is_some()
}
