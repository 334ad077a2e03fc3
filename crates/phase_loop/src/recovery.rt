//! From a track's transitions to its cells.
ghost use Rattle.std.specs.Prelude.{◌≡◌, ℕ, ◌*◌, ◌^◌, ◌<◌, ◌≤◌, [], length, All, OnOk, OnErr, IsOk};
ghost use Rattle.std.specs.List.Sorted.{IsNonDecreasing};
ghost use Rattle.cell_bits.specs.State.{room};
ghost use Rattle.phase_loop.specs.Start.{HasWholeBand, INTERVALS, IsHeld, IsStart};
ghost use Rattle.phase_loop.specs.Rows.{recovered};
ghost use Rattle.phase_loop.specs.State.{Holds};
ghost use Rattle.phase_loop.specs.Pieces.{FollowsRing, FollowsPieces, FollowsSteadyRing, FollowsSteadyPieces};

use crate::phase::Loop;
use crate::start::LoopStart;
use cell_bits::Cells;
use flux_base::Memory;
use index_turns::TrackFlux;

/// Makes `cells` the cells of a track: a one for its first transition and, for each later one, the zeros and
/// the one of its count. Times are at most 2^39 ticks. `bench` is the loop that does the work; what it holds
/// before does not matter, and its window stays bounded. After `Memory` there are no cells.
///
/// Where the period may follow the drive through the whole band, and the times carry a ring within the bounds of
/// disturbance, the cells are the ring's; where they carry it in pieces, those of the pieces. So it is too where the
/// period is held and the drive keeps its speed.
pub fn recover(
    flux: &TrackFlux,
    start: LoopStart,
    bench: &mut Loop,
    cells: &mut Cells,
) -> Result<(), Memory>
    requires start { IsStart start }
    requires times { All (λ time. time ≤ 2 ^ 39) flux.now.times }
    ensures ok { OnOk result (cells.new.cells ≡ recovered start flux.now.times) }
    ensures ring { OnOk result
        (HasWholeBand start → FollowsRing start.nominal start.first flux.now.times cells.new.cells) }
    ensures pieces { OnOk result
        (HasWholeBand start → FollowsPieces start.nominal start.first flux.now.times cells.new.cells) }
    ensures steady_ring { OnOk result
        (IsHeld start → FollowsSteadyRing start.nominal start.first flux.now.times cells.new.cells) }
    ensures steady_pieces { OnOk result
        (IsHeld start → FollowsSteadyPieces start.nominal start.first flux.now.times cells.new.cells) }
    ensures err { OnErr result (cells.new.cells ≡ []) }
    ensures window { length bench.new.recent ≤ INTERVALS }
    ensures room { room cells.old ≤ room cells.new }
    ensures succeeds { 32 * length flux.now.times ≤ room cells.old → IsOk result }
{
    cells.clear();
    let result = append_cells(flux.times(), start, bench, cells);
    if result.is_err() {
        cells.clear();
    }
    result
}

/// Appends the cells of these times to a list that is empty. The loop starts anew even where there is no time.
pub(crate) fn append_cells(
    times: &[u64],
    start: LoopStart,
    bench: &mut Loop,
    cells: &mut Cells,
) -> Result<(), Memory>
    requires start { IsStart start }
    requires rising { IsNonDecreasing times.now }
    requires within { All (λ time. time ≤ 2 ^ 39) times.now }
    requires empty { cells.old.cells ≡ [] }
    ensures ok { OnOk result (cells.new.cells ≡ recovered start times.now) }
    ensures holds { OnOk result (0 < length times.now → Holds bench.new start times.now) }
    ensures short { OnOk result (length cells.new.cells ≤ 32 * length times.now) }
    ensures window { length bench.new.recent ≤ INTERVALS }
    ensures room { room cells.old ≤ room cells.new }
    ensures succeeds { 32 * length times.now ≤ room cells.old → IsOk result }
{
    let Some((first, _)) = times.split_first() else {
        bench.start(start, 0);
        return Ok(());
    };
    bench.start(start, *first);
    cells.push_cell(true)?;
    let mut last = 0;
    while last + 1 < times.len() {
        last = bench.follow(times, last, cells)?;
        if last + 1 < times.len() {
            last += 1;
            cells.push_run(bench.step(times[last]))?;
        }
    }
    Ok(())
}
