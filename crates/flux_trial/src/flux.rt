ghost use Rattle.std.specs.Prelude.{◌≡◌, ◌<◌, ◌≤◌, ◌+◌, ◌-◌, ◌*◌, ◌/◌, ◌++◌, [], ◌∷◌, All, length, IfOk, OnOk, OnErr};
ghost use Rattle.std.specs.Prelude.{IsOk};
ghost use Rattle.index_turns.specs.Track.{KeepsRoom, room_of_indexes, room_of_times};
ghost use Rattle.flux_trial.specs.Times.{IsTrialRing, trial_indexes, trial_times};
ghost use Rattle.flux_trial.specs.inside.Heads.{AreBefore, FitsRing, IsHole, IsSound, MOST_CELLS, OnRing, passed_all};
ghost use Rattle.flux_trial.specs.inside.Heads.{reach, seen_time, seen_times};
ghost use Rattle.flux_trial.specs.inside.Turning.{HasTurned};
ghost use Rattle.flux_writer.specs.lemmas.FoundOnes.{ones_between};

use crate::head::Head;
use crate::hole::Hole;
use cell_bits::Cells;
use flux_base::Memory;
use index_turns::TrackFlux;

/// Fills `flux` with what a drive gives of a ring, which is made up from a number and the track's: the times of the
/// transitions and the index times, in ticks, of the ring's last quarter, three turns and its first quarter. The
/// nominal cell is in fine units of 1/1024 tick.
///
/// After `Memory` the track is empty. It cannot come where `flux` has room for four times for each of the ring's
/// cells and for four index times.
pub fn trial_flux(
    ring: &Cells,
    nominal: u32,
    seed: u32,
    track: u32,
    flux: &mut TrackFlux,
) -> Result<(), Memory>
    requires least { 16384 ≤ nominal }
    requires most { nominal ≤ 131072 }
    requires ring { IsTrialRing ring.now.cells }
    ensures times { OnOk result
        (flux.new.times ≡ trial_times (record { seed = seed; track = track; nominal = nominal }) ring.now.cells) }
    ensures indexes { OnOk result
        (flux.new.indexes ≡ trial_indexes (record { seed = seed; track = track; nominal = nominal }) ring.now.cells) }
    ensures no_times { OnErr result (flux.new.times ≡ []) }
    ensures no_indexes { OnErr result (flux.new.indexes ≡ []) }
    ensures succeeds { 4 * length ring.now.cells ≤ room_of_times flux.old → 4 ≤ room_of_indexes flux.old → IsOk result }
    ensures room { KeepsRoom flux.old flux.new }
{
    flux.clear();
    match turn_over(ring, nominal, seed, track, flux) {
        Ok(()) => Ok(()),
        Err(memory) => {
            flux.clear();
            Err(memory)
        }
    }
}

/// Turns over a ring: its last quarter, three turns and its first quarter pass.
fn turn_over(
    ring: &Cells,
    nominal: u32,
    seed: u32,
    track: u32,
    flux: &mut TrackFlux,
) -> Result<(), Memory>
    requires least { 16384 ≤ nominal }
    requires most { nominal ≤ 131072 }
    requires ring { IsTrialRing ring.now.cells }
    requires no_times { flux.old.times ≡ [] }
    requires no_indexes { flux.old.indexes ≡ [] }
    ensures times { OnOk result
        (flux.new.times ≡ trial_times (record { seed = seed; track = track; nominal = nominal }) ring.now.cells) }
    ensures indexes { OnOk result
        (flux.new.indexes ≡ trial_indexes (record { seed = seed; track = track; nominal = nominal }) ring.now.cells) }
    ensures succeeds { 4 * length ring.now.cells ≤ flux.old.spare_times → 4 ≤ flux.old.spare_indexes → IsOk result }
    ensures room { KeepsRoom flux.old flux.new }
{
    let cells = ring.len();
    let quarter = cells / 4;
    let hole = Hole::of(seed, cells);
    let mut head = match begin(ring, nominal, seed, track, &hole, flux) {
        Ok(head) => head,
        Err(memory) => return Err(memory),
    };
    for turn in 0..3usize {
        let whole = Part {
            from: 0,
            to: cells,
            number: (quarter + turn * cells) as u64,
        };
        match walk_to_index(&mut head, &hole, ring, whole, flux) {
            Ok(()) => {}
            Err(memory) => return Err(memory),
        }
    }
    let first_quarter = Part {
        from: 0,
        to: quarter,
        number: (quarter + 3 * cells) as u64,
    };
    walk(&mut head, &hole, ring, first_quarter, flux)
}

/// Lets a ring's last quarter pass, up to the first index.
fn begin(
    ring: &Cells,
    nominal: u32,
    seed: u32,
    track: u32,
    hole: &Hole,
    flux: &mut TrackFlux,
) -> Result<Head, Memory>
    requires least { 16384 ≤ nominal }
    requires most { nominal ≤ 131072 }
    requires ring { IsTrialRing ring.now.cells }
    requires hole { IsHole seed (length ring.now.cells) hole.now }
    requires fits { FitsRing hole.now }
    requires no_times { flux.old.times ≡ [] }
    requires no_indexes { flux.old.indexes ≡ [] }
    ensures turned { IfOk result
        (λ head.
        HasTurned (record { seed = seed; track = track; nominal = nominal }) ring.now.cells 0 head flux.new.times
        flux.new.indexes) }
    ensures spare { OnOk result (flux.old.spare_times ≤ flux.new.spare_times + length ring.now.cells / 4) }
    ensures spare_indexes { OnOk result (flux.old.spare_indexes ≤ flux.new.spare_indexes + 1) }
    ensures succeeds { length ring.now.cells / 4 ≤ flux.old.spare_times → 1 ≤ flux.old.spare_indexes → IsOk result }
    ensures room { KeepsRoom flux.old flux.new }
{
    let cells = ring.len();
    let start = cells - cells / 4;
    let first = match ring.find_one(start, cells) {
        Some(first) => first,
        // There is a one among any four cells.
        None => unreachable!(),
    };
    let number = (first - start) as u64;
    let mut head = Head::start(nominal, seed, track, number);
    match note(&head, hole, first, flux) {
        Ok(()) => {}
        Err(memory) => return Err(memory),
    }
    let rest = Part {
        from: first + 1,
        to: cells,
        number: number + 1,
    };
    match walk_to_index(&mut head, hole, ring, rest, flux) {
        Ok(()) => Ok(head),
        Err(memory) => Err(memory),
    }
}

/// Cells of a ring, from one place to below another, of which the first is written as cell `number`.
#[derive(Clone, Copy, Drop)]
struct Part {
    from: usize,
    to: usize,
    number: u64,
}

/// Lets the ones of some cells pass, as `walk` does, and then notes the index time of the cell after them.
fn walk_to_index(
    head: &mut Head,
    hole: &Hole,
    ring: &Cells,
    part: Part,
    flux: &mut TrackFlux,
) -> Result<(), Memory>
    requires sound { IsSound head.old }
    requires fits { FitsRing hole.now }
    requires small { hole.now.ring < MOST_CELLS }
    requires ring { hole.now.ring ≡ length ring.now.cells }
    requires order { part.from ≤ part.to }
    requires within { part.to ≤ length ring.now.cells }
    requires later { head.old.cell < part.number }
    requires few { part.number + (part.to - part.from) < MOST_CELLS }
    requires place { OnRing hole.now.ring part.from part.number }
    requires before { AreBefore head.old flux.old.times }
    requires early { All (λ time. 1024 * (time + 1) ≤ reach head.old part.number + 1024 * (part.to - part.from))
        flux.old.indexes }
    ensures head { OnOk result
        (head.new ≡ passed_all head.old (ones_between ring.now.cells part.from part.to part.number)) }
    ensures times { OnOk result (flux.new.times ≡ flux.old.times
        ++ seen_times hole.now head.old (ones_between ring.now.cells part.from part.to part.number)) }
    ensures indexes { OnOk result
        (flux.new.indexes ≡ flux.old.indexes ++ (reach head.new (part.number + (part.to - part.from)) / 1024) ∷ []) }
    ensures sound { IsSound head.new }
    ensures later { OnOk result (head.new.cell < part.number + (part.to - part.from)) }
    ensures before { AreBefore head.new flux.new.times }
    ensures early { OnOk result
        (All (λ time. 1024 * time ≤ reach head.new (part.number + (part.to - part.from))) flux.new.indexes) }
    ensures room { KeepsRoom flux.old flux.new }
    ensures spare { OnOk result (flux.old.spare_times ≤ flux.new.spare_times + (part.to - part.from)) }
    ensures spare_indexes { OnOk result (flux.old.spare_indexes ≤ flux.new.spare_indexes + 1) }
    ensures succeeds { part.to - part.from ≤ flux.old.spare_times → 1 ≤ flux.old.spare_indexes → IsOk result }
{
    match walk(head, hole, ring, part, flux) {
        Ok(()) => flux.push_index(head.index_time(part.number + (part.to - part.from) as u64)),
        Err(memory) => Err(memory),
    }
}

/// Lets the ones of some cells pass, and notes the times of those that are seen.
fn walk(
    head: &mut Head,
    hole: &Hole,
    ring: &Cells,
    part: Part,
    flux: &mut TrackFlux,
) -> Result<(), Memory>
    requires sound { IsSound head.old }
    requires fits { FitsRing hole.now }
    requires small { hole.now.ring < MOST_CELLS }
    requires ring { hole.now.ring ≡ length ring.now.cells }
    requires order { part.from ≤ part.to }
    requires within { part.to ≤ length ring.now.cells }
    requires later { head.old.cell < part.number }
    requires few { part.number + (part.to - part.from) ≤ MOST_CELLS }
    requires place { OnRing hole.now.ring part.from part.number }
    requires before { AreBefore head.old flux.old.times }
    ensures head { OnOk result
        (head.new ≡ passed_all head.old (ones_between ring.now.cells part.from part.to part.number)) }
    ensures times { OnOk result (flux.new.times ≡ flux.old.times
        ++ seen_times hole.now head.old (ones_between ring.now.cells part.from part.to part.number)) }
    ensures indexes { flux.new.indexes ≡ flux.old.indexes }
    ensures sound { IsSound head.new }
    ensures later { OnOk result (head.new.cell < part.number + (part.to - part.from)) }
    ensures before { AreBefore head.new flux.new.times }
    ensures reach { OnOk result (reach head.old part.number + 1024 * (part.to - part.from)
        ≤ reach head.new (part.number + (part.to - part.from))) }
    ensures room { KeepsRoom flux.old flux.new }
    ensures spare { OnOk result (flux.old.spare_times ≤ flux.new.spare_times + (part.to - part.from)) }
    ensures spare_indexes { flux.new.spare_indexes ≡ flux.old.spare_indexes }
    ensures succeeds { part.to - part.from ≤ flux.old.spare_times → IsOk result }
{
    let mut place = part.from;
    while let Some(one) = ring.find_one(place, part.to) {
        head.pass(part.number + (one - part.from) as u64);
        match note(head, hole, one, flux) {
            Ok(()) => place = one + 1,
            Err(memory) => return Err(memory),
        }
    }
    Ok(())
}

/// Notes the time of the transition at a cell of the ring, if it is seen.
#[inline]
fn note(head: &Head, hole: &Hole, cell: usize, flux: &mut TrackFlux) -> Result<(), Memory>
    requires sound { IsSound head.now }
    requires fits { FitsRing hole.now }
    requires small { hole.now.ring < MOST_CELLS }
    requires within { cell < hole.now.ring }
    requires before { All (λ time. 1024 * time + head.now.most_way ≤ head.now.ideal) flux.old.times }
    ensures times { OnOk result (flux.new.times ≡ flux.old.times ++ seen_time hole.now cell head.now) }
    ensures err { OnErr result (flux.new ≡ flux.old) }
    ensures indexes { flux.new.indexes ≡ flux.old.indexes }
    ensures before { AreBefore head.now flux.new.times }
    ensures room { KeepsRoom flux.old flux.new }
    ensures spare { OnOk result (flux.old.spare_times ≤ flux.new.spare_times + 1) }
    ensures spare_indexes { flux.new.spare_indexes ≡ flux.old.spare_indexes }
    ensures succeeds { 1 ≤ flux.old.spare_times → IsOk result }
{
    if hole.contains(cell) {
        Ok(())
    } else {
        flux.push_time(head.time())
    }
}
