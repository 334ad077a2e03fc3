//! The cells that a clock recovered of one stream, kept for each place at which it started.

ghost use Rattle.std.specs.Prelude.{◌≡◌, ◌≢◌, ◌≤◌, ◌<◌, ◌*◌, ℕ, List, Some, IfOk, IfSome, get_or, length};
ghost use Rattle.cell_bits.specs.State.{room};
ghost use Rattle.phase_loop.specs.Start.{IsStart};
ghost use Rattle.sector_images.specs.Places.{IsTrack};
ghost use Rattle.flux_engine.specs.Reading.{IsBounded};
ghost use Rattle.flux_engine.specs.Recordings.{start_of};
ghost use Rattle.flux_engine.specs.Room.{MOST_CELLS};
ghost use Rattle.flux_engine.specs.SharedCells.{AreKept, AreRecovered, HoldsCells, HoldsIn};
ghost use Rattle.flux_engine.specs.declared.shared_cells.CellSlot.{CellSlot as Slot};

use crate::capture::{clock_start, recover_from};
use crate::room::MOST_CELLS;
use cell_bits::Cells;
use disk_recordings::{DiskId, controller_format, recording_of};
use flux_base::{Memory, TrackId};
use frame_law::Recording;
use index_turns::TrackFlux;
use phase_loop::{Band, Loop, LoopStart, recover_in_step};
use sector_images::Format;
use std::alloc::Global;
use turn_merge::Clock;

/// The most starts of one file, as a track of all disks that have names, of any steps, and of disks by numbers.
const MOST_STARTS: usize = 10;

/// The most transitions whose cells are kept for more than one start: six revolutions of a track of high density.
const FEW_TRANSITIONS: usize = 500_000;

/// The most cells of so few transitions: 2 MB.
const FEW_CELLS: usize = 32 * FEW_TRANSITIONS;

/// The most kinds of recordings whose headers are sought in the cells of one start: one for each crate of a recording.
const MOST_MARKS: usize = 6;

/// Cells that a clock recovered, and where it started.
#[derive(Drop)]
pub(crate) struct CellSlot {
    pub start: Option<LoopStart>,
    pub cells: Cells,
}

/// The cells that are kept of the stream that is read now, for each start of a clock in a slot of its own.
#[derive(Drop)]
pub(crate) struct SharedCells {
    pub clock: Loop,
    /// Follows cells that are kept, while others fall in step with them.
    pub follower: Loop,
    /// The first has room for the cells of any stream, each other for those of few transitions.
    pub slots: Vec<CellSlot>,
    /// So many of the first have cells of this stream.
    pub used: usize,
}

impl SharedCells {
    /// Takes all memory. No cells are kept.
    pub fn reserve(alloc: Global) -> Result<SharedCells, Memory>
        ensures { IfOk result (λ shared. (times : List ℕ) → AreKept shared.used shared.slots.items times) }
    {
        let clock = Loop::new(alloc)?;
        let follower = Loop::new(alloc)?;
        let mut slots = Vec::with_capacity(alloc, MOST_STARTS)?;
        slots.push_reserved(CellSlot::reserve(alloc, MOST_CELLS)?);
        for _number in 1..MOST_STARTS {
            slots.push_reserved(CellSlot::reserve(alloc, FEW_CELLS)?);
        }
        Ok(SharedCells {
            clock,
            follower,
            slots,
            used: 0,
        })
    }

    /// Forgets all cells: another stream is read.
    pub fn forget(&mut self)
        ensures { (before times : List ℕ) → AreKept self.old.used self.old.slots.items before
            → AreKept self.new.used self.new.slots.items times }
    {
        self.used = 0;
    }

    /// The slot that has the cells of a stream as this track. They are recovered, unless they are kept, and places at
    /// which headers of the format may begin are sought, unless those are.
    pub fn recover(&mut self, format: Format, track: TrackId, flux: &TrackFlux) -> usize
        requires track { IsTrack format track }
        requires bounded { IsBounded flux.now }
        requires kept { AreKept self.old.used self.old.slots.items flux.now.times }
        ensures slot { HoldsIn self.new.slots.items result (start_of format track flux.now.indexes) flux.now.times }
        ensures kept { AreKept self.new.used self.new.slots.items flux.now.times }
    {
        let slot = self.slot_with(clock_start(Clock::Following, format, track, flux), flux);
        let recording = recording_of(controller_format(format), DiskId::ANY);
        keep_marks(&recording, &mut self.slots[slot].cells);
        slot
    }

    /// The cells in a slot.
    pub fn cells(&self, slot: usize) -> &Cells
        requires { slot < length self.now.slots.items }
        ensures { (d : Slot) → result.now ≡ (get_or self.now.slots.items slot d).cells }
    {
        &self.slots[slot].cells
    }

    /// The slot that has the cells of a start. They are recovered, unless they are kept.
    fn slot_with(&mut self, start: LoopStart, flux: &TrackFlux) -> usize
        requires start { IsStart start }
        requires bounded { IsBounded flux.now }
        requires kept { AreKept self.old.used self.old.slots.items flux.now.times }
        ensures slot { HoldsIn self.new.slots.items result start flux.now.times }
        ensures kept { AreKept self.new.used self.new.slots.items flux.now.times }
    {
        match self.slot_of(start) {
            Some(slot) => slot,
            None => self.recover_anew(start, flux),
        }
    }

    /// The slot in which the cells of a start are kept, if they are.
    fn slot_of(&self, start: LoopStart) -> Option<usize>
        requires { self.now.used ≤ length self.now.slots.items }
        ensures { IfSome result (λ slot. (slot < self.now.used)
            × ((d : Slot) → (get_or self.now.slots.items slot d).start ≡ Some start)) }
    {
        for slot in 0..self.used {
            if self.slots[slot].start == Some(start) {
                return Some(slot);
            }
        }
        None
    }

    /// Recovers the cells of a start in the next slot, or in the first, whose cells are forgotten.
    fn recover_anew(&mut self, start: LoopStart, flux: &TrackFlux) -> usize
        requires start { IsStart start }
        requires bounded { IsBounded flux.now }
        requires kept { AreKept self.old.used self.old.slots.items flux.now.times }
        ensures slot { HoldsIn self.new.slots.items result start flux.now.times }
        ensures kept { AreKept self.new.used self.new.slots.items flux.now.times }
    {
        let slot = self.free_slot(flux.times().len());
        recover_slot(
            start,
            flux,
            slot,
            &mut self.slots,
            &mut self.clock,
            &mut self.follower,
        );
        if slot == self.used {
            self.used += 1;
        }
        slot
    }

    /// A slot with room for the cells of so many transitions: the next one, or the first.
    fn free_slot(&self, transitions: usize) -> usize
        requires many { transitions ≤ 4194304 }
        requires kept { (times : List ℕ) × AreKept self.now.used self.now.slots.items times }
        ensures within { result ≤ self.now.used }
        ensures some { result < length self.now.slots.items }
        ensures room { (d : Slot) → 32 * transitions ≤ room (get_or self.now.slots.items result d).cells }
    {
        if self.used == 0 {
            return 0;
        }
        if transitions <= FEW_TRANSITIONS && self.used < self.slots.len() {
            return self.used;
        }
        0
    }
}

impl CellSlot {
    /// Takes the memory for so many cells.
    fn reserve(alloc: Global, most: usize) -> Result<CellSlot, Memory>
        requires { most ≤ MOST_CELLS }
        ensures { IfOk result (λ slot. most ≤ room slot.cells) }
    {
        let mut cells = Cells::new(alloc);
        cells.reserve(most)?;
        cells.reserve_places(alloc, MOST_MARKS)?;
        Ok(CellSlot { start: None, cells })
    }

    /// Recovers the cells of a start, where those of others are known.
    fn recover(
        &mut self,
        start: LoopStart,
        flux: &TrackFlux,
        known: &[CellSlot],
        clock: &mut Loop,
        follower: &mut Loop,
    )
        requires start { IsStart start }
        requires bounded { IsBounded flux.now }
        requires known { (k : ℕ) (d : Slot) → k < length known.now
            → HoldsCells (get_or known.now k d).start flux.now.times (get_or known.now k d).cells.cells }
        requires room { 32 * length flux.now.times ≤ room self.old.cells }
        ensures holds { AreRecovered start flux.now.times self.new.cells.cells }
        ensures start { self.new.start ≡ Some start }
        ensures room { room self.old.cells ≤ room self.new.cells }
    {
        match slot_of_band(start.band, known) {
            Some((slot, near)) => recover_like(
                start,
                flux,
                near,
                &known[slot].cells,
                clock,
                follower,
                &mut self.cells,
            ),
            None => recover_from(start, flux, clock, &mut self.cells),
        }
        self.start = Some(start);
    }
}

/// Keeps the places in cells at which headers of a recording may begin, so that they are sought once for all formats
/// that have such.
fn keep_marks<R: Recording>(recording: &R, cells: &mut Cells)
    ensures { cells.new ≡ cells.old }
{
    cells.keep_places(recording.sync(), recording.sync_cells());
}

/// Recovers the cells of a start in a slot, where those in the slots before it are known.
fn recover_slot(
    start: LoopStart,
    flux: &TrackFlux,
    slot: usize,
    slots: &mut [CellSlot],
    clock: &mut Loop,
    follower: &mut Loop,
)
    requires start { IsStart start }
    requires bounded { IsBounded flux.now }
    requires slot { slot < length slots.old }
    requires known { (k : ℕ) (d : Slot) → k < slot
        → HoldsCells (get_or slots.old k d).start flux.now.times (get_or slots.old k d).cells.cells }
    requires room { (d : Slot) → 32 * length flux.now.times ≤ room (get_or slots.old slot d).cells }
    ensures many { length slots.new ≡ length slots.old }
    ensures others { (k : ℕ) (d : Slot) → k ≢ slot → get_or slots.new k d ≡ get_or slots.old k d }
    ensures start { (d : Slot) → (get_or slots.new slot d).start ≡ Some start }
    ensures cells { (d : Slot) → AreRecovered start flux.now.times (get_or slots.new slot d).cells.cells }
    ensures room { (d : Slot) → room (get_or slots.old slot d).cells ≤ room (get_or slots.new slot d).cells }
{
    let (known, free) = slots.split_at_mut(slot);
    free[0].recover(start, flux, known, clock, follower);
}

/// The first slot whose cells were recovered in a band, and where their clock started, if there is one.
fn slot_of_band(band: Band, slots: &[CellSlot]) -> Option<(usize, LoopStart)>
    ensures { IfSome result (λ found. (found.0 < length slots.now)
        × ((d : Slot) → (get_or slots.now found.0 d).start ≡ Some found.1)) }
{
    for slot in 0..slots.len() {
        if let Some(start) = slots[slot].start {
            if start.band == band {
                return Some((slot, start));
            }
        }
    }
    None
}

/// Recovers the cells of a start where those of another are known, with which they fall in step.
fn recover_like(
    start: LoopStart,
    flux: &TrackFlux,
    known: LoopStart,
    known_cells: &Cells,
    clock: &mut Loop,
    follower: &mut Loop,
    cells: &mut Cells,
)
    requires start { IsStart start }
    requires bounded { IsBounded flux.now }
    requires known { AreRecovered known flux.now.times known_cells.now.cells }
    requires room { 32 * length flux.now.times ≤ room cells.old }
    ensures recovered { AreRecovered start flux.now.times cells.new.cells }
    ensures room { room cells.old ≤ room cells.new }
{
    match recover_in_step(flux, start, clock, cells, known, follower, known_cells) {
        Ok(()) => {}
        // There is room for 32 cells of each transition.
        Err(_) => unreachable!(),
    }
}
