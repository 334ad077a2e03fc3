//! The sector numbers of a track by the heads that its headers name.

ghost use Rattle.std.specs.Prelude.{◌≡◌, ◌↔◌, ◌⊎◌, ◌≤◌, ℕ, true, length};
ghost use Rattle.flux_engine.specs.Gathering.{AreCellsOf};
ghost use Rattle.ibm_disks.specs.declared.sector_size.SectorSize.{SectorSize as Size};
ghost use Rattle.told_disks.specs.Names.{HasAny, has};
ghost use Rattle.told_disks.specs.declared.heads.NamedHeads.{NamedHeads};
ghost use Rattle.dump_numbers.specs.Sets.{IsSetOf};
ghost use Rattle.dump_numbers.specs.inside.Headed.{AreHeadNames, names_at};

use crate::names::track_names;
use crate::rates::disk_with_one;
use cell_bits::Cells;
use flux_base::TrackId;
use flux_engine::{CellReader, SharedStream};
use ibm_disks::{Rate, SectorSize};
use index_turns::TrackFlux;
use sector_images::Format;
use told_disks::{NameSet, has_any};

/// The sector numbers of a track's names with whole data: those that name the drive's head; the other one, of sizes of
/// which none names the drive's; and the first.
#[derive(Drop)]
pub(crate) struct HeadNames {
    pub own: NameSet,
    pub first: NameSet,
    pub changed: NameSet,
}

/// Those of a rate, as the sets of a stream's track. One that is passed over has none.
pub(crate) fn stream_names(rate: Rate, own: TrackId, stream: &mut SharedStream) -> HeadNames
    ensures sets { (heads : NamedHeads) → IsSetOf heads rate stream.old own (names_at result heads) }
    ensures stream { stream.new ≡ stream.old }
{
    let read = stream.read_cells(
        Format::Numbered(disk_with_one(rate, SectorSize::Bytes128)),
        TrackId {
            cylinder: 0,
            head: 0,
        },
        &NameReader { rate, own },
    );
    match read {
        Some(names) => names,
        None => HeadNames {
            own: NameSet::empty(),
            first: NameSet::empty(),
            changed: NameSet::empty(),
        },
    }
}

/// Reads the names of a rate in the cells that were recovered by it, as those of this track.
#[derive(Clone, Copy)]
struct NameReader {
    rate: Rate,
    own: TrackId,
}

impl CellReader<HeadNames> for NameReader {
    ghost use Rattle.dump_numbers.specs.inside.Headed.{AreHeadNames};

    ghost reads = { λ a times indexes cells names. AreHeadNames a.rate a.own times indexes cells names };

    fn read(&self, flux: &TrackFlux, cells: &Cells) -> HeadNames {
        head_names(self.rate, self.own, flux, cells)
    }
}

/// Those in the cells that were recovered by a rate.
fn head_names(rate: Rate, own: TrackId, flux: &TrackFlux, cells: &Cells) -> HeadNames
    requires turns { 2 ≤ length flux.now.indexes }
    requires cells { AreCellsOf flux.now.times cells.now.cells }
    ensures { AreHeadNames rate own flux.now.times flux.now.indexes cells.now.cells result }
{
    let names = track_names(rate, own, flux, cells);
    let changed = only_of(&names.own, &names.other);
    if own.head == 0 {
        HeadNames {
            own: names.own,
            first: names.own,
            changed,
        }
    } else {
        HeadNames {
            own: names.own,
            first: changed,
            changed,
        }
    }
}

/// The numbers of the other head's names, of those sizes of which the own head's have none.
fn only_of(own: &NameSet, other: &NameSet) -> NameSet
    ensures full { length result ≡ 1024 }
    ensures has { (size : Size) (number : ℕ) → (has result size number ≡ true)
        ↔ ((has other.now size number ≡ true) × (HasAny own.now size → ⊥)) }
{
    let mut only = NameSet::empty();
    add_only(SectorSize::Bytes128, own, other, &mut only);
    add_only(SectorSize::Bytes256, own, other, &mut only);
    add_only(SectorSize::Bytes512, own, other, &mut only);
    add_only(SectorSize::Bytes1024, own, other, &mut only);
    only
}

/// Adds those of a size.
fn add_only(size: SectorSize, own: &NameSet, other: &NameSet, only: &mut NameSet)
    ensures full { length only.new ≡ length only.old }
    ensures has { (s : Size) (number : ℕ) → (has only.new s number ≡ true)
        ↔ ((has only.old s number ≡ true)
        ⊎ ((s ≡ size) × (has other.now s number ≡ true) × (HasAny own.now s → ⊥))) }
{
    if !has_any(own, size) {
        add_all(size, other, only);
    }
}

/// Adds all numbers that a set has of a size.
fn add_all(size: SectorSize, from: &NameSet, to: &mut NameSet)
    ensures full { length to.new ≡ length to.old }
    ensures has { (s : Size) (number : ℕ) → (has to.new s number ≡ true)
        ↔ ((has to.old s number ≡ true) ⊎ ((s ≡ size) × (has from.now s number ≡ true))) }
{
    for number in 0..256u16 {
        if from.has(size, number as u8) {
            to.insert(size, number as u8);
        }
    }
}
