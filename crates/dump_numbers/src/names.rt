//! The sector numbers of a track's own names that have whole data.

ghost use Rattle.std.specs.Prelude.{◌≡◌, ◌≢◌, ◌↔◌, ◌<◌, ◌≤◌, ℕ, true, drop, length, IsTrue};
ghost use Rattle.std.specs.Prelude.{IfNone, IfSome};
ghost use Rattle.flux_base.specs.declared.header_name.HeaderName.TheVariants.{Address as AddressOf};
ghost use Rattle.flux_engine.specs.Gathering.{AreCellsOf};
ghost use Rattle.ibm_disks.specs.Numbers.{code_of};
ghost use Rattle.ibm_disks.specs.declared.sector_size.SectorSize.{SectorSize as Size};
ghost use Rattle.told_disks.specs.Names.{has};
ghost use Rattle.dump_numbers.specs.OwnNames.{HasDataOf, HasName, HasWholeAt, other_head};
ghost use Rattle.dump_numbers.specs.inside.Header.{IsFound};
ghost use Rattle.dump_numbers.specs.inside.Walked.{AddsName};

use crate::header::FoundHeader;
use crate::rates::recording_with_one;
use crate::turn_rule::is_of_rate;
use cell_bits::Cells;
use disk_recordings::headers_have_names;
use flux_base::{HeaderName, TrackId};
use flux_engine::next_name;
use frame_law::{Recording, SectorBuffer};
use ibm_disks::{Rate, SectorSize};
use index_turns::TrackFlux;
use told_disks::NameSet;

/// The sector numbers, by their sizes, of a track's names that have whole data.
#[derive(Drop)]
pub(crate) struct TrackNames {
    /// Of those that tell the track's cylinder and head.
    pub own: NameSet,
    /// Of those that tell its cylinder and the other head.
    pub other: NameSet,
}

/// The names with whole data of the rate, in the cells that were recovered by it.
pub(crate) fn track_names(rate: Rate, own: TrackId, flux: &TrackFlux, cells: &Cells) -> TrackNames
    requires turns { 2 ≤ length flux.now.indexes }
    requires cells { AreCellsOf flux.now.times cells.now.cells }
    ensures full { (length result.own ≡ 1024) × (length result.other ≡ 1024) }
    ensures own { (size : Size) (number : ℕ) → (has result.own size number ≡ true)
        ↔ HasName rate own flux.now.times flux.now.indexes cells.now.cells size number }
    ensures other { (size : Size) (number : ℕ) → (has result.other size number ≡ true)
        ↔ HasName rate (other_head own) flux.now.times flux.now.indexes cells.now.cells size number }
{
    headers_have_names();
    let recording = recording_with_one(rate, SectorSize::Bytes128);
    let across = TrackId {
        cylinder: own.cylinder,
        head: 1u8.saturating_sub(own.head),
    };
    let mut names = NameSet::empty();
    let mut others = NameSet::empty();
    let mut from = 0;
    let mut passed = 0;
    while let Some((place, name)) = next_name(&recording, cells, from) {
        passed += cells.ones_between(from, place + 1);
        let header = FoundHeader {
            rate,
            flux,
            cells,
            place,
            ones_to: passed,
        };
        note_name(&header, own, name, &mut names);
        note_name(&header, across, name, &mut others);
        from = place + 1;
    }
    TrackNames {
        own: names,
        other: others,
    }
}

/// Adds the sector number of a header of this name, where it is an own one and has whole data.
fn note_name(header: &FoundHeader, own: TrackId, name: HeaderName, names: &mut NameSet)
    requires { IsFound header.now }
    ensures full { length names.new ≡ length names.old }
    ensures adds { AddsName header.now.rate own header.now.flux.now.times header.now.flux.now.indexes
        header.now.cells.now.cells header.now.place name names.old names.new }
{
    let Some((size, number)) = own_number(own, name) else {
        return;
    };
    if has_whole(header, size) {
        names.insert(size, number);
    }
}

/// The size and the number of a sector that a name tells on a track of IBM's recordings. None where it tells none
/// there.
fn own_number(own: TrackId, name: HeaderName) -> Option<(SectorSize, u8)>
    ensures some { IfSome result (λ told. (told.1 < 256)
        × (name ≡ AddressOf own.cylinder own.head told.1 (code_of told.0))) }
    ensures none { IfNone result ((size : Size) (number : ℕ)
        → name ≢ AddressOf own.cylinder own.head number (code_of size)) }
{
    let HeaderName::Address {
        cylinder,
        head,
        sector,
        size_code,
    } = name
    else {
        return None;
    };
    if cylinder != own.cylinder {
        return None;
    }
    if head != own.head {
        return None;
    }
    match size_code {
        0 => Some((SectorSize::Bytes128, sector)),
        1 => Some((SectorSize::Bytes256, sector)),
        2 => Some((SectorSize::Bytes512, sector)),
        3 => Some((SectorSize::Bytes1024, sector)),
        _ => None,
    }
}

/// Whether data of a size and the header's rate stand behind it.
fn has_whole(header: &FoundHeader, size: SectorSize) -> bool
    requires { IsFound header.now }
    ensures { IsTrue result ↔ HasWholeAt header.now.rate header.now.flux.now.times header.now.flux.now.indexes
        header.now.cells.now.cells size header.now.place }
{
    let recording = recording_with_one(header.rate, size);
    has_data_of(&recording, header)
}

/// Whether data of the recording's size and of the header's rate stand behind it.
fn has_data_of<R: Recording>(recording: &R, header: &FoundHeader) -> bool
    requires { IsFound header.now }
    ensures { IsTrue result ↔ HasDataOf header.now.rate header.now.flux.now.times header.now.flux.now.indexes
        header.now.cells.now.cells (R.data_at recording.now (drop header.now.place header.now.cells.now.cells))
        header.now.place }
{
    let mut buffer = SectorBuffer::new();
    let mut from = 0;
    while let Some(behind) = recording.next_data(header.cells, header.place, from, &mut buffer) {
        if is_of_rate(header, behind) {
            return true;
        }
        from = behind + 1;
    }
    false
}
