//! The disks by whose recording and clock names are read.

ghost use Rattle.std.specs.Prelude.{◌≡◌, ◌≤◌};
ghost use Rattle.cell_bits.specs.State.{room};
ghost use Rattle.disk_recordings.specs.Recordings.{ANY_ID, recording_of as recording_in};
ghost use Rattle.flux_engine.specs.Gathering.{AreCellsOf};
ghost use Rattle.flux_engine.specs.Reading.{IsBounded};
ghost use Rattle.flux_engine.specs.Room.{MOST_CELLS};
ghost use Rattle.ibm_walks.specs.Rates.{cells_at, disk_with_one as disk_with_one_of, format_with_one};

use cell_bits::Cells;
use disk_recordings::{DiskId, DiskRecording, recording_of};
use flux_base::TrackId;
use flux_engine::recover_cells;
use ibm_disks::{DiskNumbers, IbmDisk, Rate, SectorSize};
use index_turns::TrackFlux;
use phase_loop::Loop;
use sector_images::Format;
use turn_merge::Clock;

/// A disk of a rate with one track, of one sector of a size.
#[tactic(auto, using(crate::proofs::OneSector::disk_is))]
pub(crate) fn disk_with_one(rate: Rate, size: SectorSize) -> IbmDisk
    ensures { result ≡ disk_with_one_of rate size }
{
    match IbmDisk::of_numbers(DiskNumbers {
        rate,
        cylinders: 1,
        heads: 1,
        sectors: 1,
        sector_bytes: size.bytes(),
        first_sector: 1,
    }) {
        Some(disk) => disk,
        // There is one of each rate and size.
        None => unreachable!(),
    }
}

/// The recording of its track.
pub(crate) fn recording_with_one(rate: Rate, size: SectorSize) -> DiskRecording
    ensures { result ≡ recording_in (format_with_one rate size) ANY_ID }
{
    recording_of(Format::Numbered(disk_with_one(rate, size)), DiskId::ANY)
}

/// Recovers the cells of a stream by a rate and a clock.
pub(crate) fn recover_at(
    clock: Clock,
    rate: Rate,
    flux: &TrackFlux,
    follower: &mut Loop,
    cells: &mut Cells,
)
    requires bounded { IsBounded flux.now }
    requires room { MOST_CELLS ≤ room cells.old }
    ensures cells { cells.new.cells ≡ cells_at clock rate flux.now.times flux.now.indexes }
    ensures are { AreCellsOf flux.now.times cells.new.cells }
    ensures room { room cells.old ≤ room cells.new }
{
    recover_cells(
        clock,
        Format::Numbered(disk_with_one(rate, SectorSize::Bytes128)),
        TrackId {
            cylinder: 0,
            head: 0,
        },
        flux,
        follower,
        cells,
    );
}
