//! Disks by their numbers, as formats.

ghost use Rattle.std.specs.Prelude.{◌≡◌, ◌*◌, None, option_map};
ghost use Rattle.ibm_disks.specs.Disks.{cylinders_of, heads_of, track_of_disk};
ghost use Rattle.ibm_disks.specs.Numbers.{size_of};
ghost use Rattle.sector_images.specs.Formats.{cell_of};

use crate::format::Geometry;
use ibm_disks::{IbmDisk, Rate};

/// What holds of all tracks of a disk by its numbers.
#[tactic(auto, using(crate::proofs::Numbered::sectors_few, crate::proofs::Numbered::all_few, crate::proofs::Numbered::image_few))]
pub(crate) fn geometry_of(disk: IbmDisk) -> Geometry
    ensures cylinders { result.cylinders ≡ cylinders_of disk }
    ensures heads { result.heads ≡ heads_of disk }
    ensures first_sector { result.first_sector ≡ (track_of_disk disk).first_sector }
    ensures sector_size { result.sector_size ≡ size_of (track_of_disk disk).size }
    ensures image_size { result.image_size
        ≡ cylinders_of disk * (track_of_disk disk).sectors * heads_of disk * size_of (track_of_disk disk).size }
    ensures order { option_map (λ order. order.now) result.order ≡ None }
{
    let track = disk.track();
    let cylinders = disk.cylinders();
    let heads = disk.heads();
    let sector_size = track.size.bytes();
    let sectors = u32::from(cylinders) * u32::from(track.sectors) * u32::from(heads);
    Geometry {
        cylinders,
        heads,
        first_sector: track.first_sector,
        sector_size,
        image_size: sectors * u32::from(sector_size),
        order: None,
    }
}

/// The nominal cell of a rate, in fine units.
pub(crate) fn cell_of(rate: Rate) -> u32
    ensures { result ≡ cell_of rate }
{
    match rate {
        Rate::Double | Rate::SingleAt360 => 49208,
        Rate::High | Rate::HighAt360 => 24604,
        Rate::Single => 98416,
    }
}
