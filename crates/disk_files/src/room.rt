ghost use Rattle.std.specs.Prelude.{◌≡◌, IfOk};

use cell_bits::Cells;
use flux_base::Memory;
use sector_images::{Format, image_size, tracks_keep_bounds};
use std::alloc::Global;
use std::marker::Model;

/// The most cells of a track's ring.
const LONGEST_RING: usize = 262_144;

/// All that writing the files of an image of one format needs: no answer of a call on it is for want of memory.
///
/// Contracts see the format.
#[derive(Drop)]
pub struct FilesRoom {
    pub(crate) format: Format,
    /// Room for the image and one byte more.
    pub(crate) image: Vec<u8>,
    pub(crate) ring: Cells,
}

impl Model for FilesRoom {
    ghost use Rattle.std.specs.Prelude.{◌≡◌, length};
    ghost use Rattle.sector_images.specs.declared.format.Format.{Format};
    ghost use Rattle.flux_engine.specs.Rings.{HasRoomForRings};
    ghost use Rattle.flux_engine.specs.Writes.{most_read};

    ghost Value = { Format };

    ghost view = { λ a. a.format };

    ghost invariant = { λ a. (length a.image.items ≡ most_read a.format) × HasRoomForRings a.format a.ring };
}

impl FilesRoom {
    /// Takes all memory that writing the files of an image of the format needs.
    pub fn reserve(alloc: Global, format: Format) -> Result<FilesRoom, Memory>
        ensures { IfOk result (λ room. room ≡ format) }
    {
        tracks_keep_bounds();
        let image = vec![in alloc; 0u8; image_size(format) as usize + 1]?;
        let mut ring = Cells::new(alloc);
        ring.reserve(LONGEST_RING)?;
        Ok(FilesRoom {
            format,
            image,
            ring,
        })
    }
}
