ghost use Rattle.std.specs.Prelude.{◌≡◌, IfOk};
ghost use Rattle.g64_image.specs.Layout.{IsCommodore};

use cell_bits::Cells;
use disk_recordings::{DiskId, recording_of};
use flux_base::Memory;
use frame_law::Recording;
use sector_images::{Format, image_size, track_id, tracks_keep_bounds};
use std::alloc::Global;
use std::marker::Model;
use turn_merge::Book;

/// One byte more than a file may have.
const MOST_READ: usize = 4194305;

/// The cells of a track's 65535 bytes, twice.
const MOST_CELLS: usize = 1048560;

/// What the cells of a track are worked on with.
#[derive(Drop)]
pub(crate) struct Tools {
    pub cells: Cells,
    pub book: Book,
}

/// All that writing or reading a file of one format needs: no answer of a call on it is for want of memory.
///
/// Contracts see the format.
#[derive(Drop)]
pub struct G64Room {
    pub(crate) format: Format,
    /// Room for an image and one byte more.
    pub(crate) image: Vec<u8>,
    /// Room for a file and one byte more.
    pub(crate) file: Vec<u8>,
    pub(crate) tools: Tools,
}

impl Model for G64Room {
    ghost use Rattle.std.specs.Prelude.{◌≡◌, length};
    ghost use Rattle.flux_engine.specs.Writes.{most_read};
    ghost use Rattle.g64_image.specs.Layout.{IsCommodore};
    ghost use Rattle.g64_image.specs.Room.{IsRoomy};
    ghost use Rattle.sector_images.specs.declared.format.Format.{Format};

    ghost Value = { Format };

    ghost view = { λ a. a.format };

    ghost invariant = { λ a.
        IsCommodore a.format × (length a.image.items ≡ most_read a.format) × (length a.file.items ≡ 4194305)
        × IsRoomy a.format a.tools.cells a.tools.book };
}

impl G64Room {
    /// Takes all memory that writing or reading a file of the format needs: one of the Commodore 1541.
    pub fn reserve(alloc: Global, format: Format) -> Result<G64Room, Memory>
        requires { IsCommodore format }
        ensures { IfOk result (λ room. room ≡ format) }
    {
        let image = vec![in alloc; 0u8; image_size(format) as usize + 1]?;
        let file = vec![in alloc; 0u8; MOST_READ]?;
        let tools = Tools::reserve(alloc, format)?;
        Ok(G64Room {
            format,
            image,
            file,
            tools,
        })
    }
}

impl Tools {
    ghost use Rattle.g64_image.specs.Room.{IsRoomy};

    /// Room for the most cells of a track, twice, and a book for the format's tracks.
    fn reserve(alloc: Global, format: Format) -> Result<Tools, Memory>
        requires { IsCommodore format }
        ensures { IfOk result (λ tools. IsRoomy format tools.cells tools.book) }
    {
        let mut cells = Cells::new(alloc);
        cells.reserve(MOST_CELLS)?;
        // No track has more sectors than the first.
        tracks_keep_bounds();
        let recording = recording_of(format, DiskId::ANY);
        let first = track_id(format, 0);
        let book = Book::new(
            alloc,
            recording.first_sector(),
            recording.sectors(first),
            recording.sector_size(),
        )?;
        Ok(Tools { cells, book })
    }
}
