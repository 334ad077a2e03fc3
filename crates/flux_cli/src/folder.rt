//! A dump as it lies on the disk: a folder of track files.

ghost use Rattle.std.specs.Prelude.{◌≡◌, ◌≢◌};
ghost use Rattle.flux_base.specs.Blames.{CountsBy};
ghost use Rattle.flux_cli.specs.Blamed.{shelf_blame};
ghost use Rattle.flux_base.specs.declared.status.Status.{Status};
ghost use Rattle.flux_base.specs.World.{counts_at};
ghost use Rattle.flux_cli.specs.FolderRuns.{DidFolder};
ghost use Rattle.flux_cli.specs.World.{on_shelf_at};
ghost use Rattle.flux_engine.specs.Room.{fresh};

use crate::endings::refuse;
use crate::planned::decode;
use flux_base::{Failed, Sink, Status};
use flux_engine::{DiskRoom, decoding_plan};
use flux_words::Output;
use sector_images::{Format, track_id, tracks_keep_bounds};
use track_shelf::{Shelf, missing_line};

/// Decodes the track files of a folder, and gives the image and the report. Notes say which file is missing.
pub fn decode_folder<H: Shelf, W: Sink, N: Sink>(
    room: &mut DiskRoom,
    format: Format,
    folder: &[u8],
    shelf: &mut H,
    image: &mut W,
    notes: &mut N,
) -> Status
    requires { room.old ≡ fresh format }
    ensures did { DidFolder format folder.now result
        (on_shelf_at H.Source H.Shelf.own W.Sink N.Sink shelf.old image.old notes.old)
        (on_shelf_at H.Source H.Shelf.own W.Sink N.Sink shelf.new image.new notes.new) }
    ensures blames { CountsBy (shelf_blame result)
        (counts_at H.Source W.Sink N.Sink shelf.old image.old notes.old)
        (counts_at H.Source W.Sink N.Sink shelf.new image.new notes.new) }
    ensures no_source { result ≢ Status.ReadFault }
    ensures memory { result ≢ Status.Memory }
{
    match shelf.begin(folder, format) {
        Ok(None) => {
            let plan = decoding_plan();
            match decode(room, plan, Output::ImageAndReport, shelf, image, notes) {
                Status::ReadFault => Status::ShelfFault,
                status => status,
            }
        }
        Ok(Some(number)) => {
            tracks_keep_bounds();
            refuse(&missing_line(number, track_id(format, number)), notes)
        }
        Err(Failed) => Status::ShelfFault,
    }
}
