//! An image as files.

ghost use Rattle.std.specs.Prelude.{◌≡◌, ◌<◌, ◌≤◌, ◌++◌, ℕ, List, length, is_err, IfSome};
ghost use Rattle.cell_bits.specs.State.{room};
ghost use Rattle.file_maker.specs.Made.{path_in};
ghost use Rattle.file_maker.specs.Makes.{MakesFile};
ghost use Rattle.flux_base.specs.Blames.{CountsBy, no_counts, three_counts};
ghost use Rattle.flux_base.specs.Counts.{Counts, counts_of};
ghost use Rattle.flux_base.specs.Moments.{Puts};
ghost use Rattle.flux_base.specs.World.{sink_at, source_counts};
ghost use Rattle.flux_engine.specs.Needed.{ReadsUpTo};
ghost use Rattle.flux_engine.specs.Rings.{HasRoomForRings};
ghost use Rattle.flux_engine.specs.Writes.{most_read};
ghost use Rattle.flux_writer.specs.Reading.{HasEarlyOne, MOST_RING_CELLS};
ghost use Rattle.flux_writer.specs.Written.{stream_of};
ghost use Rattle.kryo_stream.specs.Reads.{reads_at};
ghost use Rattle.sector_images.specs.Formats.{row};
ghost use Rattle.sector_images.specs.Places.{tracks};
ghost use Rattle.disk_files.specs.Answers.{IsFirstThere, MakesFiles, WritesFiles};
ghost use Rattle.disk_files.specs.Blamed.{files_blame};
ghost use Rattle.disk_files.specs.Files.{MOST_VERSION, info_block};

use crate::fault::FilesFault;
use crate::info::info_block;
use crate::room::FilesRoom;
use cell_bits::Cells;
use file_maker::FileMaker;
use flux_base::{Failed, Sink, Source, write_whole};
use flux_engine::{fill, track_ring};
use flux_writer::write_track;
use sector_images::{Format, image_size, nominal, track_count, track_id, tracks_keep_bounds};
use track_shelf::file_name;

/// Reads an image to its end, or to one byte more than an image of the format has, and writes a file for each of its
/// tracks, `trackCC.H.raw`, in a folder, which is made where it is not there. A file is an Info block, which names this
/// version of the program, and the stream that `write_disk` writes of the track. No answer is for want of memory.
///
/// All files are looked for before the first is made: where one is there, none is made. Nothing is made either where
/// the bytes that were read are not an image's in number. After `FileFault` the files of all tracks before are whole.
pub fn write_disk_files<S: Source, M: FileMaker>(
    room: &mut FilesRoom,
    source: &mut S,
    maker: &mut M,
    folder: &[u8],
    version: &str,
) -> Result<(), FilesFault>
    requires version { length version.now ≤ MOST_VERSION }
    ensures wrote { WritesFiles (record { folder = folder.now; format = room.old; version = version.now })
        (S.left source.old) (S.left source.new) (M.made maker.old) (M.made maker.new) result }

    // The source is read only where no more bytes than an image has were given.
    ensures needed { ReadsUpTo (most_read room.old) (reads_at S.Source source.old) (reads_at S.Source source.new) }

    ensures format { room.new ≡ room.old }

    // A fault of the source or of the maker is told where it failed once, in the last call
    // that could; else neither did.
    ensures blames { CountsBy (files_blame result)
        (three_counts (source_counts S.Source source.old) (counts_of M.faults M.failed maker.old) no_counts)
        (three_counts (source_counts S.Source source.new) (counts_of M.faults M.failed maker.new) no_counts) }
{
    let wanted = image_size(room.format);
    let read = match fill(&mut room.image, source) {
        Ok(read) => read as u32,
        Err(_) => return Err(FilesFault::ReadFault),
    };
    if read != wanted {
        return Err(FilesFault::WrongSize { read, wanted });
    }
    match first_there(room.format, folder, maker) {
        Some(track) => return Err(FilesFault::Exists { track }),
        None => {}
    }
    match maker.make_folder(folder) {
        Ok(()) => {}
        Err(_) => return Err(FilesFault::FolderFault),
    }
    let image = &room.image[..read as usize];
    match write_files(room.format, folder, version, image, &mut room.ring, maker) {
        Ok(()) => {}
        Err(track) => return Err(FilesFault::FileFault { track }),
    }
    Ok(())
}

/// The number of the first track whose file is in the folder.
fn first_there<M: FileMaker>(format: Format, folder: &[u8], maker: &M) -> Option<u32>
    ensures first { (version : List ℕ)
        → IsFirstThere (M.made maker.now) (record { folder = folder.now; format = format; version = version }) result }
    ensures bound { IfSome result (λ number. number < length (tracks format)) }
{
    tracks_keep_bounds();
    for number in 0..track_count(format) {
        let name = file_name(track_id(format, number));
        if maker.has_file(folder, name.as_str()) {
            return Some(number);
        }
    }
    None
}

/// Writes the files of all tracks of an image. Else the answer is the number of the track whose file failed.
fn write_files<M: FileMaker>(
    format: Format,
    folder: &[u8],
    version: &str,
    image: &[u8],
    ring: &mut Cells,
    maker: &mut M,
) -> Result<(), u32>
    requires version { length version.now ≤ MOST_VERSION }
    requires image { length image.now ≡ (row format).image_size }
    requires room { HasRoomForRings format ring.old }
    ensures made { MakesFiles (record { folder = folder.now; format = format; version = version.now }) image.now
        (M.made maker.old) (M.made maker.new) result }
    ensures counts { Counts (is_err result) (counts_of M.faults M.failed maker.old)
        (counts_of M.faults M.failed maker.new) }
    ensures room { room ring.old ≤ room ring.new }
{
    tracks_keep_bounds();
    let info = info_block(version);
    for number in 0..track_count(format) {
        let track = track_id(format, number);
        match track_ring(format, number, image, ring) {
            Ok(()) => {}
            // There is room for the longest ring.
            Err(_) => unreachable!(),
        }
        let name = file_name(track);
        match write_file(
            folder,
            name.as_str(),
            &info,
            ring,
            nominal(format, track),
            maker,
        ) {
            Ok(()) => {}
            Err(_) => return Err(number),
        }
    }
    Ok(())
}

/// Writes a file of this name: the block, and the stream of the ring.
fn write_file<M: FileMaker>(
    folder: &[u8],
    name: &str,
    info: &[u8],
    ring: &Cells,
    nominal: u32,
    maker: &mut M,
) -> Result<(), Failed>
    requires least { 16384 ≤ nominal }
    requires most { nominal ≤ 131072 }
    requires few { length ring.now.cells ≤ MOST_RING_CELLS }
    requires one { HasEarlyOne ring.now.cells }
    ensures made { MakesFile
        (record { path = path_in folder.now name.now; bytes = info.now ++ stream_of ring.now.cells nominal })
        (M.made maker.old) (M.made maker.new) result }
    ensures counts { Counts (is_err result) (counts_of M.faults M.failed maker.old)
        (counts_of M.faults M.failed maker.new) }
{
    let mut file = match maker.make_file(folder, name) {
        Ok(file) => file,
        Err(failed) => return Err(failed),
    };
    let answer = write_stream(info, ring, nominal, &mut file);
    maker.close_file(file);
    answer
}

/// Writes the block, and the stream of the ring.
fn write_stream<W: Sink>(
    info: &[u8],
    ring: &Cells,
    nominal: u32,
    sink: &mut W,
) -> Result<(), Failed>
    requires least { 16384 ≤ nominal }
    requires most { nominal ≤ 131072 }
    requires few { length ring.now.cells ≤ MOST_RING_CELLS }
    requires one { HasEarlyOne ring.now.cells }
    ensures { Puts (sink_at W.Sink sink.old) (sink_at W.Sink sink.new) (info.now ++ stream_of ring.now.cells nominal)
        result }
{
    match write_whole(sink, info) {
        Ok(()) => write_track(ring, nominal, sink),
        Err(failed) => Err(failed),
    }
}
