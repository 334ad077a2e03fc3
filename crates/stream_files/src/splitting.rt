//! Joined streams as files.

ghost use Rattle.std.specs.Prelude.{◌≡◌, ◌<◌, [], None, is_err, IfSome};
ghost use Rattle.flux_base.specs.Blames.{CountsBy, no_counts, three_counts};
ghost use Rattle.flux_base.specs.Counts.{Counts, counts_of};
ghost use Rattle.flux_base.specs.World.{source_counts};
ghost use Rattle.stream_files.specs.Answers.{IsFirstThere, IsThere, SplitsStreams};
ghost use Rattle.stream_files.specs.Blamed.{is_of_maker, split_blame};
ghost use Rattle.stream_files.specs.Streams.{most_streams};
ghost use Rattle.stream_files.specs.inside.Progress.{MakesBefore, SplitsOne};

use crate::ahead::Ahead;
use crate::fault::SplitFault;
use crate::heads::Heads;
use crate::room::SplitRoom;
use file_maker::{FileMaker, make_whole};
use flux_base::{Failed, Source};
use kryo_stream::StreamRoom;
use track_shelf::file_name;

/// Reads joined streams to their end, and makes a file of each, with its bytes as they came, in a folder, which is made
/// before the first file where it is not there. Padding between streams is left out. Gives how many streams there are,
/// at least one. No answer is for want of memory.
///
/// The file of stream 0 is that of track 00.0, and so on, with so many heads a cylinder. All files that have names are
/// looked for before anything is read: where one is there, none is made. After every other fault but that of the folder
/// the files of all streams before are whole.
pub fn split_streams<S: Source, M: FileMaker>(
    room: &mut SplitRoom,
    source: &mut S,
    maker: &mut M,
    folder: &[u8],
    heads: Heads,
) -> Result<u32, SplitFault>
    ensures split { SplitsStreams (record { folder = folder.now; heads = heads }) (S.left source.old)
        (S.left source.new) (M.made maker.old) (M.made maker.new) result }

    // Nothing is read where a file is there.
    ensures unread { IsThere result → source.new ≡ source.old }

    // A fault of the source or of the maker is told where it failed once, in the last call
    // that could; else neither did.
    ensures blames { CountsBy (split_blame result)
        (three_counts (source_counts S.Source source.old) (counts_of M.faults M.failed maker.old) no_counts)
        (three_counts (source_counts S.Source source.new) (counts_of M.faults M.failed maker.new) no_counts) }
{
    match first_there(heads, folder, maker) {
        Some(stream) => return Err(SplitFault::Exists { stream }),
        None => {}
    }
    room.ahead.forget();
    split_all(
        &mut room.stream,
        &mut room.ahead,
        source,
        maker,
        folder,
        heads,
    )
}

/// The number of the first stream whose file would be one that is in the folder.
fn first_there<M: FileMaker>(heads: Heads, folder: &[u8], maker: &M) -> Option<u32>
    ensures first { IsFirstThere (M.made maker.now) (record { folder = folder.now; heads = heads }) result }
    ensures bound { IfSome result (λ stream. stream < most_streams heads) }
{
    for stream in 0..heads.most_streams() {
        let name = file_name(heads.track(stream));
        if maker.has_file(folder, name.as_str()) {
            return Some(stream);
        }
    }
    None
}

/// Makes the files of all streams.
fn split_all<S: Source, M: FileMaker>(
    room: &mut StreamRoom,
    ahead: &mut Ahead,
    source: &mut S,
    maker: &mut M,
    folder: &[u8],
    heads: Heads,
) -> Result<u32, SplitFault>
    requires nothing { ahead.old ≡ [] }
    requires none { IsFirstThere (M.made maker.old) (record { folder = folder.now; heads = heads }) None }
    ensures split { SplitsStreams (record { folder = folder.now; heads = heads }) (S.left source.old)
        (S.left source.new) (M.made maker.old) (M.made maker.new) result }
    ensures read { IsThere result → ⊥ }
    ensures blames { CountsBy (split_blame result)
        (three_counts (source_counts S.Source source.old) (counts_of M.faults M.failed maker.old) no_counts)
        (three_counts (source_counts S.Source source.new) (counts_of M.faults M.failed maker.new) no_counts) }
{
    let most = heads.most_streams();
    for stream in 0..most {
        match ahead.find(stream == 0, source) {
            Ok(true) => {}
            Ok(false) => return Ok(stream),
            Err(_) => return Err(SplitFault::ReadFault),
        }
        match split_one(stream, room, ahead, maker, folder, heads) {
            Ok(()) => {}
            Err(fault) => return Err(fault),
        }
    }
    match ahead.find(false, source) {
        Ok(true) => Err(SplitFault::NoName { stream: most }),
        Ok(false) => Ok(most),
        Err(_) => Err(SplitFault::ReadFault),
    }
}

/// Makes the file of the stream that the bytes at hand begin with, and passes over it. Before the first one the folder
/// is made.
fn split_one<M: FileMaker>(
    stream: u32,
    room: &mut StreamRoom,
    ahead: &mut Ahead,
    maker: &mut M,
    folder: &[u8],
    heads: Heads,
) -> Result<(), SplitFault>
    requires { stream < most_streams heads }
    ensures one { SplitsOne (record { folder = folder.now; heads = heads }) stream ahead.old ahead.new
        (M.made maker.old) (M.made maker.new) result }
    ensures counts { Counts (is_of_maker result) (counts_of M.faults M.failed maker.old)
        (counts_of M.faults M.failed maker.new) }
{
    let size = match room.read_held(ahead.bytes()) {
        Ok(size) => size,
        Err((block, fault)) => {
            return Err(SplitFault::Refused {
                stream,
                block,
                fault,
            });
        }
    };
    match make_before(stream, folder, maker) {
        Ok(()) => {}
        Err(_) => return Err(SplitFault::FolderFault),
    }
    let name = file_name(heads.track(stream));
    match make_whole(folder, name.as_str(), &ahead.bytes()[..size], maker) {
        Ok(()) => {}
        Err(_) => return Err(SplitFault::FileFault { stream }),
    }
    ahead.pass(size);
    Ok(())
}

/// Makes the folder, before the first file.
fn make_before<M: FileMaker>(stream: u32, folder: &[u8], maker: &mut M) -> Result<(), Failed>
    ensures made { MakesBefore stream folder.now result (M.made maker.old) (M.made maker.new) }
    ensures counts { Counts (is_err result) (counts_of M.faults M.failed maker.old)
        (counts_of M.faults M.failed maker.new) }
{
    if stream == 0 {
        maker.make_folder(folder)
    } else {
        Ok(())
    }
}
