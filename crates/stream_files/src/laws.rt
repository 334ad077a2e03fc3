//! What the files of joined streams are together.

ghost use Rattle.stream_files.specs.Joined.{FilesAreJoined};

use kryo_stream::padding_law;

/// The bytes of all files of an input, one after another, are the input, but for padding behind each.
pub fn files_are_joined()
    ensures { FilesAreJoined }
{
    padding_law()
}
