//! What is told of a fault of standard output, behind all that a command writes.

ghost use Rattle.std.specs.Prelude.{◌≡◌};
ghost use Rattle.flux_cli.specs.OutputTold.{ToldIf, is_told, tells_faults};
ghost use Rattle.flux_base.specs.World.{sink_at};

use flux_base::{Sink, Status, Word, write_whole};
use flux_help::Verb;

/// Tells a fault of the output in a line of the notes, under words that the usage line does not name. The exit code
/// tells it too, whatever becomes of the line.
pub(crate) fn tell_output<N: Sink>(words: &[Word], status: Status, notes: &mut N)
    ensures { ToldIf (is_told words.now status) (sink_at N.Sink notes.old) (sink_at N.Sink notes.new) }
{
    if is_told(words, status) {
        let _ = write_whole(notes, "failed output\n".as_bytes());
    }
}

/// Whether a fault is told that a status tells.
fn is_told(words: &[Word], status: Status) -> bool
    ensures { result ≡ is_told words.now status }
{
    match status {
        Status::ImageFault => tells_faults(words),
        _ => false,
    }
}

/// Whether faults of the output are told under these words: their first one is none that the usage line names.
fn tells_faults(words: &[Word]) -> bool
    ensures { result ≡ tells_faults words.now }
{
    match words {
        [first, ..] => match Verb::of_word(first.bytes()) {
            Some(verb) => verb.is_own(),
            None => true,
        },
        [] => false,
    }
}
