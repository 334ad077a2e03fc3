//! What a stream says by each mode.

ghost use Rattle.std.specs.Prelude.{None};
ghost use Rattle.flux_engine.specs.Reading.{IsBounded};
ghost use Rattle.ibm_walks.specs.Walks.{AreNamesBy, HaveNoted};
ghost use Rattle.imd_image.specs.Streams.{AreJoined, AreNamesUnless, by_clocks};
ghost use Rattle.imd_records.specs.Choices.{names_by};
ghost use Rattle.imd_records.specs.declared.mode.Mode.{Mode as OfMode};

use ibm_disks::Rate;
use ibm_walks::{WalkRoom, note_names};
use imd_records::TrackBooks;
use index_turns::TrackFlux;
use name_book::NameBook;
use turn_merge::Clock;

/// Notes what a dump's stream of a track says by each mode.
pub(crate) fn note_stream(dump: u8, flux: &TrackFlux, walk: &mut WalkRoom, books: &mut TrackBooks)
    requires { IsBounded flux.now }
    ensures { (mode : OfMode) → HaveNoted (AreNamesUnless None mode dump flux.now.times flux.now.indexes)
        (names_by books.old mode) (names_by books.new mode) }
{
    note_rate(Rate::Double, dump, flux, walk, &mut books.mfm250);
    note_rate(Rate::High, dump, flux, walk, &mut books.mfm500);
    note_rate(Rate::HighAt360, dump, flux, walk, &mut books.mfm500);
    note_rate(Rate::Single, dump, flux, walk, &mut books.fm250);
    note_rate(Rate::SingleAt360, dump, flux, walk, &mut books.fm500);
}

/// Notes what it says by a rate, by both clocks.
fn note_rate(rate: Rate, dump: u8, flux: &TrackFlux, walk: &mut WalkRoom, book: &mut NameBook)
    requires { IsBounded flux.now }
    ensures { HaveNoted
        (AreJoined (λ reading. AreNamesBy reading.1 reading.0 dump flux.now.times flux.now.indexes) (by_clocks rate))
        book.old book.new }
{
    note_names(Clock::Following, rate, dump, flux, walk, book);
    note_names(Clock::Held, rate, dump, flux, walk, book);
}
