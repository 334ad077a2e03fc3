//! Transitions and index times that are read of something else than a stream.

ghost use Rattle.index_turns.specs.Track.{TrackState};
ghost use Rattle.kryo_stream.specs.Outcome.{HasFullRoom};

use index_turns::TrackFlux;

/// Makes the transitions and index times of a track, of an object of the outside.
pub trait FluxMaker<S, R> {
    /// From one moment of the object to another this is the answer, and these were made.
    ghost makes: { Self → S → S → R → TrackState → Type 0 };

    /// Makes them in a track that is empty, and has room for those of any stream. No memory is taken.
    fn make(&self, outside: &mut S, flux: TrackFlux) -> (TrackFlux, R)
        requires room { HasFullRoom flux }
        ensures made { makes self.now outside.old outside.new result.1 result.0 }
        ensures kept { HasFullRoom result.0 };
}
