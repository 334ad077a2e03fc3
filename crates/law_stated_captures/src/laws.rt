//! The class of captures in plain numbers, and streams at its bounds.

ghost use Rattle.law_stated_captures.specs.Laws.{CapturesAreStated, ErasedCapturesAreStated, StatedCapturesAreCaptures};
ghost use Rattle.law_stated_captures.specs.Laws.{StatedErasedCapturesAreErased, StatedSpeedsAreKept};
ghost use Rattle.law_stated_captures.specs.Laws.{StatedTimesAreCarried};
ghost use Rattle.law_stated_captures.specs.Reached.{BoundsAreSpeeds, PiecesReachBounds, RingsReachBounds};
ghost use Rattle.law_stated_captures.specs.Reached.{SteadyBoundsAreSpeeds, TrackPiecesReachBounds, TracksReachBounds};

use flux_engine::images_have_rings;
use kryo_stream::blocks_law;
use sector_images::{sectors_lie_in_images, tracks_keep_bounds};

/// Times that keep the bounds in plain numbers, and no others, carry a ring. A stream of such times over two rings,
/// whose first turn tells the speed, is a capture; one whose times keep them in pieces so far apart is an erased
/// capture; and each capture and each erased capture is such a stream. The drive of one keeps its speed exactly where
/// each of its local periods is so near the mean of the first turn.
pub fn captures_are_as_stated()
    ensures times { StatedTimesAreCarried }
    ensures captures { StatedCapturesAreCaptures }
    ensures no_other_captures { CapturesAreStated }
    ensures erased { StatedErasedCapturesAreErased }
    ensures no_other_erased { ErasedCapturesAreStated }
    ensures steady { StatedSpeedsAreKept }
{}

/// For each ring there is a stream that reaches the bounds: over exactly two rings from whichever of its ones, with
/// each transition displaced as far as may be, late or early as one likes, at all local periods and each mean of the
/// first turn that are within their bounds, and with turns that begin anywhere, also behind the last transition. And
/// there is one of two pieces that are as near as they may be. So it is for each track of each image of each format,
/// from any place of its ring on. Among the local periods are the least and the greatest, and those of a drive that
/// keeps its speed and whose periods drift to the bound of that.
pub fn captures_reach_each_bound()
    ensures rings { RingsReachBounds }
    ensures pieces { PiecesReachBounds }
    ensures tracks { TracksReachBounds }
    ensures track_pieces { TrackPiecesReachBounds }
    ensures speeds { BoundsAreSpeeds }
    ensures steady_speeds { SteadyBoundsAreSpeeds }
{
    blocks_law();
    images_have_rings();
    sectors_lie_in_images();
    tracks_keep_bounds()
}
