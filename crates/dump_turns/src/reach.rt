//! Of which tracks a dump has files.

ghost use Rattle.std.specs.Prelude.{◌≡◌, ◌*◌, ◌<◌, ◌≤◌, List, Some, IfSome};
ghost use Rattle.track_shelf.specs.Files.{File};
ghost use Rattle.dump_turns.specs.Reaches.{IsBoundedReach, IsReachOf, count_in, track_number};
ghost use Rattle.dump_turns.specs.inside.Reached.{with_track};

use flux_base::TrackId;
use track_shelf::Shelf;

/// The cylinders of which `info` looks for files.
pub(crate) const MOST_CYLINDERS: u8 = 99;

/// So many cylinders and heads: one more than the greatest ones of which a dump has a file.
#[derive(Clone, Copy, Debug, PartialEq, Eq)]
pub struct Reach {
    pub cylinders: u8,
    pub heads: u8,
}

impl Reach {
    /// How many tracks there are.
    pub fn count(self) -> u8
        requires { IsBoundedReach self }
        ensures { result ≡ count_in self }
    {
        self.cylinders * self.heads
    }

    /// The track of a number: cylinder by cylinder, head by head.
    pub fn track(self, number: u8) -> TrackId
        requires { IsBoundedReach self }
        ensures { result ≡ track_number self number }
    {
        TrackId {
            cylinder: number / self.heads,
            head: number % self.heads,
        }
    }

    /// With a track too.
    fn with(self, track: TrackId) -> Reach
        requires cylinder { track.cylinder < 99 }
        requires head { track.head < 2 }
        ensures { result ≡ with_track self track }
    {
        Reach {
            cylinders: self.cylinders.max(track.cylinder + 1),
            heads: self.heads.max(track.head + 1),
        }
    }
}

/// Those of cylinders 0 to 98 and heads 0 and 1. None, where the dump has the file of no such track. Nothing is opened
/// to be read, and nothing fails.
pub fn find_reach<H: Shelf>(dump: &[u8], shelf: &H) -> Option<Reach>
    ensures told { (files : List File) → H.files shelf.now ≡ Some files → IsReachOf files dump.now result }
    ensures bound { IfSome result IsBoundedReach }
{
    let mut reach = Reach {
        cylinders: 0,
        heads: 0,
    };
    for number in 0..2 * MOST_CYLINDERS {
        let track = TrackId {
            cylinder: number / 2,
            head: number % 2,
        };
        if shelf.holds(dump, track) {
            reach = reach.with(track);
        }
    }
    if reach.cylinders == 0 {
        None
    } else {
        Some(reach)
    }
}
