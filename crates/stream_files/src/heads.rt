//! The tracks by whose numbers streams are named.

ghost use Rattle.std.specs.Prelude.{◌≡◌, ◌<◌};
ghost use Rattle.stream_files.specs.Streams.{most_streams, stream_track};

use flux_base::TrackId;

/// How many heads a disk has.
#[derive(Clone, Copy, Debug, PartialEq, Eq)]
pub enum Heads {
    One,
    Two,
}

impl Heads {
    /// How many streams have names, in which a cylinder has two digits.
    pub fn most_streams(self) -> u32
        ensures { result ≡ most_streams self }
    {
        match self {
            Heads::One => 100,
            Heads::Two => 200,
        }
    }

    /// The track by whose numbers the stream of this number is named.
    pub fn track(self, stream: u32) -> TrackId
        requires { stream < most_streams self }
        ensures value { result ≡ stream_track self stream }
        ensures cylinder { result.cylinder < 100 }
        ensures head { result.head < 2 }
    {
        match self {
            Heads::One => TrackId {
                cylinder: stream as u8,
                head: 0,
            },
            Heads::Two => TrackId {
                cylinder: (stream / 2) as u8,
                head: (stream % 2) as u8,
            },
        }
    }
}
