ghost use Rattle.std.specs.Prelude.{◌≡◌};
ghost use Rattle.ibm_mfm.specs.Disks.{named_track as track_named};

use flux_base::TrackId;

/// How headers number the two heads.
#[derive(Clone, Copy, Debug, PartialEq, Eq)]
pub enum HeadNumbers {
    /// As the drive does.
    Same,
    /// The other way round: those under head 0 say 1, and those under head 1 say 0 (Commodore 1581).
    Exchanged,
}

impl HeadNumbers {
    /// The track that the headers of a track name.
    pub(crate) fn named_track(self, track: TrackId) -> TrackId
        ensures { result ≡ track_named self track }
    {
        match self {
            HeadNumbers::Same => track,
            HeadNumbers::Exchanged => TrackId {
                cylinder: track.cylinder,
                head: 1u8.saturating_sub(track.head),
            },
        }
    }
}
