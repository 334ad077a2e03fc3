ghost use Rattle.std.specs.Prelude.{◌≡◌, ◌<◌, ◌≤◌, ◌+◌, ◌*◌, is_err, length, Option, IfOk, OnErr};
ghost use Rattle.std.specs.Io.KnownBytes.{Consumes, IsAtEnd};
ghost use Rattle.flux_base.specs.Counts.{Counts};
ghost use Rattle.flux_base.specs.World.{source_counts};
ghost use Rattle.scp_files.specs.Captures.{TakesFewer};
ghost use Rattle.scp_files.specs.Tracks.{head_fault, head_size, revolution_at};

use crate::fault::ScpTrackFault;
use crate::filling::fill;
use byteorder::{ByteOrder, LittleEndian};
use flux_base::{Failed, Source};
use std::marker::Model;

/// The most bytes of a track's header: 4, and 12 for each of 255 revolutions.
const MOST_HEAD: usize = 3064;

/// A revolution of a track: how many units it took, how many entries it has, and where these lie, in bytes from the
/// track's begin.
#[derive(Clone, Copy, Debug, PartialEq, Eq, Drop)]
pub struct Revolution {
    pub duration: u32,
    pub entries: u32,
    pub offset: u32,
}

/// The header of a track. Contracts see its bytes, as many of them as the file has.
#[derive(Drop)]
pub struct TrackHead {
    bytes: [u8; MOST_HEAD],
    filled: usize,
}

impl Model for TrackHead {
    ghost use Rattle.std.specs.Prelude.{ℕ, ◌≤◌, List, take};

    ghost Value = { List ℕ };

    ghost view = { λ h. take h.filled h.bytes };

    ghost invariant = { λ h. h.filled ≤ 3064 };
}

impl TrackHead {
    /// Reads the header of a track that has so many revolutions at most, from a source that is at its begin.
    pub fn read<S: Source>(revolutions: u8, source: &mut S) -> Result<TrackHead, Failed>
        ensures ok { IfOk result (λ head. Consumes (S.left source.old) (S.left source.new) head) }
        ensures bound { IfOk result (λ head. length head ≤ head_size revolutions) }
        ensures ended { IfOk result (λ head. length head < head_size revolutions → IsAtEnd (S.left source.new)) }
        ensures err { OnErr result (TakesFewer (S.left source.old) (S.left source.new) (head_size revolutions)) }
        ensures counts { Counts (is_err result) (source_counts S.Source source.old)
            (source_counts S.Source source.new) }
    {
        let size = 4 + 12 * usize::from(revolutions);
        let mut bytes = [0; MOST_HEAD];
        match fill(&mut bytes[..size], source) {
            Ok(filled) => Ok(TrackHead { bytes, filled }),
            Err(failed) => Err(failed),
        }
    }

    #[tactic(auto, unfolding(crate::specs::Tracks::head_fault))]
    /// Why this is no header of the track of this number with so many revolutions at most.
    pub fn fault(&self, revolutions: u8, number: u8) -> Option<ScpTrackFault>
        ensures { result ≡ head_fault revolutions number self.now }
    {
        let track = self.bytes();
        if track.len() < 4 + 12 * usize::from(revolutions) {
            return Some(ScpTrackFault::ShortTrack);
        }
        if &track[..3] != b"TRK".as_slice() {
            return Some(ScpTrackFault::BadSignature);
        }
        if track[3] != number {
            return Some(ScpTrackFault::BadNumber(track[3]));
        }
        None
    }

    /// What the header says of a revolution.
    pub fn revolution(&self, revolution: u8) -> Revolution
        requires { head_size (revolution + 1) ≤ length self.now }
        ensures { result ≡ revolution_at self.now revolution }
    {
        let at = 4 + 12 * usize::from(revolution);
        let track = self.bytes();
        Revolution {
            duration: LittleEndian::read_u32(&track[at..]),
            entries: LittleEndian::read_u32(&track[at + 4..]),
            offset: LittleEndian::read_u32(&track[at + 8..]),
        }
    }

    /// The bytes that the file has of the header.
    fn bytes(&self) -> &[u8]
        ensures value { result.now ≡ self.now }
        ensures bound { length result.now ≤ 3064 }
    {
        &self.bytes[..self.filled]
    }
}
