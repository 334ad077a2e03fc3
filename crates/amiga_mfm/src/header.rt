ghost use Rattle.std.specs.Prelude.{◌≡◌, ℕ, ◌≤◌, length, IfNone, IfSome};
ghost use Rattle.flux_base.specs.declared.header_name.HeaderName.{HeaderName};
ghost use Rattle.amiga_mfm.specs.Disks.{IsAmigaTrack};
ghost use Rattle.amiga_mfm.specs.Sectors.{Names, track_number as number_of_track};

use crate::layout::{FORMAT_BYTE, HALF_CELLS, HEADER_CHECK, HEADER_HALVES, INFO};
use crate::longs::{check_at, read_long};
use flux_base::{HeaderName, TrackId};
use frame_law::CellsFrom;

/// What the header at the front of the cells, which are as many as one has, names. None where it is none, or its check
/// value is another.
pub(crate) fn header_name(frame: &CellsFrom) -> Option<HeaderName>
    requires { 480 ≤ length frame.now }
    ensures named { IfSome result (λ name. Names frame.now name) }
    ensures none { IfNone result ((name : HeaderName) → ¬ Names frame.now name) }
{
    let [format, track, sector, _to_gap] = read_long(frame, INFO, HALF_CELLS).to_be_bytes();
    if format != FORMAT_BYTE {
        return None;
    }
    let check = read_long(frame, HEADER_CHECK, HALF_CELLS);
    if check != check_at(frame, INFO, HEADER_HALVES) {
        return None;
    }
    Some(HeaderName::TrackSector { track, sector })
}

/// The number by which a header names its track.
pub(crate) fn track_number(track: TrackId) -> u8
    requires { IsAmigaTrack track }
    ensures { result ≡ number_of_track track }
{
    2 * track.cylinder + track.head
}
