ghost use Rattle.std.specs.Prelude.{◌≡◌, ℕ, ◌+◌, ◌*◌, ◌/◌, ◌<◌, ◌≤◌, List, length, IfNone, IfSome};
ghost use Rattle.macintosh_gcr.specs.Coding.{AreSixBits};
ghost use Rattle.macintosh_gcr.specs.Layout.{format_of};
ghost use Rattle.macintosh_gcr.specs.Sectors.{IsMacintoshTrack, IsNameOf, Names, NibblesAt};
ghost use Rattle.macintosh_gcr.specs.Sectors.{header_values as values_of_header};
ghost use Rattle.flux_base.specs.declared.header_name.HeaderName.{HeaderName};

use crate::layout::NAME_PLACE;
use crate::recording::MacintoshGcr;
use apple_nibbles::{disk_byte_at, value_of};
use check_values::xor_bytes;
use flux_base::{HeaderName, TrackId};
use frame_law::CellsFrom;

/// What the header at the front of the cells, which are as many as one has, names. None where it is none, or its check
/// value is another.
pub(crate) fn header_name(frame: &CellsFrom) -> Option<HeaderName>
    requires { 64 ≤ length frame.now }
    ensures named { IfSome result (λ name. Names frame.now name) }
    ensures none { IfNone result ((name : HeaderName) → ¬ Names frame.now name) }
{
    let [low, sector, side, format, check] = header_values_at(frame)?;
    if check != xor_bytes(&[low, sector, side, format]) {
        return None;
    }
    Some(HeaderName::TrackSectorSide {
        track: low,
        sector,
        side,
        format,
    })
}

/// The sector of this track that has the name, whatever the disk's format.
pub(crate) fn sector_named(track: TrackId, name: HeaderName) -> Option<u8>
    requires cylinder { track.cylinder < 80 }
    requires head { track.head < 2 }
    ensures named { IfSome result (λ sector. IsNameOf track name sector) }
    ensures none { IfNone result ((sector : ℕ) → ¬ IsNameOf track name sector) }
{
    name.sector_of_side(track.cylinder % 64, side_value(track))
}

/// The five values after the mark at the front of the cells. None where one of them is no nibble.
fn header_values_at(frame: &CellsFrom) -> Option<[u8; 5]>
    requires { 64 ≤ length frame.now }
    ensures size { IfSome result (λ values. length values ≡ 5) }
    ensures fit { IfSome result (λ values. AreSixBits values) }
    ensures stand { IfSome result (λ values. NibblesAt frame.now 24 values) }
    ensures none { IfNone result
        ((values : List ℕ) → length values ≡ 5 → AreSixBits values → ¬ NibblesAt frame.now 24 values) }
{
    Some([
        value_of(disk_byte_at(frame, NAME_PLACE))?,
        value_of(disk_byte_at(frame, NAME_PLACE + 8))?,
        value_of(disk_byte_at(frame, NAME_PLACE + 16))?,
        value_of(disk_byte_at(frame, NAME_PLACE + 24))?,
        value_of(disk_byte_at(frame, NAME_PLACE + 32))?,
    ])
}

/// The head and the seventh bit of the cylinder.
fn side_value(track: TrackId) -> u8
    requires cylinder { track.cylinder < 80 }
    requires head { track.head < 2 }
    ensures { result ≡ 32 * track.head + track.cylinder / 64 }
{
    32 * track.head + track.cylinder / 64
}

/// The values of a sector's header on this disk.
pub(crate) fn header_values(disk: MacintoshGcr, track: TrackId, sector: u8) -> [u8; 5]
    requires { IsMacintoshTrack disk track }
    ensures { result ≡ values_of_header track sector (format_of disk) }
{
    let low = track.cylinder % 64;
    let high = side_value(track);
    let format = disk.format();
    let check = xor_bytes(&[low, sector, high, format]);
    [low, sector, high, format, check]
}
