ghost use Rattle.std.specs.Prelude.{◌≡◌, ℕ, ◌≤◌, List, length, IfNone, IfSome};
ghost use Rattle.flux_base.specs.declared.header_name.HeaderName.{HeaderName};
ghost use Rattle.commodore_gcr.specs.Coding.{BytesAt};
ghost use Rattle.commodore_gcr.specs.Sectors.{Names, header_block as block_of_header};
ghost use Rattle.commodore_gcr.specs.Zones.{IsCommodoreTrack};

use crate::fields::byte_at;
use crate::layout::{HEADER_BYTE, HEADER_FILL};
use crate::recording::CommodoreGcr;
use crate::zones::track_number;
use check_values::xor_bytes;
use flux_base::{HeaderName, TrackId};
use frame_law::CellsFrom;

/// What the header at the front of the cells, which are as many as one has, names. None where it is none, or its check
/// value is another.
pub(crate) fn header_name(frame: &CellsFrom) -> Option<HeaderName>
    requires { 70 ≤ length frame.now }
    ensures named { IfSome result (λ name. Names frame.now name) }
    ensures none { IfNone result ((name : HeaderName) → ¬ Names frame.now name) }
{
    let [first, check, sector, track, id2, id1] = header_bytes_at(frame)?;
    if first != HEADER_BYTE {
        return None;
    }
    if check != xor_bytes(&[sector, track, id2, id1]) {
        return None;
    }
    Some(HeaderName::TrackSector { track, sector })
}

/// The six bytes after the sync at the front of the cells. None where one of them is not two codes.
fn header_bytes_at(frame: &CellsFrom) -> Option<[u8; 6]>
    requires { 70 ≤ length frame.now }
    ensures size { IfSome result (λ header. length header ≡ 6) }
    ensures bytes { IfSome result (λ header. BytesAt frame.now 10 header) }
    ensures none { IfNone result ((header : List ℕ) → length header ≡ 6 → ¬ BytesAt frame.now 10 header) }
{
    Some([
        byte_at(frame, 10)?,
        byte_at(frame, 20)?,
        byte_at(frame, 30)?,
        byte_at(frame, 40)?,
        byte_at(frame, 50)?,
        byte_at(frame, 60)?,
    ])
}

/// The header block of a sector.
pub(crate) fn header_block(disk: CommodoreGcr, track: TrackId, sector: u8) -> [u8; 8]
    requires { IsCommodoreTrack disk.drive track }
    ensures { result ≡ block_of_header disk.drive disk.id1 disk.id2 track sector }
{
    let CommodoreGcr { drive, id1, id2 } = disk;
    let number = track_number(drive, track);
    let check = xor_bytes(&[sector, number, id2, id1]);
    [
        HEADER_BYTE,
        check,
        sector,
        number,
        id2,
        id1,
        HEADER_FILL,
        HEADER_FILL,
    ]
}
