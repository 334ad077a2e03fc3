ghost use Rattle.std.specs.Prelude.{◌≡◌};
ghost use Rattle.commodore_gcr.specs.Layout.{gap_bytes};
ghost use Rattle.commodore_gcr.specs.Zones.{IsCommodoreTrack, track_number as number_of_track};
ghost use Rattle.commodore_gcr.specs.Zones.{zone_of as zone_of_track};

use crate::drive::CommodoreDrive;
use crate::layout::SECTOR_CELLS;
use disk_zones::{Zone, commodore_8050_zone, commodore_zone};
use flux_base::TrackId;

/// The zone of a track.
pub(crate) fn zone_of(drive: CommodoreDrive, track: TrackId) -> Zone
    ensures { result ≡ zone_of_track drive track }
{
    match drive {
        CommodoreDrive::C1541 => commodore_zone(track.cylinder),
        CommodoreDrive::C8050 => commodore_8050_zone(track.cylinder),
    }
}

/// The bytes of the gap after each sector of the track.
pub(crate) fn zone_gap(drive: CommodoreDrive, track: TrackId) -> u8
    ensures { result ≡ gap_bytes (zone_of_track drive track) }
{
    let zone = zone_of(drive, track);
    let each = zone.ring_cells / u32::from(zone.sectors);
    ((each - SECTOR_CELLS) / 8) as u8
}

/// The number of a track, as headers have it: from 1 on, and with head 1 from 36 or 78 on.
pub(crate) fn track_number(drive: CommodoreDrive, track: TrackId) -> u8
    requires { IsCommodoreTrack drive track }
    ensures { result ≡ number_of_track drive track }
{
    track.cylinder + 1 + drive.side_tracks() * track.head
}
