ghost use Rattle.std.specs.Prelude.{◌≡◌, ℕ, ◌+◌, ◌/◌, ◌%◌, ◌<◌, ◌≤◌, get_or, length, sum_by, take, slice_get, Some};
ghost use Rattle.sector_images.specs.Formats.{row, slot, track_order, zone};
ghost use Rattle.sector_images.specs.Places.{IsTrack, IsSector, tracks, bytes_of, place_of, sector_in, sector_place};
ghost use Rattle.sector_images.specs.Places.{sectors_before as sectors_before_in};
ghost use Rattle.sector_images.specs.Places.{sectors_before_track as sectors_before_track_in};

use crate::format::{Format, TrackOrder};
use flux_base::TrackId;

/// The bytes of an image, which are those of all its tracks.
pub fn image_size(format: Format) -> u32
    ensures table { result ≡ (row format).image_size }
    ensures sum { result ≡ sum_by (bytes_of format) (tracks format) }
{
    format.geometry().image_size
}

/// The number of tracks.
pub fn track_count(format: Format) -> u32
    ensures { result ≡ length (tracks format) }
{
    let geometry = format.geometry();
    u32::from(geometry.cylinders) * u32::from(geometry.heads)
}

/// The track of this number from 0, in the format's order: cylinder, then head, or for a Commodore 1571's or 8250's
/// disk head, then cylinder.
pub fn track_id(format: Format, number: u32) -> TrackId
    requires { number < length (tracks format) }
    ensures at { slice_get (tracks format) number ≡ Some result }
    ensures track { IsTrack format result }
{
    let geometry = format.geometry();
    match format.track_order() {
        TrackOrder::ByCylinder => {
            let (cylinder, head) = split(number, geometry.heads);
            TrackId { cylinder, head }
        }
        TrackOrder::ByHead => {
            let (head, cylinder) = split(number, geometry.cylinders);
            TrackId { cylinder, head }
        }
    }
}

/// How often a number has so many, and what is left.
fn split(number: u32, count: u8) -> (u8, u8)
    requires some { 1 ≤ count }
    requires few { number / count < 256 }
    ensures often { result.0 ≡ number / count }
    ensures left { result.1 ≡ number % count }
{
    let count = u32::from(count);
    ((number / count) as u8, (number % count) as u8)
}

/// The bytes of a track.
pub fn track_bytes(format: Format, track: TrackId) -> u32
    requires { IsTrack format track }
    ensures { result ≡ bytes_of format track }
{
    u32::from(format.zone(track.cylinder).sectors) * u32::from(format.geometry().sector_size)
}

/// The place of a track's first byte in the image.
pub fn track_place(format: Format, track: TrackId) -> u32
    requires { IsTrack format track }
    ensures place { result ≡ place_of format track }
    ensures within { result + bytes_of format track ≤ (row format).image_size }

    // After a number of whole tracks stands the track of that number.
    ensures joined { (number : ℕ) → slice_get (tracks format) number ≡ Some track
        → result ≡ sum_by (bytes_of format) (take number (tracks format)) }
{
    sectors_before_track(format, track) * u32::from(format.geometry().sector_size)
}

/// The sectors of all tracks before this one.
fn sectors_before_track(format: Format, track: TrackId) -> u32
    requires { IsTrack format track }
    ensures { result ≡ sectors_before_track_in (track_order format) format track }
{
    let geometry = format.geometry();
    let before = sectors_before(format, track.cylinder);
    let head = u32::from(track.head);
    match format.track_order() {
        TrackOrder::ByCylinder => {
            let sectors = u32::from(format.zone(track.cylinder).sectors);
            before * u32::from(geometry.heads) + head * sectors
        }
        TrackOrder::ByHead => head * sectors_before(format, geometry.cylinders) + before,
    }
}

/// The sectors of one head on all cylinders before this one.
fn sectors_before(format: Format, cylinder: u8) -> u32
    requires { cylinder ≤ (row format).cylinders }
    ensures before { result ≡ sectors_before_in format cylinder }
    ensures few { result < 65536 }
{
    let mut sectors = 0;
    for before in 0..cylinder {
        sectors += u32::from(format.zone(before).sectors);
    }
    sectors
}

/// The place of a sector's first byte in the image.
pub fn image_place(format: Format, track: TrackId, sector: u8) -> u32
    requires track { IsTrack format track }
    requires sector { IsSector format track sector }
    ensures place { result ≡ sector_place format track sector }
    ensures within { result + (row format).sector_size ≤ (row format).image_size }
{
    let size = u32::from(format.geometry().sector_size);
    track_place(format, track) + size * u32::from(slot(format, track, sector))
}

/// Where a sector stands among those of its track in the image, from 0.
fn slot(format: Format, track: TrackId, sector: u8) -> u8
    requires { IsSector format track sector }
    ensures { result ≡ slot format sector }
{
    let geometry = format.geometry();
    match geometry.order {
        Some(order) => order[usize::from(sector)],
        None => sector - geometry.first_sector,
    }
}

/// The sector that stands at this number, from 0, among those of the track in the image.
pub fn image_sector(format: Format, track: TrackId, number: u8) -> u8
    requires track { IsTrack format track }
    requires number { number < (zone format track.cylinder).sectors }
    ensures first { result ≡ sector_in format track number }
    ensures sector { IsSector format track result }
    ensures slot { slot format result ≡ number }
{
    let geometry = format.geometry();
    match geometry.order {
        Some(order) => holder(order, number),
        None => geometry.first_sector + number,
    }
}

/// The sector at which a number stands in an order.
fn holder(order: &[u8; 16], number: u8) -> u8
    requires { (sector : ℕ) × (sector < 16) × (get_or order.now sector 0 ≡ number) }
    ensures within { result < 16 }
    ensures holds { get_or order.now result 0 ≡ number }
{
    let mut sector = 0;
    while order[usize::from(sector)] != number {
        sector += 1;
    }
    sector
}

/// The nominal cell of a track in fine units.
pub fn nominal(format: Format, track: TrackId) -> u32
    requires { IsTrack format track }
    ensures { result ≡ (zone format track.cylinder).nominal }
{
    format.zone(track.cylinder).nominal
}

/// The cells of a track's ring.
pub fn ring_cells(format: Format, track: TrackId) -> u32
    requires { IsTrack format track }
    ensures { result ≡ (zone format track.cylinder).ring_cells }
{
    format.zone(track.cylinder).ring_cells
}
