//! Where the parts of a picture lie. All lengths are in the picture's own units, of which a
//! field has 12 across and 12 down.

ghost use Rattle.std.specs.Prelude.{◌≡◌, ◌≤◌};
ghost use Rattle.disk_map.specs.Places.{across, down, field_top, foot_top, height_of, layout_of, left_of};
ghost use Rattle.disk_map.specs.Places.{numbers_across, top_of, width_of};

use flux_base::TrackId;
use flux_engine::sectors_of;
use sector_images::{Format, track_count, track_id, tracks_keep_bounds};

/// What the places of a picture hang on: its last cylinder and head, the number of the first sector of a track, and the
/// most sectors of a track, which the first one has.
#[derive(Clone, Copy, Debug, PartialEq, Eq)]
pub struct Layout {
    /// The disk's last track.
    pub last: TrackId,
    /// The number of a track's first sector.
    pub first: u8,
    /// The sectors of the first track.
    pub rows: u8,
}

impl Layout {
    /// The layout of a format's disks.
    pub fn of_format(format: Format) -> Layout
        ensures { result ≡ layout_of format }
    {
        tracks_keep_bounds();
        let sectors = sectors_of(format, track_id(format, 0));
        Layout {
            last: track_id(format, track_count(format) - 1),
            first: sectors.first,
            rows: sectors.count,
        }
    }

    /// How wide a grid is.
    pub(crate) fn across(self) -> u32
        ensures { result ≡ across self }
    {
        12 * (u32::from(self.last.cylinder) + 1)
    }

    /// How high a grid is.
    pub(crate) fn down(self) -> u32
        ensures { result ≡ down self }
    {
        12 * u32::from(self.rows)
    }

    /// How wide the row of cylinders' numbers above a grid is: a unit less than the grid, since the number of the
    /// cylinder behind the last one would begin there.
    pub(crate) fn numbers_across(self) -> u32
        ensures { result ≡ numbers_across self }
    {
        12 * u32::from(self.last.cylinder) + 11
    }

    /// The top of the grid of a head.
    pub(crate) fn top(self, head: u32) -> u32
        requires { head ≤ 255 }
        ensures { result ≡ top_of self head }
    {
        56 + head * (self.down() + 48)
    }

    /// The top of the legend, below all grids.
    pub(crate) fn foot_top(self) -> u32
        ensures { result ≡ foot_top self }
    {
        70 + self.down() + u32::from(self.last.head) * (self.down() + 48)
    }

    /// How wide the picture is.
    pub(crate) fn width(self) -> u32
        ensures { result ≡ width_of self }
    {
        56 + self.across()
    }

    /// How high the picture is.
    pub(crate) fn height(self) -> u32
        ensures { result ≡ height_of self }
    {
        self.foot_top() + 88
    }

    /// The upper left corner of a sector's field: how far from the left.
    pub(crate) fn left(self, track: TrackId) -> u32
        ensures { result ≡ left_of track }
    {
        40 + 12 * u32::from(track.cylinder)
    }

    /// And how far from the top.
    pub(crate) fn field_top(self, track: TrackId, sector: u8) -> u32
        ensures { result ≡ field_top self track sector }
    {
        self.top(u32::from(track.head)) + 12 * u32::from(sector.saturating_sub(self.first))
    }
}
