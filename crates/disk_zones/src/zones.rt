ghost use Rattle.std.specs.Prelude.{◌≡◌};
ghost use Rattle.disk_zones.specs.Zones.{commodore_8050_zone as zone_of_8050, commodore_zone as zone_of_commodore};
ghost use Rattle.disk_zones.specs.Zones.{macintosh_zone as zone_of_macintosh};

/// A zone of a disk: what tracks of neighbouring cylinders have in common.
#[derive(Clone, Copy, Debug)]
pub struct Zone {
    /// The sectors of a track.
    pub sectors: u8,
    /// The nominal cell in fine units.
    pub nominal: u32,
    /// The cells of a whole written track.
    pub ring_cells: u32,
}

/// The zone of a cylinder of a Commodore 1541's disk, which is the track of the next number. The drive writes the
/// outer ones with shorter cells.
#[tactic(auto, unfolding(crate::specs::Zones::commodore_zone))]
pub fn commodore_zone(cylinder: u8) -> Zone
    ensures { result ≡ zone_of_commodore cylinder }
{
    match cylinder {
        0..=16 => Zone {
            sectors: 21,
            nominal: 79963,
            ring_cells: 61488,
        },
        17..=23 => Zone {
            sectors: 19,
            nominal: 86114,
            ring_cells: 57000,
        },
        24..=29 => Zone {
            sectors: 18,
            nominal: 92265,
            ring_cells: 53280,
        },
        _ => Zone {
            sectors: 17,
            nominal: 98416,
            ring_cells: 49912,
        },
    }
}

/// The zone of a cylinder of a Commodore 8050's disk, of one head or of the 8250's two. Its drive divides a clock of
/// 12 MHz by 26 to 32.
#[tactic(auto, unfolding(crate::specs::Zones::commodore_8050_zone))]
pub fn commodore_8050_zone(cylinder: u8) -> Zone
    ensures { result ≡ zone_of_8050 cylinder }
{
    match cylinder {
        0..=38 => Zone {
            sectors: 29,
            nominal: 53308,
            ring_cells: 92104,
        },
        39..=52 => Zone {
            sectors: 27,
            nominal: 57409,
            ring_cells: 85536,
        },
        53..=63 => Zone {
            sectors: 25,
            nominal: 61510,
            ring_cells: 80000,
        },
        _ => Zone {
            sectors: 23,
            nominal: 65610,
            ring_cells: 74888,
        },
    }
}

/// The zone of a cylinder of a Macintosh's disk, of one head or two. The drive turns faster for the inner ones; the
/// nominal cells are those of a drive that makes 300 turns a minute for all of them, as captures have them.
#[tactic(auto, unfolding(crate::specs::Zones::macintosh_zone))]
pub fn macintosh_zone(cylinder: u8) -> Zone
    ensures { result ≡ zone_of_macintosh cylinder }
{
    match cylinder {
        0..=15 => Zone {
            sectors: 12,
            nominal: 63951,
            ring_cells: 76946,
        },
        16..=31 => Zone {
            sectors: 11,
            nominal: 69613,
            ring_cells: 70688,
        },
        32..=47 => Zone {
            sectors: 10,
            nominal: 76612,
            ring_cells: 64230,
        },
        48..=63 => Zone {
            sectors: 9,
            nominal: 85220,
            ring_cells: 57742,
        },
        _ => Zone {
            sectors: 8,
            nominal: 95765,
            ring_cells: 51384,
        },
    }
}
