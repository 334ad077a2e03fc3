//! Disks whose outer tracks have more sectors than the inner ones: their zones, once for the formats and for the
//! recordings. No call takes memory.
#![tactic(auto)]

mod zones;

pub use zones::{Zone, commodore_8050_zone, commodore_zone, macintosh_zone};
