ghost use Rattle.std.specs.Prelude.{◌≡◌, ◌≤◌};
ghost use Rattle.flux_engine.specs.Plans.{decoding, rescuing, set_plan as plan_of_set};

use sector_report::Naming;

/// By which clocks the cells of each stream are recovered.
#[derive(Clone, Copy, Debug)]
pub enum Clocks {
    /// By the one that follows the drive's speed.
    FollowingAlone,
    /// By that one, and then by the one that is held.
    Both,
}

/// What of the cells of a track counts as a sector.
#[derive(Clone, Copy, Debug)]
pub enum Rule {
    /// A header and the data at the first sync after it, whole and unbroken together.
    Strict,
    /// As disk controllers read: a header, and all whole data up to the next one, each unbroken itself. So a sector
    /// that another drive wrote again is read.
    Controller,
}

/// How the streams of a disk are read. A stream with a fault ends the disk.
#[derive(Clone, Copy, Debug)]
pub struct Plan {
    /// How many streams capture each track, 1 to 16. They follow one another.
    pub captures: u8,
    pub rule: Rule,
    pub clocks: Clocks,
    /// How the lines name the places of readings.
    pub naming: Naming,
}

/// The plan of a disk that is decoded: one stream of each track, by the clock that follows the drive,
/// and lines that name no source.
pub fn decoding_plan() -> Plan
    ensures { result ≡ decoding }
{
    Plan {
        captures: 1,
        rule: Rule::Strict,
        clocks: Clocks::FollowingAlone,
        naming: Naming::Unnamed,
    }
}

/// The plan of a set: so many streams of each track, by the clock that follows the drive,
/// and lines that name the capture.
pub fn set_plan(count: u32) -> Plan
    requires { count ≤ 16 }
    ensures { result ≡ plan_of_set count }
{
    Plan {
        captures: count as u8,
        naming: Naming::ByCapture,
        ..decoding_plan()
    }
}

/// The plan of a rescued disk: one stream of each track, by both clocks, and lines that name the clock.
pub fn rescue_plan() -> Plan
    ensures { result ≡ rescuing }
{
    Plan {
        clocks: Clocks::Both,
        naming: Naming::ByClock,
        ..decoding_plan()
    }
}
