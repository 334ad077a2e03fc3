ghost use Rattle.std.specs.Prelude.{◌≡◌, ◌<◌, ◌≤◌, ◌^◌};
ghost use Rattle.scp_files.specs.Units.{entry_units as units_of_entry, ticks_of};

/// How many units an entry of 0 adds, which is no transition.
const OVERFLOW_UNITS: u64 = 65536;

/// How many units an entry adds.
#[inline]
pub(crate) fn entry_units(value: u16) -> u64
    ensures value { result ≡ units_of_entry value }
    ensures most { result ≤ 65536 }
{
    match value {
        0 => OVERFLOW_UNITS,
        _ => u64::from(value),
    }
}

/// Units in ticks, to the nearest whole one.
#[inline]
pub(crate) fn ticks(resolution: u8, units: u64) -> u64
    requires { units < 2 ^ 40 }
    ensures { result ≡ ticks_of resolution units }
{
    let scaled = units * (u64::from(resolution) + 1);
    (2 * scaled * 2628 + 4375) / 8750
}
