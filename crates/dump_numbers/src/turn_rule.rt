//! Which of the two rates of one cell data are of.

ghost use Rattle.std.specs.Prelude.{◌≡◌, ◌+◌, ◌<◌, length};
ghost use Rattle.dump_numbers.specs.TurnRule.{is_high as is_high_in, is_of_rate as is_of_rate_in};
ghost use Rattle.dump_numbers.specs.inside.Header.{IsFound};

use crate::header::FoundHeader;
use ibm_disks::Rate;

/// Whether data are of a header's rate that stand behind it: by how many cells a turn has that is as fast as the drive
/// was between them, where the rate shares its cell with another one.
pub(crate) fn is_of_rate(header: &FoundHeader, behind: usize) -> bool
    requires header { IsFound header.now }
    requires within { header.now.place + behind < length header.now.cells.now.cells }
    ensures { result ≡ is_of_rate_in header.now.rate header.now.flux.now.times header.now.flux.now.indexes
        header.now.cells.now.cells header.now.place behind }
{
    match header.rate {
        Rate::High => is_high(header, behind),
        Rate::HighAt360 => !is_high(header, behind),
        Rate::Double | Rate::Single | Rate::SingleAt360 => true,
    }
}

/// Whether a turn has at least 183328 cells by the cells and the time between two places. The last of the ones up to
/// each place is the transition whose time is the place's.
fn is_high(header: &FoundHeader, behind: usize) -> bool
    requires header { IsFound header.now }
    requires within { header.now.place + behind < length header.now.cells.now.cells }
    ensures { result ≡ is_high_in header.now.flux.now.times header.now.flux.now.indexes header.now.cells.now.cells
        header.now.place behind }
{
    let turn = u128::from(header.flux.first_turn_ticks());
    let from = header.place + 1;
    let ones_behind = header.ones_to + header.cells.ones_between(from, from + behind);
    let times = header.flux.times();
    let time = times[ones_behind - 1].saturating_sub(times[header.ones_to - 1]);
    183328 * u128::from(time) <= behind as u128 * turn
}
