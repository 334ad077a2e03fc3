//! The revolutions of all files of a dump, measured and not told.

ghost use Rattle.std.specs.Prelude.{◌≡◌, ◌<◌, length, IfSome};
ghost use Rattle.dump_reading.specs.Files.{shelf_at};
ghost use Rattle.dump_turns.specs.Files.{found_at};
ghost use Rattle.dump_turns.specs.Lines.{uneven_mean};
ghost use Rattle.dump_turns.specs.Outcomes.{SaysOfMeasuring};
ghost use Rattle.dump_turns.specs.Spreads.{IsBoundedSpread};

use crate::reach::{Reach, find_reach};
use crate::room::TurnsRoom;
use crate::spread::Spread;
use crate::telling::{spread_among, tell_files, totals};
use crate::totals::TurnTotals;
use flux_base::{CountingSink, Failed, Word};
use track_shelf::Shelf;

/// What was measured of a dump, beside what was found of each of its files.
#[derive(Clone, Copy, Debug, PartialEq, Eq)]
pub struct DumpTurns {
    pub reach: Reach,
    /// None, where no file is read.
    pub spread: Option<Spread>,
    pub totals: TurnTotals,
}

/// Measures the revolutions of a dump's files as `tell_turns` does, and leaves in the room what is found of each, in
/// the place of what was found before. None, where the dump has no file of any such track. A file that fails is passed
/// over, and counted.
pub fn measure_turns<H: Shelf>(
    dump: &Word,
    room: &mut TurnsRoom,
    shelf: &mut H,
) -> Option<DumpTurns>
    ensures says { SaysOfMeasuring dump.now (shelf_at H.Source H.Shelf.own shelf.old)
        (shelf_at H.Source H.Shelf.own shelf.new) room.new result }
    ensures bounded { IfSome result (λ turns. IfSome turns.spread IsBoundedSpread) }
{
    let Some(reach) = find_reach(dump.bytes(), shelf) else {
        return None;
    };
    let mut nothing = CountingSink::new();
    match tell_files(
        dump,
        reach,
        &mut room.buffer,
        &mut room.stream,
        &mut room.founds,
        shelf,
        &mut nothing,
    ) {
        Ok(()) => {}
        // No line is kept.
        Err(Failed) => unreachable!(),
    }
    let spread = spread_among(&room.founds, &mut room.means);
    let totals = totals(&room.founds, &spread);
    Some(DumpTurns {
        reach,
        spread,
        totals,
    })
}

impl TurnsRoom {
    /// The mean revolution of the file of a number, where it is far from the median, if there is one.
    pub fn uneven_mean(&self, number: u8, spread: &Option<Spread>) -> Option<u64>
        requires number { number < length self.now }
        requires spread { IfSome spread.now IsBoundedSpread }
        ensures { result ≡ uneven_mean spread.now (found_at self.now number) }
    {
        self.founds[usize::from(number)].uneven_mean(spread)
    }
}
