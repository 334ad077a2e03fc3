//! What the contents of a sector come to that are kept of all its readings.

ghost use Rattle.sector_copies.specs.Laws.{CopiesAreNamed, CopiesAreOne, CopiesAreTheContents, ShownIsOne};

use flux_engine::{plans_are_right, rules_are_read};

/// Each of the contents that are kept of a sector names a place of a dump and a clock whose cells hold the sector with
/// these bytes. Where they are fewer than 16 none is left out: no place of any dump and any clock holds the sector with
/// other bytes. The streams decide them.
pub fn copies_are_right()
    ensures named { CopiesAreNamed }
    ensures contents { CopiesAreTheContents }
    ensures one { CopiesAreOne }
{
    rules_are_read();
    plans_are_right()
}

/// Where the streams of a track have lists of all that can be read in them, which reading them makes, the files on the
/// shelf decide what is shown of a sector: it is one at most.
pub fn shown_sectors_are_one()
    ensures { ShownIsOne }
{}
