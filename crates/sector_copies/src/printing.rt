//! What is printed of a sector.

ghost use Rattle.std.specs.Prelude.{◌≤◌, ◌<◌, ◌++◌, length};
ghost use Rattle.flux_base.specs.Bounds.{MOST_SECTOR_BYTES};
ghost use Rattle.flux_base.specs.Moments.{Puts};
ghost use Rattle.flux_base.specs.World.{sink_at};
ghost use Rattle.sector_copies.specs.Texts.{copies_text, copy_text, head_text, rows_text};

use crate::copies::SectorCopy;
use crate::lines::{head_line, row_line};
use flux_base::{Failed, Sink, write_whole};
use sector_report::write_line;

/// Writes each content with its number, as `copy_text` says.
pub(crate) fn write_copies<W: Sink>(copies: &[SectorCopy], sink: &mut W) -> Result<(), Failed>
    ensures { Puts (sink_at W.Sink sink.old) (sink_at W.Sink sink.new) (copies_text copies.now) result }
{
    for number in 0..copies.len() {
        match write_copy_at(copies, number, sink) {
            Ok(()) => {}
            Err(failed) => return Err(failed),
        }
    }
    Ok(())
}

/// Writes the content of this number.
fn write_copy_at<W: Sink>(copies: &[SectorCopy], number: usize, sink: &mut W) -> Result<(), Failed>
    requires { number < length copies.now }
    ensures { Puts (sink_at W.Sink sink.old) (sink_at W.Sink sink.new) (copy_text copies.now number) result }
{
    write_copy(&copies[0], number, &copies[number], sink)
}

/// Writes one content: what is told of it, and its rows against those of the first.
fn write_copy<W: Sink>(
    first: &SectorCopy,
    number: usize,
    copy: &SectorCopy,
    sink: &mut W,
) -> Result<(), Failed>
    ensures { Puts (sink_at W.Sink sink.old) (sink_at W.Sink sink.new)
        (head_text number copy.now.readings copy.now.first ++ rows_text first.now.bytes copy.now.bytes) result }
{
    match write_line(sink, &head_line(number, copy.readings(), copy.first())) {
        Ok(()) => write_rows(first.bytes(), copy.bytes(), sink),
        Err(failed) => Err(failed),
    }
}

/// Writes the rows of a content against those of the first.
fn write_rows<W: Sink>(first: &[u8], bytes: &[u8], sink: &mut W) -> Result<(), Failed>
    requires { length bytes.now ≤ MOST_SECTOR_BYTES }
    ensures { Puts (sink_at W.Sink sink.old) (sink_at W.Sink sink.new) (rows_text first.now bytes.now) result }
{
    for number in 0..(bytes.len() + 15) / 16 {
        match write_whole(sink, row_line(first, bytes, number).as_slice()) {
            Ok(()) => {}
            Err(failed) => return Err(failed),
        }
    }
    Ok(())
}
