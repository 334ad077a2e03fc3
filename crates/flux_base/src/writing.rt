ghost use Rattle.flux_base.specs.Moments.{Puts};
ghost use Rattle.flux_base.specs.World.{sink_at};

use crate::outside::{Failed, Sink};

/// Writes until the whole piece is taken. After `Failed` a prefix of the piece was taken that is shorter
/// than the piece.
pub fn write_whole<W: Sink>(sink: &mut W, piece: &[u8]) -> Result<(), Failed>
    ensures { Puts (sink_at W.Sink sink.old) (sink_at W.Sink sink.new) piece.now result }
{
    let mut rest = piece;
    while !rest.is_empty() {
        match sink.write(rest) {
            Ok(taken) => rest = &rest[taken..],
            Err(failed) => return Err(failed),
        }
    }
    Ok(())
}
