//! What dumps come to that capture a disk's tracks.

ghost use Rattle.law_captured_dumps.specs.Headline.{CapturedDumpsAreNeverWrong, SteadyDumpsAreReadWell};

use disk_recordings::{DiskRecording, rewritten_tracks_have_only_own, tracks_have_rings};
use flux_engine::{captures_are_recovered, rules_are_read, steady_captures_are_recovered};
use kryo_stream::growth_law;
use law_decoded_rings::own_sectors_are_right;
use law_read_dumps::dumps_say_each_sector;
use sector_images::sectors_lie_in_images;

/// A sector that one dump has whole, since its file captures the track, or captures it in part with the sector between
/// two erased stretches, and did not fail, is never wrong unsaid, whatever the other files are: it is good with its own
/// bytes, or contradictory. Where all files of the track capture it, whole or in part, or are passed over, and the
/// drives kept their speed, it is good with its own bytes.
pub fn captured_dumps_are_read()
    ensures never_wrong { CapturedDumpsAreNeverWrong }
    ensures well { SteadyDumpsAreReadWell }
{
    dumps_say_each_sector();
    own_sectors_are_right::<DiskRecording>();
    rules_are_read();
    tracks_have_rings();
    rewritten_tracks_have_only_own();
    growth_law();
    captures_are_recovered();
    steady_captures_are_recovered();
    sectors_lie_in_images()
}
