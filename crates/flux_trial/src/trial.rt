ghost use Rattle.std.specs.Prelude.{◌≡◌, ℕ, ◌≤◌, List, false, length, sum};
ghost use Rattle.flux_base.specs.Moments.{Puts};
ghost use Rattle.flux_base.specs.World.{sink_at};
ghost use Rattle.flux_trial.specs.Tracks.{IsTrialLine};

use crate::room::TrialRoom;
use flux_base::{CountingSink, Failed, Sink};
use flux_engine::{decode_planned, decoding_plan, images_have_rings};
use flux_writer::written_law;
use kryo_stream::{growth_law, joined_law};
use law_captured_plans::planned_parts_fit_images;
use sector_images::{sectors_lie_in_images, track_count, tracks_keep_bounds};
use sector_report::{trial_line, write_line};

/// Runs the trial of a number: makes its image and for each track the stream of its drive, decodes these,
/// and writes the line with the totals and the sum of the decoded image's bytes. No answer is for want of
/// memory, and a room serves once.
///
/// `Failed` comes only where the sink's count of faults rose. Then a shorter part of the line was written.
pub fn run_trial<W: Sink>(room: &mut TrialRoom, seed: u32, sink: &mut W) -> Result<(), Failed>
    requires { room.old.used ≡ false }
    ensures { (line : List ℕ) × IsTrialLine room.old.format seed line
        × Puts (sink_at W.Sink sink.old) (sink_at W.Sink sink.new) line result }
{
    written_law();
    growth_law();
    joined_law();
    tracks_keep_bounds();
    sectors_lie_in_images();
    images_have_rings();
    planned_parts_fit_images();
    room.used = true;
    room.source.start(seed);
    let mut notes = CountingSink::new();
    match decode_planned(
        decoding_plan(),
        &mut room.disk,
        &mut room.source,
        &mut room.image,
        &mut notes,
    ) {
        Ok(totals) => {
            let sum = sum_of(room.image.bytes());
            let tracks = track_count(room.format);
            write_line(sink, &trial_line(room.format, seed, tracks, &totals, sum))
        }
        // Neither source nor sinks fail, and no stream has a fault.
        Err(_) => unreachable!(),
    }
}

/// The sum of bytes.
fn sum_of(bytes: &[u8]) -> u64
    requires { length bytes.now ≤ 4194304 }
    ensures value { result ≡ sum bytes.now }
{
    let mut total = 0;
    for byte in bytes {
        total += u64::from(*byte);
    }
    total
}
