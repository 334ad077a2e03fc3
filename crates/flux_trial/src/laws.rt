//! What the trials of numbers without a hole come to.

ghost use Rattle.flux_trial.specs.Laws.{SmallSeedsHaveNoHole, TrialsAreCapturedDisks, TrialsAreCaptures};
ghost use Rattle.flux_trial.specs.Laws.{WholeTrialsHaveOneLine};

use flux_engine::images_have_rings;
use flux_writer::written_law;
use law_captured_plans::captured_plans_are_read;
use sector_images::{sectors_lie_in_images, tracks_keep_bounds};

/// The drive of a number that leaves no hole, as each below 1000, keeps within the bounds of disturbance: the
/// stream that it gives of each track captures the track's ring, and the streams of all tracks capture the
/// number's image, each track once.
pub fn trials_are_captured()
    ensures small { SmallSeedsHaveNoHole }
    ensures streams { TrialsAreCaptures }
    ensures disks { TrialsAreCapturedDisks }
{
    written_law();
    tracks_keep_bounds();
    sectors_lie_in_images();
    images_have_rings()
}

/// So the line of its trial is known beforehand: every sector is good, and the sum is that of the number's image.
pub fn whole_trials_have_one_line()
    ensures { WholeTrialsHaveOneLine }
{
    trials_are_captured();
    captured_plans_are_read()
}
