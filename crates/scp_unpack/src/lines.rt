//! The lines of what is told of a file and its tracks.

ghost use Rattle.std.specs.Prelude.{◌≡◌, ◌<◌};
ghost use Rattle.scp_unpack.specs.Lines.{refused_text, told_text, total_text};

use flux_base::TrackId;
use scp_files::{ScpFault, TrackTold};
use sector_report::{
    Line, put, put_fault, put_named, put_scp_fault, put_scp_file_fault, put_two_digits, put_u32,
};

/// Why a track has no file, or not all of its revolutions: `CC.H refused scp` and the file's fault with its number, or
/// `CC.H refused block B` and the fault of its stream. The cylinder is below 100.
#[tactic(auto, unfolding(crate::specs::Lines::told_text))]
pub(crate) fn told_line(track: TrackId, told: &TrackTold) -> Line
    requires { track.cylinder < 100 }
    ensures { result.bytes ≡ told_text track told.now }
{
    let mut line = Line::new();
    put_two_digits(&mut line, track.cylinder);
    put(&mut line, ".");
    put_u32(&mut line, u32::from(track.head));
    match *told {
        TrackTold::Fault(fault) => {
            put(&mut line, " refused scp ");
            put_scp_fault(&mut line, fault);
        }
        TrackTold::Refused { block, fault } => {
            put_named(&mut line, " refused block ", block);
            put(&mut line, " ");
            put_fault(&mut line, &fault);
        }
    }
    put(&mut line, "\n");
    line
}

/// How many files were made, and of how many tracks something is told.
#[tactic(auto, unfolding(crate::specs::Lines::total_text))]
pub(crate) fn total_line(files: u32, refused: u32) -> Line
    ensures { result.bytes ≡ total_text files refused }
{
    let mut line = Line::new();
    put_named(&mut line, "total files ", files);
    put_named(&mut line, " refused ", refused);
    put(&mut line, "\n");
    line
}

/// Why a file is no SCP file of a disk: `refused scp` and the fault.
#[tactic(auto, unfolding(crate::specs::Lines::refused_text))]
pub fn refused_scp_line(fault: ScpFault) -> Line
    ensures { result.bytes ≡ refused_text fault }
{
    let mut line = Line::new();
    put(&mut line, "refused scp ");
    put_scp_file_fault(&mut line, fault);
    put(&mut line, "\n");
    line
}
