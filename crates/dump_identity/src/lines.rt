//! What is said of the disks that a dump may be of.

ghost use Rattle.std.specs.Prelude.{◌≡◌, ◌≤◌, ◌+◌, ◌++◌, codes};
ghost use Rattle.arrayvec.specs.ArrayString.{array_string_len};
ghost use Rattle.dump_identity.specs.Candidates.{by_numbers};
ghost use Rattle.dump_identity.specs.Lines.{best_text, candidate_text, failed_text, finding_text, foreign_text};
ghost use Rattle.dump_identity.specs.Lines.{heads_text, stepping_text};

use crate::candidate::Candidate;
use crate::finding::Finding;
use dump_numbers::{ForeignDisk, NumberedDisk};
use dump_reading::DumpTotals;
use sector_images::Format;
use sector_report::{Line, put, put_named};
use told_disks::NamedHeads;
use track_shelf::Stepping;

/// What a candidate comes to that has a good sector: the words for it that stand behind `read`, and the numbers.
#[tactic(auto, unfolding(crate::specs::Lines::finding_text))]
pub(crate) fn finding_line(candidate: Candidate, totals: &DumpTotals) -> Line
    ensures { result.bytes ≡ finding_text candidate totals.now }
{
    let mut line = Line::new();
    put_candidate(&mut line, candidate);
    put_named(&mut line, " good ", totals.sectors.good);
    put_named(&mut line, " of ", totals.sectors.sectors);
    put_named(&mut line, " other ", totals.whole);
    put_failed(&mut line, totals.lost);
    put(&mut line, "\n");
    line
}

/// Appends how many files failed, where one did.
fn put_failed(line: &mut Line, lost: u32)
    requires { array_string_len line.old + 18 ≤ 192 }
    ensures bytes { line.new.bytes ≡ line.old.bytes ++ failed_text lost }
    ensures len { array_string_len line.new ≤ array_string_len line.old + 18 }
{
    if lost > 0 {
        put_named(line, " failed ", lost);
    }
}

/// That the headers of a disk name other heads than the drive's.
#[tactic(auto, unfolding(crate::specs::Lines::foreign_text))]
pub(crate) fn foreign_line(foreign: ForeignDisk) -> Line
    ensures { result.bytes ≡ foreign_text foreign }
{
    let mut line = Line::new();
    put_candidate(&mut line, candidate_of(foreign.disk));
    put(&mut line, " names head ");
    put_heads(&mut line, foreign.heads);
    put(&mut line, "\n");
    line
}

/// A disk by its numbers.
fn candidate_of(disk: NumberedDisk) -> Candidate
    ensures { result ≡ by_numbers disk }
{
    Candidate {
        stepping: disk.stepping,
        format: Format::Numbered(disk.disk),
    }
}

/// Appends the heads that a disk's headers name on those of the drive.
fn put_heads(line: &mut Line, heads: NamedHeads)
    requires { array_string_len line.old + 3 ≤ 192 }
    ensures bytes { line.new.bytes ≡ line.old.bytes ++ heads_text heads }
    ensures len { array_string_len line.new ≤ array_string_len line.old + 3 }
{
    match heads {
        NamedHeads::Own => put(line, "0 1"),
        NamedHeads::First => put(line, "0"),
        NamedHeads::Changed => put(line, "1 0"),
    }
}

/// The words for the best of all candidates, or that none has a good sector.
#[tactic(auto, unfolding(crate::specs::Lines::best_text))]
pub(crate) fn best_line(best: &Option<Finding>) -> Line
    ensures { result.bytes ≡ best_text best.now }
{
    match best {
        Some(finding) => named_line(finding.candidate),
        None => none_line(),
    }
}

/// That this is the best.
fn named_line(candidate: Candidate) -> Line
    ensures { result.bytes ≡ codes "best " ++ candidate_text candidate ++ codes "\n" }
{
    let mut line = Line::new();
    put(&mut line, "best ");
    put_candidate(&mut line, candidate);
    put(&mut line, "\n");
    line
}

/// That there is no best.
fn none_line() -> Line
    ensures { result.bytes ≡ codes "best none\n" }
{
    let mut line = Line::new();
    put(&mut line, "best none\n");
    line
}

/// Appends the words for a candidate that stand behind `read`.
#[tactic(auto, unfolding(crate::specs::Lines::candidate_text))]
fn put_candidate(line: &mut Line, candidate: Candidate)
    requires { array_string_len line.old + 46 ≤ 192 }
    ensures bytes { line.new.bytes ≡ line.old.bytes ++ candidate_text candidate }
    ensures len { array_string_len line.new ≤ array_string_len line.old + 46 }
{
    put_steps(line, candidate.stepping);
    put(line, candidate.format.word().as_str());
}

/// Appends the word of the steps, with a blank behind it.
fn put_steps(line: &mut Line, stepping: Stepping)
    requires { array_string_len line.old + 14 ≤ 192 }
    ensures bytes { line.new.bytes ≡ line.old.bytes ++ stepping_text stepping }
    ensures len { array_string_len line.new ≤ array_string_len line.old + 14 }
{
    match stepping {
        Stepping::Single => {}
        Stepping::Double => put(line, "--double-step "),
    }
}
