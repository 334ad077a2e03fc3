//! The best of the disks that were tried so far.

ghost use Rattle.std.specs.Prelude.{◌≡◌, List, [], ◌∷◌, ◌++◌};
ghost use Rattle.dump_identity.specs.Findings.{best_of};
ghost use Rattle.dump_identity.specs.declared.finding.Finding.{Finding};

use crate::finding::Finding;

/// The better of the best so far and the next one, if one of them has a good sector.
pub(crate) fn better_of(best: Option<Finding>, next: Finding) -> Option<Finding>
    ensures { (before : List Finding) → best ≡ best_of before → result ≡ best_of (before ++ next ∷ []) }
{
    match best {
        None if next.has_good() => Some(next),
        None => None,
        Some(so_far) if next.beats(&so_far) => Some(next),
        Some(_) => best,
    }
}
