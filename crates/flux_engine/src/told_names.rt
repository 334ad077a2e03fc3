//! How many names are told of the headers of a track that name none of its sectors.

ghost use Rattle.std.specs.Prelude.{◌≡◌, ◌≤◌, ◌+◌, length, take};
ghost use Rattle.flux_engine.specs.Counts.{names_of, whole_names_of};
ghost use Rattle.turn_merge.specs.Others.{MOST_TOLD as MOST_NAMES};

use turn_merge::{MOST_TOLD, OtherTold, Others};

/// The names that are told: no more than the first so many.
fn told_names(others: &Others) -> &[OtherTold]
    ensures told { result.now ≡ take MOST_NAMES others.now.told }
    ensures few { length result.now ≤ MOST_NAMES }
{
    let told = others.told();
    &told[..MOST_TOLD.min(told.len())]
}

/// How many names are told, with one for those that are not, where whole data stand after one of their headers.
pub(crate) fn name_count(others: &Others) -> u32
    ensures count { result ≡ names_of (take MOST_NAMES others.now.told) others.now.untold }
    ensures few { result ≤ MOST_NAMES + 1 }
{
    told_names(others).len() as u32 + u32::from(others.has_untold())
}

/// How many of these have whole data after one of their headers at least.
pub(crate) fn whole_name_count(others: &Others) -> u32
    ensures count { result ≡ whole_names_of (take MOST_NAMES others.now.told) others.now.untold }
    ensures few { result ≤ MOST_NAMES + 1 }
{
    let names = told_names(others);
    names.iter().filter(|told| told.whole > 0).count() as u32 + u32::from(others.has_untold())
}
