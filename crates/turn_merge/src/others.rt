//! Headers that name none of the sectors of a track, gathered by their names.

ghost use Rattle.std.specs.Prelude.{◌≡◌, ◌+◌, ◌<◌, [], map, cond, IfOk};
ghost use Rattle.turn_merge.specs.Book.{MOST_NOTES};
ghost use Rattle.turn_merge.specs.Others.{AppendsOther, AreBelow, DataAreKnown, OthersStandFor, has_data, is_told};
ghost use Rattle.turn_merge.specs.Others.{same_name};
ghost use Rattle.turn_merge.specs.inside.Others.{with_header};

use crate::verdict::Place;
use flux_base::{HeaderName, Memory};
use std::alloc::Global;
use std::marker::Model;

/// The most names that are told of a track.
pub const MOST_TOLD: usize = 64;

/// What is told of the headers that have one name, which none of the track's sectors has.
#[derive(Clone, Copy, Debug, PartialEq, Eq)]
pub struct OtherTold {
    pub name: HeaderName,
    /// How many headers have it.
    pub headers: u64,
    /// After how many of them whole data stand.
    pub whole: u64,
    /// Where the first one stands.
    pub first: Place,
}

impl OtherTold {
    /// Whether whole data stand after one of them at least.
    pub fn has_data(&self) -> bool
        ensures { result ≡ has_data self.now }
    {
        self.whole > 0
    }
}

/// What is known of the headers of a track that name none of its sectors. Contracts see what it stands for: a list of
/// such headers, in the order in which they were noted. Only `new` may answer want of memory.
#[derive(Debug, Drop)]
pub struct Others {
    /// Headers noted since `new` or the last `clear`.
    notes: u64,
    /// The names in the order in which they were first met, at most [`MOST_TOLD`].
    told: Vec<OtherTold>,
    /// Whether whole data stand after a header whose name is not among them.
    untold: bool,
}

impl Model for Others {
    ghost use Rattle.std.specs.Prelude.{◌+◌, ◌≤◌, vec_capacity};
    ghost use Rattle.turn_merge.specs.Others.{AreBelow, MOST_TOLD, OthersKnown};

    ghost Value = { OthersKnown };

    ghost view = { λ o. record { notes = o.notes; told = o.told.items; untold = o.untold } };

    ghost invariant = { λ o. AreBelow (o.notes + 1) o.told.items × (MOST_TOLD ≤ vec_capacity o.told) };
}

impl Others {
    /// No header.
    pub fn new(alloc: Global) -> Result<Others, Memory>
        ensures { IfOk result (λ others. OthersStandFor others []) }
    {
        Ok(Others {
            notes: 0,
            told: Vec::with_capacity(alloc, MOST_TOLD)?,
            untold: false,
        })
    }

    /// Forgets all headers.
    pub fn clear(&mut self)
        ensures { OthersStandFor self.new [] }
    {
        self.told.clear();
        self.notes = 0;
        self.untold = false;
    }

    /// Notes a header of this name, and whether whole data stand after it.
    pub fn note(&mut self, name: HeaderName, whole: bool, place: Place)
        requires few { self.old.notes < MOST_NOTES }
        ensures count { self.new.notes ≡ self.old.notes + 1 }
        ensures noted { AppendsOther self.old self.new (record { name = name; whole = whole; place = place }) }
    {
        self.notes += 1;
        if count_header(self.told.as_mut_slice(), name, whole) {
            return;
        }
        if self.told.len() >= MOST_TOLD {
            self.untold |= whole;
            return;
        }
        self.told.push_reserved(OtherTold {
            name,
            headers: 1,
            whole: u64::from(whole),
            first: place,
        });
    }

    /// The names, at most 64, in the order in which they were first met, and what is told of each.
    pub fn told(&self) -> &[OtherTold]
        ensures { result.now ≡ self.now.told }
    {
        self.told.as_slice()
    }

    /// Whether whole data stand after a header whose name is not told.
    pub fn has_untold(&self) -> bool
        ensures { result ≡ self.now.untold }
    {
        self.untold
    }
}

/// Whole data stand after some header exactly where a name that is told has some, or one that is not.
pub fn data_are_known()
    ensures { DataAreKnown }
{}

/// Counts one more header of this name where it is among those that are told, and says whether it is.
fn count_header(told: &mut [OtherTold], name: HeaderName, whole: bool) -> bool
    requires few { AreBelow MOST_NOTES told.old }
    ensures counted { told.new ≡ map (with_header name whole) told.old }
    ensures known { result ≡ is_told name told.old }
{
    let mut known = false;
    for other in told.iter_mut() {
        if is_of(other, name) {
            known = true;
            *other = with_one_more(*other, whole);
        }
    }
    known
}

/// Whether this is told of the name.
fn is_of(other: &OtherTold, name: HeaderName) -> bool
    ensures { result ≡ same_name other.now.name name }
{
    other.name == name
}

/// What is told of a name with one more header.
fn with_one_more(other: OtherTold, whole: bool) -> OtherTold
    requires { (other.headers < MOST_NOTES) × (other.whole < MOST_NOTES) }
    ensures { result
        ≡ record {
          name = other.name;
          headers = other.headers + 1;
          whole = other.whole + cond whole 1 0;
          first = other.first;
        } }
{
    OtherTold {
        headers: other.headers + 1,
        whole: other.whole + u64::from(whole),
        ..other
    }
}
