//! What numbers of a disk the sets of its tracks tell.

ghost use Rattle.std.specs.Prelude.{◌≡◌, ◌≤◌, ◌<◌, ◌↔◌, ◌+◌, ◌*◌, ◌&&◌, ℕ, Bool, List, true, false, get_or, length, nat_le, nat_lt, IsTrue};
ghost use Rattle.ibm_disks.specs.declared.sector_size.SectorSize.{SectorSize as Size};
ghost use Rattle.told_disks.specs.Names.{Counts, HasAny, HasCounted, count_of as count_in, has, set_at};
ghost use Rattle.told_disks.specs.Told.{Reaches, TellsIf};
ghost use Rattle.told_disks.specs.inside.Loops.{IsReachOrNone, IsSpanOrNone};

use crate::name_set::NameSet;
use ibm_disks::SectorSize;

/// The numbers of a disk's sectors, and how many cylinders and heads it has.
#[derive(Clone, Copy, Debug, PartialEq, Eq)]
pub(crate) struct Told {
    pub first: u8,
    pub last: u8,
    pub cylinders: u8,
    pub heads: u8,
}

/// The least and the greatest of some numbers.
#[derive(Clone, Copy, Debug, PartialEq, Eq)]
pub(crate) struct Span {
    pub first: u8,
    pub last: u8,
}

/// How many cylinders and heads some tracks reach.
#[derive(Clone, Copy, Debug, PartialEq, Eq)]
pub(crate) struct Reach {
    pub cylinders: u8,
    pub heads: u8,
}

/// What the sets of at most 198 tracks tell of sectors of a size.
pub(crate) fn tell(sets: &[NameSet], size: SectorSize) -> Option<Told>
    requires { length sets.now ≤ 198 }
    ensures { TellsIf sets.now size result }
{
    let counted = counted_in(sets, size);
    let Some(span) = span_of(&counted) else {
        return None;
    };
    let Some(reach) = reach_of(sets, size, &counted) else {
        return None;
    };
    Some(Told {
        first: span.first,
        last: span.last,
        cylinders: reach.cylinders,
        heads: reach.heads,
    })
}

/// Whether a track behind cylinder 0 has a number of a size.
pub(crate) fn reaches(sets: &[NameSet], size: SectorSize) -> bool
    ensures yes { IsTrue result → Reaches sets.now size }
    ensures no { result ≡ false → Reaches sets.now size → ⊥ }
{
    for track in 2..sets.len() {
        if has_any(&sets[track], size) {
            return true;
        }
    }
    false
}

/// Whether a set has a number of a size.
pub fn has_any(set: &NameSet, size: SectorSize) -> bool
    ensures yes { IsTrue result → HasAny set.now size }
    ensures no { result ≡ false → HasAny set.now size → ⊥ }
{
    has_some(set, size, &[true; 256])
}

/// On how many tracks a number of a size stands.
fn count_of(sets: &[NameSet], size: SectorSize, number: u8) -> u8
    requires { length sets.now ≤ 198 }
    ensures count { result ≡ count_in sets.now size number }
    ensures few { result ≤ 198 }
{
    let mut count = 0;
    for set in sets {
        if set.has(size, number) {
            count += 1;
        }
    }
    count
}

/// On how many tracks the commonest number of a size stands.
fn most_of(sets: &[NameSet], size: SectorSize) -> u8
    requires { length sets.now ≤ 198 }
    ensures most { (number : ℕ) → number < 256 → count_in sets.now size number ≤ result }
    ensures least { (most : ℕ) → ((number : ℕ) → count_in sets.now size number ≤ most) → result ≤ most }
{
    let mut most = 0;
    for number in 0..256u16 {
        most = count_of(sets, size, number as u8).max(most);
    }
    most
}

/// Marks the numbers of a size that count.
fn counted_in(sets: &[NameSet], size: SectorSize) -> [bool; 256]
    requires { length sets.now ≤ 198 }
    ensures { (number : ℕ) → (get_or result number false ≡ true) ↔ Counts sets.now size number }
{
    let most = u16::from(most_of(sets, size));
    let mut counted = [false; 256];
    for number in 0..256usize {
        let count = u16::from(count_of(sets, size, number as u8));
        counted[number] = is_common(count, most);
    }
    counted
}

/// Whether a number counts that stands on so many tracks, where the commonest one stands on the most.
fn is_common(count: u16, most: u16) -> bool
    requires { count ≤ 198 }
    ensures { result ≡ (nat_lt 0 count && nat_le most (4 * count)) }
{
    count > 0 && most <= 4 * count
}

/// The least and the greatest number that is marked, if one is.
fn span_of(marked: &[bool; 256]) -> Option<Span>
    ensures { IsSpanOrNone marked.now 256 result }
{
    let mut span = None;
    for number in 0..256usize {
        if marked[number] {
            span = Some(with_number(span, number as u8));
        }
    }
    span
}

/// A span with a number behind it.
fn with_number(span: Option<Span>, number: u8) -> Span
    ensures { (marked : List Bool) → IsSpanOrNone marked number span → get_or marked number false ≡ true
        → IsSpanOrNone marked (number + 1) (Some result) }
{
    match span {
        None => Span {
            first: number,
            last: number,
        },
        Some(before) => Span {
            first: before.first,
            last: number,
        },
    }
}

/// How many cylinders and heads the tracks reach that have a number of a size that is marked, if one has.
fn reach_of(sets: &[NameSet], size: SectorSize, marked: &[bool; 256]) -> Option<Reach>
    requires few { length sets.now ≤ 198 }
    requires counted { (number : ℕ) → (get_or marked.now number false ≡ true) ↔ Counts sets.now size number }
    ensures { IsReachOrNone (HasCounted sets.now size) (length sets.now) result }
{
    let mut reach = None;
    for track in 0..sets.len() {
        if has_some(&sets[track], size, marked) {
            reach = Some(with_track(reach, track as u8));
        }
    }
    reach
}

/// A reach with a track behind it.
fn with_track(reach: Option<Reach>, track: u8) -> Reach
    ensures { (sets : List (List Bool)) (size : Size) → IsReachOrNone (HasCounted sets size) track reach
        → HasCounted sets size track → IsReachOrNone (HasCounted sets size) (track + 1) (Some result) }
{
    let cylinders = track / 2 + 1;
    let heads = track % 2 + 1;
    match reach {
        None => Reach { cylinders, heads },
        Some(before) => Reach {
            cylinders: cylinders.max(before.cylinders),
            heads: heads.max(before.heads),
        },
    }
}

/// Whether a set has a number of a size that is marked.
fn has_some(set: &NameSet, size: SectorSize, marked: &[bool; 256]) -> bool
    ensures yes { IsTrue result
        → (number : ℕ) × (get_or marked.now number false ≡ true) × (has set.now size number ≡ true) }
    ensures no { result ≡ false → (number : ℕ) → get_or marked.now number false ≡ true
        → has set.now size number ≡ true → ⊥ }
{
    for number in 0..256usize {
        if marked[number] && set.has(size, number as u8) {
            return true;
        }
    }
    false
}
