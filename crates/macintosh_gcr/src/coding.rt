//! The values of a data field out of its bytes, and the bytes out of the values.

ghost use Rattle.std.specs.Prelude.{◌≡◌, ℕ, ◌+◌, ◌<◌, ◌≤◌, List, ◌++◌, get_or, drop, length, IfNone, IfSome, IsTrue};
ghost use Rattle.std.specs.Prelude.{◌↔◌};
ghost use Rattle.macintosh_gcr.specs.Coding.{AreSixBits, IsCoded, NO_SUMS, after_two, check_values as check_values_of};
ghost use Rattle.macintosh_gcr.specs.Coding.{data_values, stored_first, stored_second, stored_third, three_values};
ghost use Rattle.macintosh_gcr.specs.Coding.{two_values, with_tags};
ghost use Rattle.macintosh_gcr.specs.lemmas.Taking.{TakesThree, TakesTwo};

use crate::sums::Sums;
use arrayvec::ArrayVec;

/// The values of a data field after the sector's number: those of the bytes, and the check values.
pub(crate) type Values = ArrayVec<u8, 703>;

/// The bytes of a data field: twelve tags, and a sector's bytes.
pub(crate) type Plain = ArrayVec<u8, 524>;

/// How many values there are.
pub(crate) const VALUES: usize = 703;

/// The tags before a sector's bytes.
pub(crate) const TAGS: usize = 12;

/// The groups of three bytes, before the last one, which has two.
const GROUPS: usize = 174;

/// The values of a sector's bytes, with tags of zeros before them, and their check values.
pub(crate) fn values_of(bytes: &[u8]) -> Values
    ensures { result.items ≡ data_values 0 NO_SUMS (with_tags bytes.now) }
{
    let mut values = Values::new();
    let mut sums = Sums::NONE;
    for group in 0..GROUPS {
        let first = plain_at(bytes, 3 * group);
        let second = plain_at(bytes, 3 * group + 1);
        let third = plain_at(bytes, 3 * group + 2);
        push_three(&mut values, sums, first, second, third);
        sums = sums.after_three(first, second, third);
    }
    let first = plain_at(bytes, 3 * GROUPS);
    let second = plain_at(bytes, 3 * GROUPS + 1);
    push_last(&mut values, sums, first, second);
    values
}

/// The byte at this index of those that are coded.
fn plain_at(bytes: &[u8], index: usize) -> u8
    requires { index < 524 }
    ensures { result ≡ get_or (with_tags bytes.now) index 0 }
{
    if index < TAGS {
        return 0;
    }
    byte_or_zero(bytes, index - TAGS)
}

/// The byte at the index, or 0 where there is none.
fn byte_or_zero(bytes: &[u8], index: usize) -> u8
    ensures { result ≡ get_or bytes.now index 0 }
{
    bytes.get(index).copied().unwrap_or(0)
}

/// Appends the four values of a group of three bytes.
fn push_three(values: &mut Values, sums: Sums, first: u8, second: u8, third: u8)
    requires { length values.old.items + 4 ≤ 703 }
    ensures { values.new.items
        ≡ values.old.items
        ++ three_values (stored_first sums first) (stored_second sums first second)
        (stored_third sums first second third) }
{
    let one = sums.stored_first(first);
    let two = sums.stored_second(first, second);
    let three = sums.stored_third(first, second, third);
    values.push(16 * (one / 64) + 4 * (two / 64) + three / 64);
    values.push(one % 64);
    values.push(two % 64);
    values.push(three % 64);
}

/// Appends the three values of the last two bytes, and the check values after them.
fn push_last(values: &mut Values, sums: Sums, first: u8, second: u8)
    requires { length values.old.items + 7 ≤ 703 }
    ensures { values.new.items
        ≡ values.old.items
        ++ (two_values 0 (stored_first sums first) (stored_second sums first second)
        ++ check_values_of (after_two sums first second)) }
{
    let one = sums.stored_first(first);
    let two = sums.stored_second(first, second);
    values.push(16 * (one / 64) + 4 * (two / 64));
    values.push(one % 64);
    values.push(two % 64);
    push_check(values, sums.after_two(first, second).check_values());
}

/// Appends four check values.
fn push_check(values: &mut Values, check: [u8; 4])
    requires { length values.old.items + 4 ≤ 703 }
    ensures { values.new.items ≡ values.old.items ++ check }
{
    let [high, c, b, a] = check;
    values.push(high);
    values.push(c);
    values.push(b);
    values.push(a);
}

/// The bytes whose values these are, with their check values. None where the check values are others.
pub(crate) fn plain_of(values: &[u8]) -> Option<Plain>
    requires size { length values.now ≡ 703 }
    requires fit { AreSixBits values.now }
    ensures some { IfSome result (λ plain. IsCoded values.now plain.items) }
    ensures none { IfNone result ((plain : List ℕ) → ¬ IsCoded values.now plain) }
{
    let mut plain = Plain::new();
    let mut sums = Sums::NONE;
    for group in 0..GROUPS {
        sums = take_three(&mut plain, sums, values, 4 * group);
    }
    let after = take_two(&mut plain, sums, values);
    if has_check(values, after) {
        return Some(plain);
    }
    None
}

/// Appends the three bytes of the group whose four values stand at the index. The sums after them.
fn take_three(plain: &mut Plain, sums: Sums, values: &[u8], index: usize) -> Sums
    requires size { length values.now ≡ 703 }
    requires fit { AreSixBits values.now }
    requires within { index + 4 ≤ 696 }
    requires room { length plain.old.items + 3 ≤ 522 }
    ensures { TakesThree values.now index sums plain.old.items plain.new.items result }
{
    let high = values[index];
    let first = sums.stored_first(64 * (high / 16) + values[index + 1]);
    let second = sums.stored_second(first, 64 * (high / 4 % 4) + values[index + 2]);
    let third = sums.stored_third(first, second, 64 * (high % 4) + values[index + 3]);
    plain.push(first);
    plain.push(second);
    plain.push(third);
    sums.after_three(first, second, third)
}

/// Appends the last two bytes, whose three values stand before the check values. The sums after them.
fn take_two(plain: &mut Plain, sums: Sums, values: &[u8]) -> Sums
    requires size { length values.now ≡ 703 }
    requires fit { AreSixBits values.now }
    requires room { length plain.old.items ≡ 522 }
    ensures { TakesTwo values.now sums plain.old.items plain.new.items result }
{
    let high = values[696];
    let first = sums.stored_first(64 * (high / 16) + values[697]);
    let second = sums.stored_second(first, 64 * (high / 4 % 4) + values[698]);
    plain.push(first);
    plain.push(second);
    sums.after_two(first, second)
}

/// Whether the check values of these sums stand last.
fn has_check(values: &[u8], sums: Sums) -> bool
    requires { length values.now ≡ 703 }
    ensures { IsTrue result ↔ (drop 699 values.now ≡ check_values_of sums) }
{
    let [high, c, b, a] = sums.check_values();
    if values[699] != high {
        return false;
    }
    if values[700] != c {
        return false;
    }
    if values[701] != b {
        return false;
    }
    if values[702] != a {
        return false;
    }
    true
}
