//! What is known of one name.

ghost use Rattle.std.specs.Prelude.{◌≡◌, ◌≢◌, ◌≤◌, ◌*◌, ◌+◌, ℕ, List, [], ◌∷◌, length, nat_eq, true, IfNone, IfSome};
ghost use Rattle.std.specs.Str.{bytes_eq};
ghost use Rattle.name_book.specs.Book.{kind_of};
ghost use Rattle.name_book.specs.Names.{place_of, same_sector};
ghost use Rattle.name_book.specs.inside.Kept.{HasRoom, IsNew, IsOfName, agreed_with, is_whole, kept, part};
ghost use Rattle.name_book.specs.inside.Kept.{place_with, told_entry, told_first, told_with};

use crate::name::{NameKind, NamedHeader, SectorName, SectorPlace};

/// The bytes of data that are kept for a name: the mark's, and 1024.
pub(crate) const MOST_HELD: usize = 1025;

/// What the whole data of a name say together.
#[derive(Clone, Copy, Debug, PartialEq, Eq)]
pub(crate) enum Agreed {
    /// There are none.
    Nothing,
    /// They all hold the same, so many bytes with that of the mark.
    One(u16),
    /// Two of them differ.
    Several,
}

/// What is known of a name.
#[derive(Clone, Copy, Debug, PartialEq, Eq)]
pub(crate) struct Entry {
    pub name: SectorName,
    /// The first dump that has it.
    pub dump: u8,
    pub place: SectorPlace,
    pub opens: bool,
    pub agreed: Agreed,
}

impl Entry {
    /// That of a name of which one header was met.
    pub fn first(header: &NamedHeader) -> Entry
        ensures told { (part : List ℕ) → told_entry result part ≡ told_first header.now }
        ensures none { result.agreed ≡ Agreed.Nothing }
    {
        Entry {
            name: header.name,
            dump: header.dump,
            place: first_place(header),
            opens: header.opens,
            agreed: Agreed::Nothing,
        }
    }

    /// With one more header of its name.
    pub fn with(self, header: &NamedHeader) -> Entry
        ensures told { (part : List ℕ) → told_entry result part ≡ told_with header.now (told_entry self part) }
        ensures same { result.agreed ≡ self.agreed }
    {
        Entry {
            place: self.place_with(header),
            opens: self.opens || header.opens,
            ..self
        }
    }

    /// The first header of the first dump that has an index moment before it tells the place.
    fn place_with(self, header: &NamedHeader) -> SectorPlace
        ensures { result ≡ place_with self.place (nat_eq header.now.dump self.dump) header.now.since }
    {
        match self.place {
            SectorPlace::Behind(_) => self.place,
            SectorPlace::Early(_) => match header.since {
                Some(ticks) if header.dump == self.dump => SectorPlace::Behind(ticks),
                _ => self.place,
            },
        }
    }

    /// With what its whole data say together.
    pub fn with_agreed(self, agreed: Agreed) -> Entry
        ensures { result ≡ record self { agreed = agreed } }
    {
        Entry { agreed, ..self }
    }

    pub fn kind(&self) -> NameKind
        ensures { (part : List ℕ) → result ≡ kind_of (told_entry self.now part) }
    {
        match self.agreed {
            Agreed::One(_) | Agreed::Several => NameKind::Whole,
            Agreed::Nothing => {
                if self.opens {
                    NameKind::Bad
                } else {
                    NameKind::Bare
                }
            }
        }
    }
}

/// Where the only header of a name says that its sector lies.
fn first_place(header: &NamedHeader) -> SectorPlace
    ensures { result ≡ place_of (header.now ∷ []) }
{
    match header.since {
        Some(ticks) => SectorPlace::Behind(ticks),
        None => SectorPlace::Early(header.time),
    }
}

/// The number of a name among those of some entries.
pub(crate) fn number_of(entries: &[Entry], name: SectorName) -> Option<u8>
    requires { length entries.now ≤ 255 }
    ensures known { IfSome result (λ number. IsOfName entries.now name number) }
    ensures new { IfNone result (IsNew entries.now name) }
{
    for index in 0..entries.len() {
        if is_of(&entries[index], name) {
            return Some(index as u8);
        }
    }
    None
}

fn is_of(entry: &Entry, name: SectorName) -> bool
    ensures { result ≡ same_sector entry.now.name name }
{
    entry.name == name
}

/// The part of all bytes that the data of a name have, by its number.
pub(crate) fn part_of(bytes: &[u8], number: usize) -> &[u8]
    requires { number * 1025 + 1025 ≤ length bytes.now }
    ensures { result.now ≡ part bytes.now number }
{
    let start = number * MOST_HELD;
    let end = start + MOST_HELD;
    &bytes[start..end]
}

/// What whole data say together with those behind one more header, for the name of a number. The first ones are kept,
/// once there are some, in its part of all bytes.
pub(crate) fn with_data_at(bytes: &mut [u8], number: usize, agreed: Agreed, held: &[u8]) -> Agreed
    requires within { number * 1025 + 1025 ≤ length bytes.old }
    requires most { length held.now ≤ 1025 }
    requires room { HasRoom agreed }
    ensures whole { is_whole result ≡ true }
    ensures kept { kept result (part bytes.new number)
        ≡ agreed_with (is_whole agreed) (kept agreed (part bytes.old number)) held.now }
    ensures room { HasRoom result }
    ensures others { (k : ℕ) → k ≢ number → part bytes.new k ≡ part bytes.old k }
{
    let start = number * MOST_HELD;
    let end = start + MOST_HELD;
    with_data(&mut bytes[start..end], agreed, held)
}

/// The same for a name's part.
fn with_data(kept_bytes: &mut [u8], agreed: Agreed, held: &[u8]) -> Agreed
    requires size { length kept_bytes.old ≡ 1025 }
    requires most { length held.now ≤ 1025 }
    requires room { HasRoom agreed }
    ensures whole { is_whole result ≡ true }
    ensures kept { kept result kept_bytes.new
        ≡ agreed_with (is_whole agreed) (kept agreed kept_bytes.old) held.now }
    ensures room { HasRoom result }
{
    match agreed {
        Agreed::Nothing => {
            kept_bytes[..held.len()].copy_from_slice(held);
            Agreed::One(held.len() as u16)
        }
        Agreed::One(count) => {
            if are_same(&kept_bytes[..usize::from(count)], held) {
                Agreed::One(count)
            } else {
                Agreed::Several
            }
        }
        Agreed::Several => Agreed::Several,
    }
}

fn are_same(first: &[u8], held: &[u8]) -> bool
    ensures { result ≡ bytes_eq first.now held.now }
{
    *first == *held
}
