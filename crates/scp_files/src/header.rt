ghost use Rattle.std.specs.Prelude.{◌≡◌, ◌<◌, ◌≤◌, ◌+◌, ◌*◌, is_err, length, slice_index, take, Option, IfOk, IfSome};
ghost use Rattle.std.specs.Prelude.{OnErr};
ghost use Rattle.std.specs.Io.KnownBytes.{Consumes, IsAtEnd};
ghost use Rattle.flux_base.specs.Counts.{Counts};
ghost use Rattle.flux_base.specs.World.{source_counts};
ghost use Rattle.scp_files.specs.Captures.{TakesFewer};
ghost use Rattle.scp_files.specs.Files.{entry_at, entry_end, file_fault, is_there, resolution_of, revolutions_of};
ghost use Rattle.scp_files.specs.Disks.{offset_unless, scp_number};
ghost use Rattle.scp_files.specs.Files.{FRONT_SIZE, TABLE_SIZE, track_offset, wanted_sum};

use crate::fault::ScpFault;
use crate::filling::fill;
use byteorder::{ByteOrder, LittleEndian};
use flux_base::{Failed, Source, TrackId, copy_front};
use std::marker::Model;

/// The bytes of the header with its table.
const FRONT_SIZE: usize = 688;

/// The bytes of the header without its table.
const HEADER_SIZE: usize = 16;

/// How many entries the table has.
const TABLE_SIZE: u8 = 168;

/// The begin of an SCP file: its header, and the places of its tracks. Contracts see its bytes, as many of the first
/// 688 as the file has.
#[derive(Drop)]
pub struct ScpHeader {
    bytes: [u8; FRONT_SIZE],
    filled: usize,
}

impl Model for ScpHeader {
    ghost use Rattle.std.specs.Prelude.{ℕ, ◌≤◌, List, take};

    ghost Value = { List ℕ };

    ghost view = { λ h. take h.filled h.bytes };

    ghost invariant = { λ h. h.filled ≤ 688 };
}

impl ScpHeader {
    /// Reads the begin of a file from a source that is there.
    pub fn read<S: Source>(source: &mut S) -> Result<ScpHeader, Failed>
        ensures ok { IfOk result (λ header. Consumes (S.left source.old) (S.left source.new) header) }
        ensures bound { IfOk result (λ header. length header ≤ 688) }
        ensures ended { IfOk result (λ header. length header < 688 → IsAtEnd (S.left source.new)) }
        ensures err { OnErr result (TakesFewer (S.left source.old) (S.left source.new) 688) }
        ensures counts { Counts (is_err result) (source_counts S.Source source.old)
            (source_counts S.Source source.new) }
    {
        let mut bytes = [0; FRONT_SIZE];
        match fill(&mut bytes, source) {
            Ok(filled) => Ok(ScpHeader { bytes, filled }),
            Err(failed) => Err(failed),
        }
    }

    /// The begin of a file whose bytes are at hand.
    pub fn of_bytes(file: &[u8]) -> ScpHeader
        ensures { result ≡ take FRONT_SIZE file.now }
    {
        let mut bytes = [0; FRONT_SIZE];
        let filled = copy_front(file, &mut bytes);
        ScpHeader { bytes, filled }
    }

    #[tactic(auto, unfolding(crate::specs::Files::file_fault))]
    /// Why the file has no tracks.
    pub fn fault(&self) -> Option<ScpFault>
        ensures { result ≡ file_fault self.now }
    {
        let file = self.bytes();
        if file.len() < HEADER_SIZE {
            return Some(ScpFault::ShortHeader(file.len() as u8));
        }
        if &file[..3] != b"SCP".as_slice() {
            return Some(ScpFault::BadSignature);
        }
        if file[8] / 64 % 2 != 0 {
            return Some(ScpFault::NotFloppy);
        }
        if file[9] != 0 && file[9] != 16 {
            return Some(ScpFault::BadWidth(file[9]));
        }
        None
    }

    /// How many revolutions each track has at most.
    pub fn revolutions(&self) -> u8
        requires { 16 ≤ length self.now }
        ensures { result ≡ revolutions_of self.now }
    {
        self.bytes()[5]
    }

    /// How long a unit is: so many times 25 ns, and once more.
    pub fn resolution(&self) -> u8
        requires { 16 ≤ length self.now }
        ensures { result ≡ resolution_of self.now }
    {
        self.bytes()[11]
    }

    #[tactic(auto, unfolding(crate::specs::Files::track_offset))]
    /// The place in the file of the track of this number, 2 C + H for cylinder C and head H.
    pub fn track(&self, number: u8) -> Option<u32>
        ensures { result ≡ track_offset self.now number }
    {
        let file = self.bytes();
        if !has_entry(file, number) {
            return None;
        }
        match entry(file, number) {
            0 => None,
            offset => Some(offset),
        }
    }

    /// The place in the file of this track. None where the file has a fault, or not the track.
    pub fn place_of(&self, track: TrackId) -> Option<u32>
        ensures is { result ≡ offset_unless (file_fault self.now) (track_offset self.now (scp_number track)) }
        ensures low { IfSome result (λ _. scp_number track < TABLE_SIZE) }
        ensures size { IfSome result (λ _. 16 ≤ length self.now) }
    {
        match self.fault() {
            Some(_) => None,
            None => self.track_numbered(2 * u32::from(track.cylinder) + u32::from(track.head)),
        }
    }

    /// The place of the track of this number, which may be one that no track has.
    #[tactic(auto, unfolding(crate::specs::Files::track_offset))]
    fn track_numbered(&self, number: u32) -> Option<u32>
        ensures { result ≡ track_offset self.now number }
    {
        if number < u32::from(TABLE_SIZE) {
            self.track(number as u8)
        } else {
            None
        }
    }

    #[tactic(auto, unfolding(crate::specs::Files::wanted_sum))]
    /// The sum of all bytes behind the first 16, by 32 bits, where the file tells one.
    pub fn wanted_sum(&self) -> Option<u32>
        requires { 16 ≤ length self.now }
        ensures { result ≡ wanted_sum self.now }
    {
        let file = self.bytes();
        if file[8] / 16 % 2 != 0 {
            return None;
        }
        match LittleEndian::read_u32(&file[12..]) {
            0 => None,
            sum => Some(sum),
        }
    }

    /// The bytes that the file has of its begin.
    fn bytes(&self) -> &[u8]
        ensures value { result.now ≡ self.now }
        ensures bound { length result.now ≤ 688 }
    {
        &self.bytes[..self.filled]
    }
}

/// Whether the table has this entry.
fn has_entry(file: &[u8], number: u8) -> bool
    requires { length file.now ≤ 688 }
    ensures value { result ≡ is_there file.now number }
{
    let end = HEADER_SIZE + 4 * usize::from(number) + 4;
    if number >= TABLE_SIZE || file.len() < end {
        return false;
    }
    for before in 0..number {
        let offset = entry(file, before);
        if offset != 0 && (offset as usize) < end {
            return false;
        }
    }
    true
}

/// What an entry of the table says.
fn entry(file: &[u8], number: u8) -> u32
    requires { entry_end number ≤ length file.now }
    ensures { result ≡ entry_at file.now number }
{
    LittleEndian::read_u32(&file[HEADER_SIZE + 4 * usize::from(number)..])
}
