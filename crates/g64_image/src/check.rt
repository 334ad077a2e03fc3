//! What a file has of its tracks, and its first fault.

ghost use Rattle.std.specs.Prelude.{◌≡◌, ◌≤◌, ◌<◌, ◌+◌, None, length};
ghost use Rattle.sector_images.specs.Places.{tracks};
ghost use Rattle.g64_image.specs.Faults.{HasTables, first_fault as first_fault_of, table_fault as table_fault_of};
ghost use Rattle.g64_image.specs.Faults.{track_fault as track_fault_of, tracks_fault as tracks_fault_of};
ghost use Rattle.g64_image.specs.Layout.{IsCommodore, cells_of_bytes, length_at as length_of, offset_of as offset_in};
ghost use Rattle.g64_image.specs.Layout.{track_cells};

use crate::fault::G64Fault;
use crate::front::{HALF_TRACKS, SIGNATURE};
use byteorder::{ByteOrder, LittleEndian};
use sector_images::{Format, track_count};

/// The most bytes of a file.
const MOST_BYTES: usize = 4194304;

/// The bytes before the tables.
const HEADER_SIZE: usize = 12;

#[tactic(auto, unfolding(crate::specs::Faults::first_fault))]
/// The first fault of a file, in the order in which they are looked at.
pub(crate) fn first_fault(format: Format, file: &[u8]) -> Option<G64Fault>
    requires format { IsCommodore format }
    requires few { length file.now ≤ 4194305 }
    ensures value { result ≡ first_fault_of format file.now }
    ensures tables { result ≡ None → HasTables file.now }
{
    match table_fault(file) {
        Some(fault) => Some(fault),
        None => tracks_fault(format, file),
    }
}

#[tactic(auto, unfolding(crate::specs::Faults::table_fault))]
/// The first fault of a file before its tracks.
fn table_fault(file: &[u8]) -> Option<G64Fault>
    requires { length file.now ≤ 4194305 }
    ensures value { result ≡ table_fault_of file.now }
    ensures tables { result ≡ None → HasTables file.now }
{
    if file.len() > MOST_BYTES {
        return Some(G64Fault::TooLarge);
    }
    if file.len() < HEADER_SIZE {
        return Some(G64Fault::ShortHeader(file.len() as u32));
    }
    if &file[..8] != SIGNATURE.as_slice() {
        return Some(G64Fault::BadSignature);
    }
    if file[8] != 0 {
        return Some(G64Fault::BadVersion(file[8]));
    }
    let half_tracks = file[9];
    if half_tracks == 0 || half_tracks > HALF_TRACKS {
        return Some(G64Fault::BadTracks(half_tracks));
    }
    if file.len() < HEADER_SIZE + 8 * usize::from(half_tracks) {
        return Some(G64Fault::ShortTable(file.len() as u32));
    }
    None
}

#[tactic(auto, unfolding(crate::specs::Faults::tracks_fault))]
/// The first fault of the format's tracks in a file.
fn tracks_fault(format: Format, file: &[u8]) -> Option<G64Fault>
    requires few { length (tracks format) < 255 }
    requires tables { HasTables file.now }
    ensures { result ≡ tracks_fault_of format file.now }
{
    for track in 0..track_count(format) {
        match track_fault(file, track) {
            Some(fault) => return Some(fault),
            None => {}
        }
    }
    None
}

#[tactic(auto, unfolding(crate::specs::Faults::track_fault))]
/// The fault of a track, from 0.
fn track_fault(file: &[u8], track: u32) -> Option<G64Fault>
    requires few { track < 255 }
    requires tables { HasTables file.now }
    ensures { result ≡ track_fault_of file.now track }
{
    let offset = offset_of(file, track);
    if offset == 0 {
        return None;
    }
    if file.len() < offset as usize + 2 {
        let track = (track + 1) as u8;
        return Some(G64Fault::BadOffset { track, offset });
    }
    let length = length_at(file, offset);
    if file.len() < offset as usize + 2 + usize::from(length) {
        let track = (track + 1) as u8;
        return Some(G64Fault::ShortTrack { track, length });
    }
    None
}

/// Where a file has a track, from 0: the place of its length; 0 where it has no such track.
fn offset_of(file: &[u8], track: u32) -> u32
    requires few { track < 255 }
    requires tables { HasTables file.now }
    ensures { result ≡ offset_in file.now track }
{
    let half = 2 * track as usize;
    if half < usize::from(file[9]) {
        LittleEndian::read_u32(&file[HEADER_SIZE + 4 * half..])
    } else {
        0
    }
}

/// The number of a track's bytes, which stands before them.
fn length_at(file: &[u8], offset: u32) -> u16
    requires { offset + 2 ≤ length file.now }
    ensures { result ≡ length_of file.now offset }
{
    LittleEndian::read_u16(&file[offset as usize..])
}

#[tactic(auto, unfolding(crate::specs::Layout::track_cells))]
/// The bytes of a track, from 0, of a file in which it has no fault: none where there is no such track.
pub(crate) fn track_bytes(file: &[u8], track: u32) -> &[u8]
    requires few { track < 255 }
    requires tables { HasTables file.now }
    requires sound { track_fault_of file.now track ≡ None }
    ensures cells { cells_of_bytes result.now ≡ track_cells file.now track }
    ensures few { length result.now ≤ 65535 }
{
    let offset = offset_of(file, track);
    if offset == 0 {
        return &file[..0];
    }
    let place = offset as usize + 2;
    &file[place..place + usize::from(length_at(file, offset))]
}
