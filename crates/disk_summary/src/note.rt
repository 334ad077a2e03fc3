//! What a summary tells beside its numbers: notes, an object of JSON each.

ghost use Rattle.std.specs.Prelude.{◌≡◌, ◌+◌, ◌≤◌, ◌++◌, decimal, length};
ghost use Rattle.arrayvec.specs.ArrayString.{array_string_len};
ghost use Rattle.disk_summary.specs.Texts.{note_text};
ghost use Rattle.disk_summary.specs.inside.Pieces.{name_piece, reason_piece, refused_piece, refused_scp_piece};
ghost use Rattle.disk_summary.specs.inside.Pieces.{track_piece, two_piece};
ghost use Rattle.disk_summary.specs.inside.Pieces.{written_piece};
ghost use Rattle.disk_summary.specs.declared.note.Note.TheVariants.{Other, Sector, Uneven, Unread, Untold};

use disk_map::{Kind, name_of};
use flux_base::{HeaderName, TrackId};
use kryo_stream::StreamFault;
use scp_files::ScpTrackFault;
use sector_report::{Line, Passed, put, put_fault, put_named, put_scp_fault, put_u64};
use turn_merge::OtherTold;

/// A note of a track, or of a file.
#[derive(Clone, Copy, Debug, PartialEq, Eq)]
pub enum Note {
    /// A dump's file of the track was passed over.
    Unread {
        track: TrackId,
        /// The dump's number, from 0.
        dump: u8,
        why: Passed,
    },
    /// A sector is not good.
    Sector {
        track: TrackId,
        sector: u8,
        kind: Kind,
    },
    /// Headers have a name that is that of none of the track's sectors, and whole data follow one of them.
    Other {
        track: TrackId,
        told: OtherTold,
    },
    /// Whole data follow a header of such a name, which is not told.
    Untold {
        track: TrackId,
    },
    /// The mean revolution of a dump's file is more than 5 in 1000 from the median of all files of this dump.
    Uneven {
        track: TrackId,
        /// The dump's number, from 0.
        dump: u8,
        /// The mean, whole ticks.
        ticks: u64,
    },
}

/// The text of a note, with a comma before it. (It is put together as `written_piece` says.)
pub fn note_piece(note: &Note) -> Line
    ensures { result.bytes ≡ note_text note.now }
{
    match *note {
        Note::Unread { track, dump, why } => unread_piece(track, dump, &why),
        Note::Sector {
            track,
            sector,
            kind,
        } => sector_piece(track, sector, kind),
        Note::Other { track, told } => other_piece(track, &told),
        Note::Untold { track } => untold_piece(track),
        Note::Uneven { track, dump, ticks } => uneven_piece(track, dump, ticks),
    }
}

/// That of a file.
#[tactic(auto, unfolding(crate::specs::inside::Pieces::written_piece))]
fn unread_piece(track: TrackId, dump: u8, why: &Passed) -> Line
    ensures { result.bytes ≡ written_piece (Unread track dump why.now) }
{
    let mut line = Line::new();
    put_track(&mut line, track);
    put_named(&mut line, ",\"dump\":", u32::from(dump));
    put_reason(&mut line, why);
    line
}

/// That of a sector.
#[tactic(auto, unfolding(crate::specs::inside::Pieces::written_piece))]
fn sector_piece(track: TrackId, sector: u8, kind: Kind) -> Line
    ensures { result.bytes ≡ written_piece (Sector track sector kind) }
{
    let mut line = Line::new();
    put_track(&mut line, track);
    put_named(&mut line, ",\"sector\":", u32::from(sector));
    put(&mut line, ",\"verdict\":\"");
    put(&mut line, name_of(kind));
    put(&mut line, "\"}");
    line
}

/// That of a name of other headers.
#[tactic(auto, unfolding(crate::specs::inside::Pieces::written_piece))]
fn other_piece(track: TrackId, told: &OtherTold) -> Line
    ensures { result.bytes ≡ written_piece (Other track told.now) }
{
    let mut line = Line::new();
    put_track(&mut line, track);
    put_name(&mut line, told.name);
    put_long(&mut line, ",\"headers\":", told.headers);
    put_long(&mut line, ",\"whole\":", told.whole);
    put(&mut line, "}");
    line
}

/// That of names that are not told.
#[tactic(auto, unfolding(crate::specs::inside::Pieces::written_piece))]
fn untold_piece(track: TrackId) -> Line
    ensures { result.bytes ≡ written_piece (Untold track) }
{
    let mut line = Line::new();
    put_track(&mut line, track);
    put(&mut line, ",\"untold\":true}");
    line
}

/// That of a file that turned otherwise than the others.
#[tactic(auto, unfolding(crate::specs::inside::Pieces::written_piece))]
fn uneven_piece(track: TrackId, dump: u8, ticks: u64) -> Line
    ensures { result.bytes ≡ written_piece (Uneven track dump ticks) }
{
    let mut line = Line::new();
    put_track(&mut line, track);
    put_named(&mut line, ",\"dump\":", u32::from(dump));
    put_long(&mut line, ",\"uneven\":", ticks);
    put(&mut line, "}");
    line
}

/// Appends the comma, the object's begin and the track.
fn put_track(line: &mut Line, track: TrackId)
    requires { array_string_len line.old ≡ 0 }
    ensures bytes { line.new.bytes ≡ line.old.bytes ++ track_piece track }
    ensures len { array_string_len line.new ≤ 41 }
{
    put_named(line, ",{\"cylinder\":", u32::from(track.cylinder));
    put_named(line, ",\"head\":", u32::from(track.head));
}

/// Appends why a file was passed over, and the object's end.
#[tactic(auto, unfolding(crate::specs::inside::Pieces::reason_piece))]
fn put_reason(line: &mut Line, why: &Passed)
    requires { array_string_len line.old ≤ 60 }
    ensures bytes { line.new.bytes ≡ line.old.bytes ++ reason_piece why.now }
{
    match *why {
        Passed::Absent => put(line, ",\"unread\":\"missing\"}"),
        Passed::Failed => put(line, ",\"unread\":\"failed\"}"),
        Passed::Refused { block, fault } => put_refused(line, block, &fault),
        Passed::RefusedScp(fault) => put_refused_scp(line, fault),
    }
}

/// Appends that a file is refused.
fn put_refused(line: &mut Line, block: u32, fault: &StreamFault)
    requires { array_string_len line.old ≤ 60 }
    ensures bytes { line.new.bytes ≡ line.old.bytes ++ refused_piece block fault.now }
{
    put_named(line, ",\"unread\":\"refused\",\"block\":", block);
    put(line, ",\"fault\":\"");
    put_fault(line, fault);
    put(line, "\"}");
}

/// Appends that the track of an SCP file is refused.
fn put_refused_scp(line: &mut Line, fault: ScpTrackFault)
    requires { array_string_len line.old ≤ 60 }
    ensures bytes { line.new.bytes ≡ line.old.bytes ++ refused_scp_piece fault }
{
    put(line, ",\"unread\":\"refused scp\",\"fault\":\"");
    put_scp_fault(line, fault);
    put(line, "\"}");
}

/// Appends the numbers of a header's name.
#[tactic(auto, unfolding(crate::specs::inside::Pieces::name_piece))]
fn put_name(line: &mut Line, name: HeaderName)
    requires { array_string_len line.old ≤ 60 }
    ensures bytes { line.new.bytes ≡ line.old.bytes ++ name_piece name }
    ensures len { array_string_len line.new ≤ array_string_len line.old + 60 }
{
    match name {
        HeaderName::Address {
            cylinder,
            head,
            sector,
            size_code,
        } => {
            put_two(line, cylinder, head);
            put_named(line, ",", u32::from(sector));
            put_named(line, ",", u32::from(size_code));
        }
        HeaderName::TrackSector { track, sector } => put_two(line, track, sector),
        HeaderName::TrackSectorSide {
            track,
            sector,
            side,
            format,
        } => {
            put_two(line, track, sector);
            put_named(line, ",", u32::from(side));
            put_named(line, ",", u32::from(format));
        }
    }
    put(line, "]");
}

/// Appends the first two of these.
fn put_two(line: &mut Line, first: u8, second: u8)
    requires { array_string_len line.old ≤ 60 }
    ensures bytes { line.new.bytes ≡ line.old.bytes ++ two_piece first second }
    ensures len { array_string_len line.new ≤ array_string_len line.old + 30 }
{
    put_named(line, ",\"name\":[", u32::from(first));
    put_named(line, ",", u32::from(second));
}

/// Appends a name and a number of up to twenty digits.
fn put_long(line: &mut Line, name: &str, number: u64)
    requires { array_string_len line.old + length name.now + 20 ≤ 192 }
    ensures bytes { line.new.bytes ≡ line.old.bytes ++ (name.now ++ decimal number) }
    ensures len { array_string_len line.new ≤ array_string_len line.old + length name.now + 20 }
{
    put(line, name);
    put_u64(line, number);
}
