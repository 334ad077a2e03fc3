//! The lines of a disk that is read of several dumps, beside those of its sectors. Dumps are numbered from 0.

ghost use Rattle.std.specs.Prelude.{◌≡◌, ◌+◌, ◌≤◌, ◌<◌, ◌++◌, codes, decimal};
ghost use Rattle.arrayvec.specs.ArrayString.{array_string_len};
ghost use Rattle.sector_report.specs.DumpLines.{dump_name, name_text, other_text, passed_text, traces_text};
ghost use Rattle.sector_report.specs.DumpLines.{unread_text, untold_text};

use crate::line::{Line, put, put_named, put_u8, put_u64};
use crate::naming::Naming;
use crate::refused::put_fault;
use crate::scp_lines::put_scp_fault;
use crate::sector_lines::{put_number, put_place, put_track};
use flux_base::{HeaderName, TrackId};
use kryo_stream::StreamFault;
use scp_files::ScpTrackFault;
use turn_merge::OtherTold;

/// Why a dump's stream of a track was passed over.
#[derive(Clone, Copy, Debug, PartialEq, Eq)]
pub enum Passed {
    /// The dump has no file of the track.
    Absent,
    /// The file could not be opened, or not be read up to the stream's End.
    Failed,
    /// The stream is refused.
    Refused {
        /// The block's number from 0 in the stream.
        block: u32,
        fault: StreamFault,
    },
    /// The track of an SCP file is refused.
    RefusedScp(ScpTrackFault),
}

/// That a dump's stream of a track was passed over, and why: `CC.H dump D missing`, `CC.H dump D failed`, or
/// `CC.H dump D refused block B` or `CC.H dump D refused scp` and the fault with its numbers. The cylinder is below
/// 100.
#[tactic(auto, unfolding(crate::specs::DumpLines::passed_text))]
pub fn passed_line(track: TrackId, dump: u8, passed: &Passed) -> Line
    requires { track.cylinder < 100 }
    ensures { result.bytes ≡ passed_text track dump passed.now }
{
    let mut line = Line::new();
    put_dump(&mut line, track, dump);
    match *passed {
        Passed::Absent => put(&mut line, "missing"),
        Passed::Failed => put(&mut line, "failed"),
        Passed::Refused { block, fault } => {
            put_named(&mut line, "refused block ", block);
            put(&mut line, " ");
            put_fault(&mut line, &fault);
        }
        Passed::RefusedScp(fault) => {
            put(&mut line, "refused scp ");
            put_scp_fault(&mut line, fault);
        }
    }
    put(&mut line, "\n");
    line
}

/// What is told of a name that headers of a track have and none of its sectors: `CC.H other`, the name's numbers, how
/// many headers have it, after how many of them whole data stand, and the place of the first one, with that part of its
/// source. The cylinder is below 100.
#[tactic(auto, unfolding(crate::specs::DumpLines::other_text))]
pub fn other_line(naming: Naming, track: TrackId, told: &OtherTold) -> Line
    requires { track.cylinder < 100 }
    ensures { result.bytes ≡ other_text naming track told.now }
{
    let mut line = Line::new();
    put_track(&mut line, track);
    put(&mut line, " other");
    put_name(&mut line, told.name);
    put(&mut line, " ");
    put_u64(&mut line, told.headers);
    put(&mut line, " ");
    put_u64(&mut line, told.whole);
    put_place(&mut line, naming, told.first);
    put(&mut line, "\n");
    line
}

/// That whole data stand after a header of a track whose name is that of none of its sectors, and is not told: `CC.H
/// others not told`. The cylinder is below 100.
#[tactic(auto, unfolding(crate::specs::DumpLines::untold_text))]
pub fn untold_line(track: TrackId) -> Line
    requires { track.cylinder < 100 }
    ensures { result.bytes ≡ untold_text track }
{
    let mut line = Line::new();
    put_track(&mut line, track);
    put(&mut line, " others not told\n");
    line
}

/// How many names headers of a track have and none of its sectors, after none of which whole data stand: `CC.H traces
/// N`. The cylinder is below 100.
#[tactic(auto, unfolding(crate::specs::DumpLines::traces_text))]
pub fn traces_line(track: TrackId, count: u64) -> Line
    requires { track.cylinder < 100 }
    ensures { result.bytes ≡ traces_text track count }
{
    let mut line = Line::new();
    put_track(&mut line, track);
    put(&mut line, " traces ");
    put_u64(&mut line, count);
    put(&mut line, "\n");
    line
}

/// How many streams were passed over, how many names of other headers were told, and after how many of them whole data
/// stand.
#[tactic(auto, unfolding(crate::specs::DumpLines::unread_text))]
pub fn unread_line(unread: u32, others: u32, whole: u32) -> Line
    ensures { result.bytes ≡ unread_text unread others whole }
{
    let mut line = Line::new();
    put_named(&mut line, "unread ", unread);
    put_named(&mut line, " other ", others);
    put_named(&mut line, " whole ", whole);
    put(&mut line, "\n");
    line
}

/// Appends `CC.H dump D `.
#[tactic(auto, unfolding(crate::specs::DumpLines::dump_name))]
fn put_dump(line: &mut Line, track: TrackId, dump: u8)
    requires { array_string_len line.old + 60 ≤ 192 }
    ensures bytes { line.new.bytes ≡ line.old.bytes ++ dump_name track dump }
    ensures len { array_string_len line.new ≤ array_string_len line.old + 60 }
{
    put_track(line, track);
    put(line, " dump ");
    put_u8(line, dump);
    put(line, " ");
}

/// Appends the numbers of a header's name, each with a blank before it.
#[tactic(auto, unfolding(crate::specs::DumpLines::name_text))]
fn put_name(line: &mut Line, name: HeaderName)
    requires { array_string_len line.old + 16 ≤ 192 }
    ensures bytes { line.new.bytes ≡ line.old.bytes ++ name_text name }
    ensures len { array_string_len line.new ≤ array_string_len line.old + 16 }
{
    match name {
        HeaderName::Address {
            cylinder,
            head,
            sector,
            size_code,
        } => put_four(line, cylinder, head, sector, size_code),
        HeaderName::TrackSector { track, sector } => {
            put_number(line, track);
            put_number(line, sector);
        }
        HeaderName::TrackSectorSide {
            track,
            sector,
            side,
            format,
        } => put_four(line, track, sector, side, format),
    }
}

/// Appends four numbers, each with a blank before it.
fn put_four(line: &mut Line, first: u8, second: u8, third: u8, fourth: u8)
    requires { array_string_len line.old + 16 ≤ 192 }
    ensures bytes { line.new.bytes
        ≡ line.old.bytes
        ++ (codes " " ++ decimal first ++ codes " " ++ decimal second ++ codes " " ++ decimal third ++ codes " "
        ++ decimal fourth) }
    ensures len { array_string_len line.new ≤ array_string_len line.old + 16 }
{
    put_number(line, first);
    put_number(line, second);
    put_number(line, third);
    put_number(line, fourth);
}
