//! What is told of a dump that has none of the tracks that were looked for.

ghost use Rattle.std.specs.Prelude.{◌≡◌, ◌++◌, codes, decimal};
ghost use Rattle.flux_base.specs.Moments.{Puts};
ghost use Rattle.flux_base.specs.World.{sink_at};
ghost use Rattle.flux_cli.specs.EmptyText.{empty_text, kind_text, told_path};
ghost use Rattle.sector_report.specs.ScpLines.{scp_file_fault_text};

use flux_base::{Failed, Sink, write_whole};
use scp_files::ScpFault;
use sector_report::{Line, put, put_scp_file_fault, put_u32, write_line};
use track_shelf::{DumpKind, Prefix};

/// How many bytes of a path are told.
const MOST_TOLD: usize = 100;

/// Writes that a dump has none of the tracks that were looked for, and what is there under its word. After `Failed` a
/// part of it was written.
#[tactic(auto, unfolding(crate::specs::EmptyText::empty_text))]
pub(crate) fn write_empty<N: Sink>(
    number: u8,
    dump: &[u8],
    kind: &DumpKind,
    notes: &mut N,
) -> Result<(), Failed>
    ensures { Puts (sink_at N.Sink notes.old) (sink_at N.Sink notes.new) (empty_text number dump.now kind.now) result }
{
    match write_line(notes, &front_line(number)) {
        Ok(()) => write_kind(dump, kind, notes),
        Err(failed) => Err(failed),
    }
}

/// Which dump it is.
fn front_line(number: u8) -> Line
    ensures { result.bytes ≡ codes "refused dump " ++ decimal number ++ codes " " }
{
    let mut line = Line::new();
    put(&mut line, "refused dump ");
    put_u32(&mut line, u32::from(number));
    put(&mut line, " ");
    line
}

/// Writes its path and what is there, to the line's end; of an SCP file that has no tracks its fault.
fn write_kind<N: Sink>(dump: &[u8], kind: &DumpKind, notes: &mut N) -> Result<(), Failed>
    ensures { Puts (sink_at N.Sink notes.old) (sink_at N.Sink notes.new) (kind_text dump.now kind.now) result }
{
    match kind {
        DumpKind::NotThere => write_told(dump, " is not there\n", notes),
        DumpKind::AFile => write_told(dump, " is a file\n", notes),
        DumpKind::NoFiles => write_told(dump, " has no files trackCC.H.raw\n", notes),
        DumpKind::OtherTracks => write_told(dump, " has files of other tracks alone\n", notes),
        DumpKind::Named(prefix) => write_named(dump, prefix, notes),
        DumpKind::RefusedScp(fault) => write_line(notes, &scp_line(*fault)),
        DumpKind::Unknown => write_told(dump, " cannot be looked at\n", notes),
    }
}

/// The fault of an SCP file.
fn scp_line(fault: ScpFault) -> Line
    ensures { result.bytes ≡ codes "scp " ++ scp_file_fault_text fault ++ codes "\n" }
{
    let mut line = Line::new();
    put(&mut line, "scp ");
    put_scp_file_fault(&mut line, fault);
    put(&mut line, "\n");
    line
}

/// Writes a path, and what is there.
fn write_told<N: Sink>(path: &[u8], text: &str, notes: &mut N) -> Result<(), Failed>
    ensures { Puts (sink_at N.Sink notes.old) (sink_at N.Sink notes.new) (told_path path.now ++ text.now) result }
{
    match write_path(path, notes) {
        Ok(()) => write_whole(notes, text.as_bytes()),
        Err(failed) => Err(failed),
    }
}

/// Writes a path: of a long one the end, which tells the most.
#[tactic(auto, unfolding(crate::specs::EmptyText::told_path))]
fn write_path<N: Sink>(path: &[u8], notes: &mut N) -> Result<(), Failed>
    ensures { Puts (sink_at N.Sink notes.old) (sink_at N.Sink notes.new) (told_path path.now) result }
{
    if path.len() <= MOST_TOLD {
        return write_whole(notes, path);
    }
    let (_, end) = path.split_at(path.len() - MOST_TOLD);
    match write_whole(notes, "..".as_bytes()) {
        Ok(()) => write_whole(notes, end),
        Err(failed) => Err(failed),
    }
}

/// Writes a path, and with what the names of the files that are there begin.
fn write_named<N: Sink>(path: &[u8], prefix: &Prefix, notes: &mut N) -> Result<(), Failed>
    ensures { Puts (sink_at N.Sink notes.old) (sink_at N.Sink notes.new)
        (told_path path.now ++ (codes " has files " ++ (prefix.now ++ codes "CC.H.raw: name one of them\n"))) result }
{
    match write_path(path, notes) {
        Ok(()) => write_begin(prefix, notes),
        Err(failed) => Err(failed),
    }
}

/// Writes with what the names of the files that are there begin.
fn write_begin<N: Sink>(prefix: &Prefix, notes: &mut N) -> Result<(), Failed>
    ensures { Puts (sink_at N.Sink notes.old) (sink_at N.Sink notes.new)
        (codes " has files " ++ (prefix.now ++ codes "CC.H.raw: name one of them\n")) result }
{
    match write_whole(notes, " has files ".as_bytes()) {
        Ok(()) => write_prefix(prefix, notes),
        Err(failed) => Err(failed),
    }
}

fn write_prefix<N: Sink>(prefix: &Prefix, notes: &mut N) -> Result<(), Failed>
    ensures { Puts (sink_at N.Sink notes.old) (sink_at N.Sink notes.new)
        (prefix.now ++ codes "CC.H.raw: name one of them\n") result }
{
    match write_whole(notes, prefix.as_str().as_bytes()) {
        Ok(()) => write_whole(notes, "CC.H.raw: name one of them\n".as_bytes()),
        Err(failed) => Err(failed),
    }
}
