//! The lines of what is noted.

ghost use Rattle.std.specs.Prelude.{◌≡◌, ◌+◌, ◌≤◌, ◌<◌, ◌++◌, flat_map};
ghost use Rattle.arrayvec.specs.ArrayString.{array_string_len};
ghost use Rattle.flux_base.specs.Moments.{Puts};
ghost use Rattle.flux_base.specs.World.{sink_at};
ghost use Rattle.scp_notes.specs.Lines.{dump_text, early_text, eight_hex, failed_text, hex_digit, notes_text, sums_by};
ghost use Rattle.scp_notes.specs.Lines.{sums_text, two_hex};

use crate::early::EarlyEnd;
use crate::file::FileNotes;
use crate::sums::Sums;
use flux_base::{Failed, Sink};
use scp_files::ScpTrackFault;
use sector_report::{Line, put, put_named, put_scp_fault, put_two_digits, put_u32, write_line};

/// That a file's sum is not the one that it names: `scp sum X wanted Y`, in eight hexadecimal digits each.
#[tactic(auto, unfolding(crate::specs::Lines::sums_text))]
pub fn sums_line(sums: Sums) -> Line
    ensures { result.bytes ≡ sums_text sums }
{
    let mut line = Line::new();
    put_sums(&mut line, sums);
    line
}

/// That the file of a dump failed as it was looked at.
#[tactic(auto, unfolding(crate::specs::Lines::failed_text))]
pub(crate) fn failed_line(dump: u8) -> Line
    ensures { result.bytes ≡ failed_text dump }
{
    let mut line = Line::new();
    put_dump(&mut line, dump);
    put(&mut line, "scp failed\n");
    line
}

/// Writes the notes of a dump.
pub(crate) fn write_notes<N: Sink>(dump: u8, notes: &FileNotes, sink: &mut N) -> Result<(), Failed>
    ensures { Puts (sink_at N.Sink sink.old) (sink_at N.Sink sink.new) (notes_text dump notes.now) result }
{
    match write_sums(dump, notes.sums, sink) {
        Ok(()) => write_ends(dump, notes.ends.as_slice(), sink),
        Err(failed) => Err(failed),
    }
}

/// Writes the line of the sums of a dump, where they differ.
fn write_sums<N: Sink>(dump: u8, sums: Option<Sums>, sink: &mut N) -> Result<(), Failed>
    ensures { Puts (sink_at N.Sink sink.old) (sink_at N.Sink sink.new) (sums_by dump sums) result }
{
    match sums {
        Some(sums) => write_line(sink, &dump_sums_line(dump, sums)),
        None => Ok(()),
    }
}

/// Writes a line for each track of a dump that ends early.
fn write_ends<N: Sink>(dump: u8, ends: &[EarlyEnd], sink: &mut N) -> Result<(), Failed>
    ensures { Puts (sink_at N.Sink sink.old) (sink_at N.Sink sink.new) (flat_map (early_text dump) ends.now) result }
{
    for end in ends {
        match write_line(sink, &early_line(dump, *end)) {
            Ok(()) => {}
            Err(failed) => return Err(failed),
        }
    }
    Ok(())
}

/// The sums of a dump that differ: `dump D ` and the line.
#[tactic(auto, unfolding(crate::specs::Lines::sums_text))]
fn dump_sums_line(dump: u8, sums: Sums) -> Line
    ensures { result.bytes ≡ dump_text dump ++ sums_text sums }
{
    let mut line = Line::new();
    put_dump(&mut line, dump);
    put_sums(&mut line, sums);
    line
}

/// That a track of a dump ends early: `CC.H dump D scp ShortData R`.
#[tactic(auto, unfolding(crate::specs::Lines::early_text))]
fn early_line(dump: u8, end: EarlyEnd) -> Line
    ensures { result.bytes ≡ early_text dump end }
{
    let mut line = Line::new();
    put_two_digits(&mut line, end.number / 2);
    put(&mut line, ".");
    put_u32(&mut line, u32::from(end.number % 2));
    put(&mut line, " ");
    put_dump(&mut line, dump);
    put(&mut line, "scp ");
    put_scp_fault(&mut line, ScpTrackFault::ShortData(end.whole));
    put(&mut line, "\n");
    line
}

/// Appends `dump D `.
fn put_dump(line: &mut Line, dump: u8)
    requires room { array_string_len line.old + 20 ≤ 192 }
    ensures bytes { line.new.bytes ≡ line.old.bytes ++ dump_text dump }
    ensures len { array_string_len line.new ≤ array_string_len line.old + 20 }
{
    put_named(line, "dump ", u32::from(dump));
    put(line, " ");
}

/// Appends the sums and the end of the line.
#[tactic(auto, unfolding(crate::specs::Lines::sums_text))]
fn put_sums(line: &mut Line, sums: Sums)
    requires room { array_string_len line.old + 40 ≤ 192 }
    ensures bytes { line.new.bytes ≡ line.old.bytes ++ sums_text sums }
{
    put(line, "scp sum ");
    put_number(line, sums.sum);
    put(line, " wanted ");
    put_number(line, sums.wanted);
    put(line, "\n");
}

/// Appends a number in eight hexadecimal digits.
#[tactic(auto, unfolding(crate::specs::Lines::eight_hex))]
fn put_number(line: &mut Line, number: u32)
    requires room { array_string_len line.old + 8 ≤ 192 }
    ensures bytes { line.new.bytes ≡ line.old.bytes ++ eight_hex number }
    ensures len { array_string_len line.new ≡ array_string_len line.old + 8 }
{
    put_byte(line, (number / 16777216) as u8);
    put_byte(line, (number / 65536 % 256) as u8);
    put_byte(line, (number / 256 % 256) as u8);
    put_byte(line, (number % 256) as u8);
}

/// Appends a byte in two hexadecimal digits.
fn put_byte(line: &mut Line, byte: u8)
    requires room { array_string_len line.old + 2 ≤ 192 }
    ensures bytes { line.new.bytes ≡ line.old.bytes ++ two_hex byte }
    ensures len { array_string_len line.new ≡ array_string_len line.old + 2 }
{
    line.push(digit(byte / 16));
    line.push(digit(byte % 16));
}

/// The digit of a number below 16.
fn digit(number: u8) -> char
    requires { number < 16 }
    ensures value { result ≡ hex_digit number }
    ensures low { result < 128 }
{
    if number < 10 {
        char::from(number + b'0')
    } else {
        char::from(number + (b'A' - 10))
    }
}
