ghost use Rattle.std.specs.Prelude.{◌≡◌, ◌+◌, ◌≤◌, ◌++◌, length, decimal};
ghost use Rattle.arrayvec.specs.ArrayString.{array_string_len};
ghost use Rattle.flux_base.specs.Moments.{Puts};
ghost use Rattle.flux_base.specs.World.{sink_at};

use arrayvec::ArrayString;
use flux_base::{Failed, Sink, write_whole};
use itoa::Buffer;

/// One line of text, with its line feed, in at most 192 bytes.
pub type Line = ArrayString<192>;

/// Hands a line to a sink, in one piece. After `Failed` a part of it was written.
pub fn write_line<W: Sink>(sink: &mut W, line: &Line) -> Result<(), Failed>
    ensures { Puts (sink_at W.Sink sink.old) (sink_at W.Sink sink.new) line.now.bytes result }
{
    write_whole(sink, line.as_str().as_bytes())
}

/// Appends a text.
pub fn put(line: &mut Line, text: &str)
    requires { array_string_len line.old + length text.now ≤ 192 }
    ensures bytes { line.new.bytes ≡ line.old.bytes ++ text.now }
    ensures len { array_string_len line.new ≡ array_string_len line.old + length text.now }
{
    line.push_str(text);
}

/// Appends a number, which has at most ten digits.
pub fn put_u32(line: &mut Line, number: u32)
    requires { array_string_len line.old + 10 ≤ 192 }
    ensures bytes { line.new.bytes ≡ line.old.bytes ++ decimal number }
    ensures len { array_string_len line.new ≤ array_string_len line.old + 10 }
{
    line.push_str(Buffer::new().format(number));
}

/// Appends a number, which has at most three digits.
pub fn put_u8(line: &mut Line, number: u8)
    requires { array_string_len line.old + 3 ≤ 192 }
    ensures bytes { line.new.bytes ≡ line.old.bytes ++ decimal number }
    ensures len { array_string_len line.new ≤ array_string_len line.old + 3 }
{
    line.push_str(Buffer::new().format(number));
}

/// Appends a number, which has at most twenty digits.
pub fn put_u64(line: &mut Line, number: u64)
    requires { array_string_len line.old + 20 ≤ 192 }
    ensures bytes { line.new.bytes ≡ line.old.bytes ++ decimal number }
    ensures len { array_string_len line.new ≤ array_string_len line.old + 20 }
{
    line.push_str(Buffer::new().format(number));
}

/// Appends a name and a number.
pub fn put_named(line: &mut Line, name: &str, number: u32)
    requires { array_string_len line.old + length name.now + 10 ≤ 192 }
    ensures bytes { line.new.bytes ≡ line.old.bytes ++ (name.now ++ decimal number) }
    ensures len { array_string_len line.new ≤ array_string_len line.old + length name.now + 10 }
{
    put(line, name);
    put_u32(line, number);
}
