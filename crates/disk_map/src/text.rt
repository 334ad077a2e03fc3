//! A piece of the picture's text.

ghost use Rattle.std.specs.Prelude.{◌≡◌, ◌+◌, ◌≤◌, ◌++◌, length, decimal};
ghost use Rattle.arrayvec.specs.ArrayString.{array_string_len};
ghost use Rattle.flux_base.specs.Moments.{Puts};
ghost use Rattle.flux_base.specs.World.{sink_at};

use arrayvec::ArrayString;
use flux_base::{Failed, Sink, write_whole};
use itoa::Buffer;

/// A piece of text of at most 1200 bytes.
pub type Text = ArrayString<1200>;

/// Hands a piece to a sink. After `Failed` a part of it was written.
pub(crate) fn write_text<W: Sink>(sink: &mut W, text: &Text) -> Result<(), Failed>
    ensures { Puts (sink_at W.Sink sink.old) (sink_at W.Sink sink.new) text.now.bytes result }
{
    write_whole(sink, text.as_str().as_bytes())
}

/// Appends a text.
pub(crate) fn append(text: &mut Text, more: &str)
    requires { array_string_len text.old + length more.now ≤ 1200 }
    ensures bytes { text.new.bytes ≡ text.old.bytes ++ more.now }
    ensures len { array_string_len text.new ≡ array_string_len text.old + length more.now }
{
    text.push_str(more);
}

/// Appends a text and a number, which has at most ten digits.
pub(crate) fn append_number(text: &mut Text, before: &str, number: u32)
    requires { array_string_len text.old + length before.now + 10 ≤ 1200 }
    ensures bytes { text.new.bytes ≡ text.old.bytes ++ (before.now ++ decimal number) }
    ensures len { array_string_len text.new ≤ array_string_len text.old + length before.now + 10 }
{
    append(text, before);
    text.push_str(Buffer::new().format(number));
}
