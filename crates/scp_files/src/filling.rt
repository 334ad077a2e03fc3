ghost use Rattle.std.specs.Prelude.{◌≡◌, ◌<◌, ◌≤◌, is_err, length, take, IfOk, OnErr};
ghost use Rattle.std.specs.Io.KnownBytes.{Consumes, IsAtEnd};
ghost use Rattle.flux_base.specs.Counts.{Counts};
ghost use Rattle.flux_base.specs.World.{source_counts};
ghost use Rattle.scp_files.specs.Captures.{TakesFewer};

use flux_base::{Failed, Source};

/// Reads until the buffer is full or the source has ended, and gives the number of bytes, which stand at the
/// buffer's front.
pub(crate) fn fill<S: Source>(buffer: &mut [u8], source: &mut S) -> Result<usize, Failed>
    ensures bound { IfOk result (λ count. count ≤ length buffer.new) }
    ensures len { length buffer.new ≡ length buffer.old }
    ensures ok { IfOk result (λ count. Consumes (S.left source.old) (S.left source.new) (take count buffer.new)) }
    ensures ended { IfOk result (λ count. count < length buffer.new → IsAtEnd (S.left source.new)) }
    ensures err { OnErr result (TakesFewer (S.left source.old) (S.left source.new) (length buffer.old)) }
    ensures counts { Counts (is_err result) (source_counts S.Source source.old) (source_counts S.Source source.new) }
{
    let mut filled = 0;
    while filled < buffer.len() {
        match source.read(&mut buffer[filled..]) {
            Ok(0) => return Ok(filled),
            Ok(count) => filled += count,
            Err(failed) => return Err(failed),
        }
    }
    Ok(filled)
}
